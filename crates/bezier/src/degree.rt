//! The degree of a leg.
ghost use Rattle.std.specs.Prelude.{◌≡◌};
ghost use Rattle.bezier.specs.Reductions.{number as the_number};

/// A gate drive follows straight legs and quadratic ones.
#[derive(Clone, Copy, PartialEq, Eq, Debug)]
pub enum Degree {
    One,
    Two,
}

impl From<Degree> for u32 {
    ghost from_gives = { λ degree n. n ≡ the_number degree };

    fn from(degree: Degree) -> u32 {
        match degree {
            Degree::One => 1,
            Degree::Two => 2,
        }
    }
}
