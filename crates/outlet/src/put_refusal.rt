//! Why a leg is not put.
ghost use Rattle.std.specs.Prelude.{◌≡◌, Some};
ghost use Rattle.outlet.specs.Outlets.{put_number, put_text};

use std::fmt;

#[derive(Clone, Copy, PartialEq, Eq, Debug)]
pub enum PutRefusal {
    /// The data has a field that no leg has.
    NoLeg,
    /// The outlet is full.
    Full,
}

impl PutRefusal {
    /// The number by which the refusal goes.
    // a method, and no conversion: a refusal has a number, and may name a place besides
    pub fn number(self) -> u32
        ensures { result ≡ put_number self }
    {
        match self {
            PutRefusal::NoLeg => 24,
            PutRefusal::Full => 31,
        }
    }
}

/// As in `refused 31: the outlet is full`.
impl fmt::Display for PutRefusal {
    ghost output = { λ r. Some (put_text r) };

    fn fmt<W: fmt::Write>(&self, f: &mut fmt::Formatter<W>) -> fmt::Result {
        let number = self.number();
        match self {
            PutRefusal::NoLeg => write!(f, "refused {number}: a field that no leg has"),
            PutRefusal::Full => write!(f, "refused {number}: the outlet is full"),
        }
    }
}
