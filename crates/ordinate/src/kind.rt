//! What a kind of ordinate offers to legs and cards.
ghost use Rattle.std.specs.Prelude.{◌≡◌, ◌≢◌, ℕ, ◌<◌, ◌↔◌, IsTrue, pos};
ghost use Rattle.ordinate.specs.Octets.{octets_of};
ghost use Rattle.ordinate.specs.Kinds.{Kind, Lawful, InRange, Set};

use crate::coordinate::{from_octets, to_octets};

/// A point whose coordinates are whole numbers. Nothing here adds points or measures between them.
pub trait Ordinate: Copy + Eq {
    ghost kind: { Kind Self };

    /// The octet that names this kind on a card: the format's number.
    fn code() -> u8
        ensures { result ≡ kind.code };

    /// How many coordinates a point has.
    fn dimension() -> usize
        ensures { result ≡ kind.dimension };

    /// The point whose coordinates are all 0.
    fn zero() -> Self
        ensures { (i : ℕ) → kind.coordinate result i ≡ pos 0 };

    /// Coordinate `i`; 0 where there is none.
    fn coordinate(self, i: usize) -> i64
        ensures { result ≡ kind.coordinate self i };

    /// This point with another value as coordinate `i`; the same point where it has no such coordinate.
    fn with_coordinate(self, i: usize, value: i64) -> Self
        ensures here { i < kind.dimension → kind.coordinate result i ≡ value }
        ensures others { (j : ℕ) → (j ≢ i) → kind.coordinate result j ≡ kind.coordinate self j };

    /// The octets of coordinate `i`; those of 0 where there is none.
    final fn octets(self, i: usize) -> [u8; 8]
        ensures { result ≡ octets_of (kind.coordinate self i) }
    {
        to_octets(self.coordinate(i))
    }

    /// This point with coordinate `i` as these octets write it; the same point where it has no such coordinate.
    final fn with(self, i: usize, octets: [u8; 8]) -> Self
        ensures { Set kind self i octets result }
    {
        self.with_coordinate(i, from_octets(octets))
    }

    /// Whether a leg may have this point.
    fn in_range(self) -> bool
        ensures { IsTrue result ↔ InRange kind self };

    ghost lawful: { Lawful kind };

    // `==` holds exactly of a point and itself.
    ghost exact: { (p q : Self) → IsTrue (Self.eq p q) ↔ (p ≡ q) };
}
