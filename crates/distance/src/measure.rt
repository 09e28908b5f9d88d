//! What a kind of ordinate offers beyond its points: a distance.
ghost use Rattle.std.specs.Prelude.{◌≡◌, pos};
ghost use Rattle.distance.specs.Measures.{Measure, LawfulMeasure};

use ordinate::kind::Ordinate;

/// A kind whose points can be measured, and so can be drawn as curves. A vector is held as a point too.
pub trait Distance: Ordinate {
    ghost measure: { Measure };

    /// C: the coordinates of a drawn curve lie from -C to C.
    fn limit() -> i64
        ensures { result ≡ pos measure.limit };

    /// A: what one rounding may cost, in halves.
    fn allowance() -> u32
        ensures { result ≡ measure.allowance };

    /// Whether this vector is within `r`.
    fn is_within(self, r: i64) -> bool
        ensures { result ≡ measure.within (Self.Ordinate.kind.coordinate self) r };

    ghost lawful: { LawfulMeasure Self.Ordinate.kind measure };
}
