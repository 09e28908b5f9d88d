//! Reductions: how the points of a part of a curve become the points of one leg.
ghost use Rattle.std.specs.Prelude.{◌≡◌, ◌<◌, ◌≤◌, length};
ghost use Rattle.distance.specs.Measures.{Inside};
ghost use Rattle.bezier.specs.Reductions.{Rule, LawfulReduction};

use crate::degree::Degree;
use distance::measure::Distance;

pub trait Reduction<P: Distance>: Sized {
    ghost rule: { Rule P };

    /// The degree of the legs.
    fn degree() -> Degree
        ensures { result ≡ rule.degree };

    /// The lowest degree of a curve that it takes.
    fn lowest() -> usize
        ensures { result ≡ rule.lowest };

    /// The middle of the leg that stands in for these points. It is left open for fewer or more points than a curve has, and for points beyond the limit.
    fn middle(points: &[P]) -> P
        ensures { rule.lowest < length points.now → length points.now ≤ 9 → Inside P.Ordinate.kind P.Distance.measure.limit points.now → result ≡ rule.middle points.now };

    ghost lawful: { LawfulReduction P.Ordinate.kind P.Distance.measure rule };
}
