//! Points of any measured kind: the halving of two, and which may be drawn.
ghost use Rattle.std.specs.Prelude.{◌≡◌, ◌↔◌, IsTrue, MatchOption};
ghost use Rattle.distance.specs.Measures.{Beyond, Inside, Reaches, halfway};

use crate::coordinate::{half, is_bounded};
use crate::measure::Distance;

/// The point half way between two, each coordinate rounded towards minus infinity.
pub fn halved<P: Distance>(a: P, b: P) -> P
    ensures { result ≡ halfway P.Ordinate.kind a b }
{
    let mut middle = a;
    // By index, as a point is no slice of its coordinates.
    for i in 0..P::dimension() {
        middle = middle.with_coordinate(i, half(a.coordinate(i), b.coordinate(i)));
    }
    middle
}

/// Whether every coordinate of the point lies from -C to C.
pub fn is_drawable<P: Distance>(p: P) -> bool
    ensures { IsTrue result ↔ Reaches P.Ordinate.kind P.Distance.measure.limit p }
{
    let limit = P::limit();
    (0..P::dimension()).all(|i| is_bounded(p.coordinate(i), limit))
}

/// The place of the first point that has a coordinate beyond -C or C. It stays a loop over the points with their index, as the project fixes for this place.
pub fn first_beyond<P: Distance>(points: &[P]) -> Option<usize>
    ensures { MatchOption result (Inside P.Ordinate.kind P.Distance.measure.limit points.now) (λ j. Beyond P.Ordinate.kind P.Distance.measure.limit points.now j) }
{
    for (j, p) in points.iter().enumerate() {
        if !is_drawable(*p) {
            return Some(j);
        }
    }
    None
}
