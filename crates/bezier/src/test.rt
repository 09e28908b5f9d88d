//! The control-point test: a leg, raised to the degree of the curve, beside the curve's own points.
ghost use Rattle.std.specs.Prelude.{◌≡◌, ℕ, ◌*◌, ◌^◌, ◌<◌, ◌≤◌, false, T, List, length};
ghost use Rattle.std.specs.Int.{int_wrap, w64};
ghost use Rattle.distance.specs.Measures.{Inside};
ghost use Rattle.distance.specs.Vectors.{◌·◌};
ghost use Rattle.bezier.specs.Bernstein.{degree_of};
ghost use Rattle.bezier.specs.Near.{CellNear};
ghost use Rattle.bezier.specs.Rounds.{cell_points};
ghost use Rattle.bezier.specs.Shares.{all_near, gap_of, gap_vector, shares_of};
ghost use Rattle.bezier.specs.Tests.{left_over, passes as the_test, scale as the_scale};

use crate::curve::Curve;
use crate::degree::Degree;
use crate::reduction::Reduction;
use crate::shares::Shares;
use crate::weight::{minus, plus, times};
use distance::measure::Distance;

/// M and the weights of the leg's points in point `j`, raised to degree `n`.
fn shares(degree: Degree, n: u8, j: u8) -> Shares
    ensures { result ≡ shares_of degree n j }
{
    let rest = n.saturating_sub(j) as u32;
    let n = n as u32;
    let j = j as u32;
    match degree {
        Degree::One => Shares {
            scale: n,
            start: rest,
            middle: 0,
            end: j,
        },
        Degree::Two => Shares {
            scale: n * n.saturating_sub(1),
            start: rest * rest.saturating_sub(1),
            middle: 2 * j * rest,
            end: j * j.saturating_sub(1),
        },
    }
}

/// The start, the middle and the end of a leg, or one coordinate of each.
#[derive(Clone, Copy)]
struct LegPoints<T> {
    start: T,
    middle: T,
    end: T,
}

/// Twice M x, less the raised coordinate.
fn gap(s: Shares, x: i64, leg: LegPoints<i64>) -> i64
    ensures { result ≡ int_wrap w64 (gap_of s x leg.start leg.middle leg.end) }
{
    let ends = plus(times(s.start, leg.start), times(s.middle, leg.middle));
    let raised = plus(ends, times(s.end, leg.end));
    times(2, minus(times(s.scale, x), raised))
}

/// Whether point `x` is near the raised point of the leg.
fn is_near<P: Distance>(s: Shares, x: P, leg: LegPoints<P>, r: i64) -> bool
    ensures { result ≡ P.Distance.measure.within (gap_vector P.Ordinate.kind P.Distance.measure s x leg.start leg.middle leg.end) r }
{
    let mut v = x;
    // By index, as a point is no slice of its coordinates.
    for i in 0..P::dimension() {
        let at = LegPoints {
            start: leg.start.coordinate(i),
            middle: leg.middle.coordinate(i),
            end: leg.end.coordinate(i),
        };
        v = v.with_coordinate(i, gap(s, x.coordinate(i), at));
    }
    v.is_within(r)
}

/// Whether all points are near the leg from the first by `middle` to the last.
fn are_near<P: Distance>(curve: &Curve<'_, P>, middle: P, degree: Degree, r: i64) -> bool
    ensures { result ≡ all_near P.Ordinate.kind P.Distance.measure degree curve.now.points.now middle r }
{
    let n = curve.degree();
    let leg = LegPoints {
        start: curve.first(),
        middle,
        end: curve.last(),
    };
    for (j, point) in curve.points.iter().enumerate() {
        let s = shares(degree, n, j as u8);
        if !is_near(s, *point, leg, r) {
            return false;
        }
    }
    true
}

/// A n d: what `depth` halvings of a curve of degree `n` may have cost, in halves.
fn spent<P: Distance>(curve: &Curve<'_, P>, depth: u32) -> u64
    ensures { result ≡ P.Distance.measure.allowance * degree_of P.Ordinate.kind curve.now.points.now * depth }
{
    P::allowance() as u64 * curve.degree() as u64 * depth as u64
}

/// M (2 t - A n d): how far the points may lie from the raised leg, twice and M times over.
fn room<P: Distance>(curve: &Curve<'_, P>, degree: Degree, depth: u32, tolerance: u32) -> i64
    ensures { let n = degree_of P.Ordinate.kind curve.now.points.now in result ≡ the_scale degree n · left_over P.Ordinate.kind P.Distance.measure tolerance n depth }
{
    let left = 2 * tolerance as i64 - spent(curve, depth) as i64;
    let scale = shares(degree, curve.degree(), 0).scale;
    scale as i64 * left
}

/// Whether the leg that stands in for these points, those of a cell of this depth, passes the test: where it does, it is within the tolerance of the drawn curve at every moment of the cell.
/// Fewer than two points and more than nine never pass. The answer is left open for fewer points than the reduction takes, and for points beyond the limit.
// In line, as the halving asks it of every cell.
#[inline]
pub fn passes<P: Distance, R: Reduction<P>>(points: &[P], tolerance: u32, depth: u32) -> bool
    ensures value { R.Reduction.rule.lowest < length points.now → length points.now ≤ 9 → Inside P.Ordinate.kind P.Distance.measure.limit points.now → result ≡ the_test P.Ordinate.kind P.Distance.measure R.Reduction.rule tolerance depth points.now }
    ensures near { T result → (ps : List P) (k : ℕ) → R.Reduction.rule.lowest < length ps → length ps ≤ 9 → Inside P.Ordinate.kind P.Distance.measure.limit ps → k < 2 ^ depth → points.now ≡ cell_points P.Ordinate.kind depth k ps
        → CellNear P.Ordinate.kind P.Distance.measure R.Reduction.rule tolerance ps depth k }
    ensures none { length points.now < 2 → result ≡ false }
    ensures many { 9 < length points.now → result ≡ false }
{
    let Some(curve) = Curve::of(points) else {
        return false;
    };
    let degree = R::degree();
    let r = room(&curve, degree, depth, tolerance);
    are_near(&curve, R::middle(points), degree, r)
}
