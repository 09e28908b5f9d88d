//! Matching: the quadratic leg with the same ends and the same weighted mean as the curve.
ghost use Rattle.std.specs.Prelude.{◌≡◌, ◌-◌, ◌^◌};
ghost use Rattle.std.specs.Int.{int_wrap, w64};
ghost use Rattle.bezier.specs.Bernstein.{degree_of};
ghost use Rattle.bezier.specs.Reductions.{blended, matched_sum, matching as the_matching};
ghost use Rattle.bezier.specs.Laws.Reductions.{matching_lawful};

use crate::binomial::table_entry;
use crate::curve::Curve;
use crate::degree::Degree;
use crate::reduction::Reduction;
use crate::weight::{minus, plus, times};
use distance::measure::Distance;

/// S at coordinate `i`: the sum of C(n, j) pj.
fn blend<P: Distance>(curve: &Curve<'_, P>, i: usize) -> i64
    ensures { result ≡ int_wrap w64 (blended P.Ordinate.kind curve.now.points.now i) }
{
    let n = curve.degree() as usize;
    let mut sum = 0i64;
    for (j, point) in curve.points.iter().enumerate() {
        sum = plus(sum, times(table_entry(n, j), point.coordinate(i)));
    }
    sum
}

/// 2^(n - 1).
fn half_power<P: Distance>(curve: &Curve<'_, P>) -> u32
    ensures { result ≡ 2 ^ (degree_of P.Ordinate.kind curve.now.points.now - 1) }
{
    1 << (curve.degree() - 1)
}

/// 2 S - 2^(n-1) (p0 + pn) at coordinate `i`.
fn match_sum<P: Distance>(curve: &Curve<'_, P>, i: usize) -> i64
    ensures { result ≡ int_wrap w64 (matched_sum P.Ordinate.kind curve.now.points.now i) }
{
    let ends = plus(curve.first().coordinate(i), curve.last().coordinate(i));
    minus(times(2, blend(curve, i)), times(half_power(curve), ends))
}

#[derive(Clone, Copy)]
pub struct Matching {}

impl<P: Distance> Reduction<P> for Matching {
    ghost rule = { the_matching P.Ordinate.kind };

    ghost lawful = { matching_lawful P.Ordinate.kind P.Distance.measure P.Ordinate.lawful };

    fn degree() -> Degree {
        Degree::Two
    }

    fn lowest() -> usize {
        2
    }

    fn middle(points: &[P]) -> P {
        let mut middle = P::zero();
        let Some(curve) = Curve::of(points) else {
            return middle;
        };
        // By index, as a point is no slice of its coordinates.
        for i in 0..P::dimension() {
            middle = middle.with_coordinate(i, match_sum(&curve, i) >> curve.degree());
        }
        middle
    }
}
