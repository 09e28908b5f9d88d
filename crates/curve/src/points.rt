//! Which points a curve may be drawn by.
ghost use Rattle.std.specs.Prelude.{◌≡◌, ◌≤◌, IfOk, OnOk};
ghost use Rattle.leg.specs.Reasons.{First, refusal as refusal_of};
ghost use Rattle.curve.specs.Refusals.{Drawable, early_reasons, point_reasons, work_wanted};

use crate::accuracy::Accuracy;
use crate::drawn::Drawn;
use crate::limits::MOST_POINTS;
use crate::refusal::CurveRefusal;
use bezier::reduction::Reduction;
use distance::measure::Distance;
use distance::points::first_beyond;
use std::marker::PhantomData;

/// Whether the reduction takes these points: one more than its lowest degree up to nine, none beyond the limit.
pub fn check_points<P: Distance, R: Reduction<P>>(points: &[P]) -> Result<(), CurveRefusal>
    ensures drawn { OnOk result (Drawable P.Ordinate.kind P.Distance.measure R.Reduction.rule points.now) }
    ensures first { First (point_reasons P.Ordinate.kind P.Distance.measure R.Reduction.rule points.now) (refusal_of result) }
{
    let count = points.len();
    if count <= R::lowest() || count > MOST_POINTS {
        return Err(CurveRefusal::PointCount);
    }
    match first_beyond(points) {
        Some(point) => Err(CurveRefusal::PointBeyond(point)),
        None => Ok(()),
    }
}

/// Whether the halving of these points can begin, with so many work points: the curve to halve, and how many of them it uses.
pub(crate) fn check_work<'a, P: Distance, R: Reduction<P>>(
    points: &'a [P],
    accuracy: Accuracy,
    work: usize,
) -> Result<(Drawn<'a, P, R>, usize), CurveRefusal>
    ensures begins { IfOk result (λ y. (y.0.points.now ≡ points.now) × (y.0.accuracy ≡ accuracy)) }
    ensures uses { IfOk result (λ y. (y.1 ≡ work_wanted P.Ordinate.kind P.Distance.measure R.Reduction.rule accuracy.depth points.now) × (y.1 ≤ work)) }
    ensures first { First (early_reasons P.Ordinate.kind P.Distance.measure R.Reduction.rule accuracy.depth points.now work) (refusal_of result) }
{
    check_points::<P, R>(points)?;
    let wanted = (accuracy.depth() as usize + 1) * points.len();
    if work < wanted {
        return Err(CurveRefusal::ShortWork);
    }
    let curve = Drawn::<P, R> {
        points,
        accuracy,
        reduction: PhantomData,
    };
    Ok((curve, wanted))
}
