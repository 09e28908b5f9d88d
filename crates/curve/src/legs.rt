//! The legs of a curve: counted, or put into an outlet.
ghost use Rattle.std.specs.Prelude.{◌≡◌, ◌≤◌, [], ◌∷◌, length, IfOk};
ghost use Rattle.outlet.specs.Outlets.{room};
ghost use Rattle.leg.specs.Reasons.{First, refusal as refusal_of};
ghost use Rattle.curve.specs.Refusals.{Counted, PutLegs, bent, count_reasons, crowded, put_reasons, work_after, work_wanted};
ghost use Rattle.curve.specs.Pieces.{piece, piece_leg, pieces, Ready, handed};
ghost use Rattle.curve.specs.Cells.{whole};

use crate::accuracy::Accuracy;
use crate::cell::WHOLE;
use crate::drawn::Drawn;
use crate::points::check_work;
use crate::refusal::CurveRefusal;
use crate::row::{count_row, put_row};
use crate::span::Span;
use crate::tally::Tally;
use crate::work::wipe;
use bezier::reduction::Reduction;
use distance::measure::Distance;
use outlet::outlet::Outlet;

// Each of these asks for enough work points: a type that kept the fact could not lend them on to be written.

/// Counts the legs of a curve, with enough work points.
fn count_begun<P: Distance, R: Reduction<P>>(
    curve: &Drawn<'_, P, R>,
    work: &mut [P],
) -> Result<Tally, CurveRefusal>
    requires { work_wanted P.Ordinate.kind P.Distance.measure R.Reduction.rule curve.now.accuracy.depth curve.now.points.now ≤ length work.old }
    ensures first { First (bent P.Ordinate.kind P.Distance.measure R.Reduction.rule curve.now.accuracy.tolerance curve.now.accuracy.depth curve.now.points.now ∷ []) (refusal_of result) }
    ensures value { IfOk result (λ y. Counted P.Ordinate.kind P.Distance.measure R.Reduction.rule curve.now.accuracy.tolerance curve.now.accuracy.depth curve.now.points.now y) }
{
    let row = curve.points.len();
    work[..row].copy_from_slice(curve.points);
    count_row::<P, R>(work, row, WHOLE, curve.accuracy).ok_or(CurveRefusal::TooBent)
}

/// Puts the legs of a curve that is known to have them, with room for all.
fn put_begun<P: Distance, R: Reduction<P>, O: Outlet<P>>(
    curve: &Drawn<'_, P, R>,
    span: Span,
    work: &mut [P],
    outlet: &mut O,
)
    requires rows { work_wanted P.Ordinate.kind P.Distance.measure R.Reduction.rule curve.now.accuracy.depth curve.now.points.now ≤ length work.old }
    requires ready { Ready P.Ordinate.kind (piece_leg P.Ordinate.kind R.Reduction.rule span.from span.ticks) (pieces P.Ordinate.kind P.Distance.measure R.Reduction.rule curve.now.accuracy.tolerance curve.now.accuracy.depth (piece whole curve.now.points.now)) (O.Outlet.contents outlet.old) }
    ensures { O.Outlet.contents outlet.new ≡ handed (piece_leg P.Ordinate.kind R.Reduction.rule span.from span.ticks) (pieces P.Ordinate.kind P.Distance.measure R.Reduction.rule curve.now.accuracy.tolerance curve.now.accuracy.depth (piece whole curve.now.points.now)) (O.Outlet.contents outlet.old) }
{
    let row = curve.points.len();
    work[..row].copy_from_slice(curve.points);
    put_row::<P, R, O>(work, row, WHOLE, curve.accuracy, span, outlet);
}

/// Counts, compares with what is free, and puts.
fn lay_begun<P: Distance, R: Reduction<P>, O: Outlet<P>>(
    curve: &Drawn<'_, P, R>,
    span: Span,
    work: &mut [P],
    outlet: &mut O,
) -> Result<Tally, CurveRefusal>
    requires { work_wanted P.Ordinate.kind P.Distance.measure R.Reduction.rule curve.now.accuracy.depth curve.now.points.now ≤ length work.old }
    ensures first { First (bent P.Ordinate.kind P.Distance.measure R.Reduction.rule curve.now.accuracy.tolerance curve.now.accuracy.depth curve.now.points.now ∷ crowded P.Ordinate.kind P.Distance.measure R.Reduction.rule curve.now.accuracy.tolerance curve.now.accuracy.depth curve.now.points.now (room (O.Outlet.contents outlet.old)) ∷ []) (refusal_of result) }
    ensures puts { PutLegs P.Ordinate.kind P.Distance.measure R.Reduction.rule curve.now.accuracy.tolerance curve.now.accuracy.depth span.from span.ticks curve.now.points.now result (O.Outlet.contents outlet.old) (O.Outlet.contents outlet.new) }
{
    let tally = count_begun(curve, work)?;
    if outlet.free() < tally.legs {
        return Err(CurveRefusal::TooManyLegs);
    }
    put_begun(curve, span, work, outlet);
    Ok(tally)
}

/// How many legs a curve takes, and how many cells are tested to find them. Short work points are refused, and stay as they were.
pub fn count<P: Distance, R: Reduction<P>>(
    points: &[P],
    accuracy: Accuracy,
    work: &mut [P],
) -> Result<Tally, CurveRefusal>
    ensures first { First (count_reasons P.Ordinate.kind P.Distance.measure R.Reduction.rule accuracy.tolerance accuracy.depth points.now (length work.old)) (refusal_of result) }
    ensures value { IfOk result (λ y. Counted P.Ordinate.kind P.Distance.measure R.Reduction.rule accuracy.tolerance accuracy.depth points.now y) }
    ensures work { work.new ≡ work_after P.Ordinate.kind P.Distance.measure R.Reduction.rule result (work_wanted P.Ordinate.kind P.Distance.measure R.Reduction.rule accuracy.depth points.now) work.old }
{
    let (curve, used) = check_work::<P, R>(points, accuracy, work.len())?;
    let answer = count_begun(&curve, &mut work[..used]);
    wipe(&mut work[..used]);
    answer
}

/// Puts the legs of a curve into the outlet, in order; a refused curve puts none.
pub fn put<P: Distance, R: Reduction<P>, O: Outlet<P>>(
    points: &[P],
    accuracy: Accuracy,
    span: Span,
    work: &mut [P],
    outlet: &mut O,
) -> Result<Tally, CurveRefusal>
    ensures first { First (put_reasons P.Ordinate.kind P.Distance.measure R.Reduction.rule accuracy.tolerance accuracy.depth points.now (length work.old) (room (O.Outlet.contents outlet.old))) (refusal_of result) }
    ensures puts { PutLegs P.Ordinate.kind P.Distance.measure R.Reduction.rule accuracy.tolerance accuracy.depth span.from span.ticks points.now result (O.Outlet.contents outlet.old) (O.Outlet.contents outlet.new) }
    ensures work { work.new ≡ work_after P.Ordinate.kind P.Distance.measure R.Reduction.rule result (work_wanted P.Ordinate.kind P.Distance.measure R.Reduction.rule accuracy.depth points.now) work.old }
{
    let (curve, used) = check_work::<P, R>(points, accuracy, work.len())?;
    let answer = lay_begun(&curve, span, &mut work[..used], outlet);
    wipe(&mut work[..used]);
    answer
}
