//! The halving of a cell: its points stand in the first row of the work points, and the rows after it serve the cells below it.
ghost use Rattle.std.specs.Prelude.{◌≡◌, ◌+◌, ◌-◌, ◌*◌, ◌≤◌, drop, length, take};
ghost use Rattle.bezier.specs.Rounds.{left_half, right_half};
ghost use Rattle.curve.specs.Refusals.{Drawable};
ghost use Rattle.curve.specs.Pieces.{Ready, handed, piece, piece_leg, pieces, pieces_tested, tally};

use crate::accuracy::Accuracy;
use crate::cell::Part;
use crate::drawn::Drawn;
use crate::span::Span;
use crate::tally::Tally;
use bezier::halves::halve_row;
use bezier::reduction::Reduction;
use distance::measure::Distance;
use outlet::outlet::Outlet;
use std::marker::PhantomData;

/// The right half of the first row takes its place, and the left half stands in the row after it.
fn split<P: Distance>(work: &mut [P], row: usize)
    requires some { 1 ≤ row }
    requires rows { 2 * row ≤ length work.old }
    ensures right { take row work.new ≡ right_half P.Ordinate.kind (take row work.old) }
    ensures left { take row (drop row work.new) ≡ left_half P.Ordinate.kind (take row work.old) }
{
    halve_row(work, row - 1);
}

// What is asked of the rows stands in both contracts below: a type that kept it could not lend the rows on to be written.

/// Counts the legs that the cell comes to, and the cells tested; nothing where it is too bent.
pub(crate) fn count_row<P: Distance, R: Reduction<P>>(
    work: &mut [P],
    row: usize,
    part: Part,
    accuracy: Accuracy,
) -> Option<Tally>
    requires rows { (accuracy.depth - part.cell.depth + 1) * row ≤ length work.old }
    requires deep { part.cell.depth ≤ accuracy.depth }
    requires drawn { Drawable P.Ordinate.kind P.Distance.measure R.Reduction.rule (take row work.old) }
    ensures { result ≡ tally (pieces P.Ordinate.kind P.Distance.measure R.Reduction.rule accuracy.tolerance (accuracy.depth - part.cell.depth) (piece part.cell (take row work.old))) (pieces_tested P.Ordinate.kind P.Distance.measure R.Reduction.rule accuracy.tolerance (accuracy.depth - part.cell.depth) (piece part.cell (take row work.old))) }
{
    let here = Drawn::<P, R> {
        points: &work[..row],
        accuracy,
        reduction: PhantomData,
    };
    if here.passes(part.cell) {
        return Some(Tally { legs: 1, cells: 1 });
    }
    if part.cell.depth == accuracy.depth() {
        return None;
    }
    split(work, row);
    let (left, right) = part.halves();
    let first = count_row::<P, R>(&mut work[row..], row, left, accuracy)?;
    let second = count_row::<P, R>(work, row, right, accuracy)?;
    Some(Tally {
        legs: first.legs + second.legs,
        cells: 1 + first.cells + second.cells,
    })
}

/// Puts the legs that the cell comes to, in order. There is room for them, so no put is refused.
// The walk of `count_row`, written again: that one adds up and may fail, this one only writes, and cannot.
pub(crate) fn put_row<P: Distance, R: Reduction<P>, O: Outlet<P>>(
    work: &mut [P],
    row: usize,
    part: Part,
    accuracy: Accuracy,
    span: Span,
    outlet: &mut O,
)
    requires rows { (accuracy.depth - part.cell.depth + 1) * row ≤ length work.old }
    requires deep { part.cell.depth ≤ accuracy.depth }
    requires drawn { Drawable P.Ordinate.kind P.Distance.measure R.Reduction.rule (take row work.old) }
    requires ready { Ready P.Ordinate.kind (piece_leg P.Ordinate.kind R.Reduction.rule span.from span.ticks) (pieces P.Ordinate.kind P.Distance.measure R.Reduction.rule accuracy.tolerance (accuracy.depth - part.cell.depth) (piece part.cell (take row work.old))) (O.Outlet.contents outlet.old) }
    ensures { O.Outlet.contents outlet.new ≡ handed (piece_leg P.Ordinate.kind R.Reduction.rule span.from span.ticks) (pieces P.Ordinate.kind P.Distance.measure R.Reduction.rule accuracy.tolerance (accuracy.depth - part.cell.depth) (piece part.cell (take row work.old))) (O.Outlet.contents outlet.old) }
{
    let here = Drawn::<P, R> {
        points: &work[..row],
        accuracy,
        reduction: PhantomData,
    };
    if here.passes(part.cell) {
        let _ = outlet.put(&here.leg(part.cell, span));
        return;
    }
    if part.cell.depth == accuracy.depth() {
        return;
    }
    split(work, row);
    let (left, right) = part.halves();
    put_row::<P, R, O>(&mut work[row..], row, left, accuracy, span, outlet);
    put_row::<P, R, O>(work, row, right, accuracy, span, outlet);
}
