//! The points that a curve, or a cell of one, may be drawn by.
ghost use Rattle.std.specs.Prelude.{◌≡◌};
ghost use Rattle.curve.specs.Pieces.{piece, piece_leg, piece_passes};
ghost use Rattle.curve.specs.Refusals.{Drawable};

use crate::accuracy::Accuracy;
use crate::span::Span;
use bezier::reduction::Reduction;
use bezier::test::passes;
use distance::measure::Distance;
use leg::leg::{Cell, Leg, Stretch};
use std::marker::PhantomData;

/// As many points as the reduction `R` takes, none of them beyond the limit, and how closely legs are to follow them.
#[derive(Drop)]
pub(crate) struct Drawn<'a, P: Distance, R: Reduction<P>> {
    pub(crate) points: &'a [P],
    pub(crate) accuracy: Accuracy,
    pub(crate) reduction: PhantomData<R>,
    ghost drawable: { Drawable P.Ordinate.kind P.Distance.measure R.Reduction.rule points.now },
}

impl<'a, P: Distance, R: Reduction<P>> Drawn<'a, P, R> {
    /// Whether the cell, with these points, passes the control-point test.
    // Always in line, as the halving asks it of every cell.
    #[inline(always)]
    pub(crate) fn passes(&self, cell: Cell) -> bool
        ensures { result ≡ piece_passes P.Ordinate.kind P.Distance.measure R.Reduction.rule self.now.accuracy.tolerance (piece cell self.now.points.now) }
    {
        passes::<P, R>(self.points, self.accuracy.tolerance(), cell.depth)
    }

    /// The leg of the cell, with these points.
    pub(crate) fn leg(&self, cell: Cell, span: Span) -> Leg<P>
        ensures { result ≡ piece_leg P.Ordinate.kind R.Reduction.rule span.from span.ticks (piece cell self.now.points.now) }
    {
        Leg {
            stretch: Stretch {
                from: span.from(),
                ticks: span.ticks(),
                cell,
            },
            degree: u32::from(R::degree()),
            start: self.points[0],
            middle: R::middle(self.points),
            end: self.points[self.points.len() - 1],
        }
    }
}
