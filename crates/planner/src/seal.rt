//! Sealing a draft.
ghost use Rattle.std.specs.Prelude.{◌∷◌};
ghost use Rattle.turn.specs.Calls.{History};
ghost use Rattle.turn.specs.Calls.Call.{seal as the_seal};
ghost use Rattle.turn.specs.Outcomes.{Outcome};
ghost use Rattle.turn.specs.Whole.{Whole};
ghost use Rattle.planner.specs.Drafts.{SealKeeps, answer, progress, seal_left, setting};

use crate::draft::{Draft, Refused};
use crate::sealed::Sealed;
use bezier::reduction::Reduction;
use distance::measure::Distance;
use outlet::outlet::Outlet;
use turn::refusal::Refusal;

impl<P: Distance, R: Reduction<P>> Draft<P, R> {
    /// Seals the draft: its making ends, if its legs reach the agreed end.
    pub fn seal<O: Outlet<P>>(self, outlet: &mut O) -> Result<Sealed<P, R>, Refused<P, R>>
        ensures outcome { Outcome (setting P.Ordinate.kind P.Distance.measure R.Reduction.rule self) the_seal (progress self) (O.Outlet.contents outlet.old) (answer result) (seal_left result) (O.Outlet.contents outlet.new) }
        ensures keeps { (h : History P) → Whole (setting P.Ordinate.kind P.Distance.measure R.Reduction.rule self) h (progress self) (O.Outlet.contents outlet.old)
            → Whole (setting P.Ordinate.kind P.Distance.measure R.Reduction.rule self) ((the_seal, answer result) ∷ h) (seal_left result) (O.Outlet.contents outlet.new) }
        ensures same { SealKeeps self result }
    {
        if outlet.count() != self.count {
            return Err(self.refused(Refusal::Foreign));
        }
        if self.laid < self.end {
            return Err(self.refused(Refusal::NotFull));
        }
        Ok(Sealed {
            end: self.end,
            count: self.count,
            laid: self.laid,
            last: self.last,
            reduction: self.reduction,
        })
    }
}
