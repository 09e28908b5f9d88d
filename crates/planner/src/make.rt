//! One call on a draft, made from its data.
ghost use Rattle.std.specs.Prelude.{◌≡◌, ◌∷◌, length, Err as No};
ghost use Rattle.turn.specs.Calls.{History, call_of};
ghost use Rattle.turn.specs.Outcomes.{Outcome};
ghost use Rattle.turn.specs.Whole.{Whole};
ghost use Rattle.planner.specs.Drafts.{answer as the_answer, progress, setting};
ghost use Rattle.planner.specs.Runs.{TurnIs, TurnKeeps, as_turn, lent, turn_left, turn_progress, work_after};
ghost use Rattle.planner.specs.declared.run.Turn.TheVariants.{Draft as StillDraft, Sealed as NowSealed};

use crate::draft::{Draft, Refused};
use crate::run::Turn;
use crate::sealed::Sealed;
use bezier::reduction::Reduction;
use distance::measure::Distance;
use outlet::outlet::Outlet;
use turn::call::Call;
use turn::refusal::Refusal;

// Each answer is built where the call's result is matched, and in the caller's own code: the draft is then copied no more often than the call itself does.

/// The turn after a refused call, and what it is answered.
#[inline(always)]
fn handed_back<P, R>(refused: Refused<P, R>) -> (Turn<P, R>, Result<(), Refusal>)
    ensures { result ≡ (StillDraft refused.draft, No refused.refusal) }
{
    (Turn::Draft(refused.draft), Err(refused.refusal))
}

/// The turn after a lay or a strike, and what it is answered.
#[inline(always)]
fn open<P, R>(made: Result<Draft<P, R>, Refused<P, R>>) -> (Turn<P, R>, Result<(), Refusal>)
    ensures { result ≡ (turn_left (as_turn StillDraft made), the_answer (as_turn StillDraft made)) }
{
    match made {
        Ok(draft) => (Turn::Draft(draft), Ok(())),
        Err(refused) => handed_back(refused),
    }
}

/// The turn after a seal, and what it is answered.
#[inline(always)]
fn closed<P, R>(made: Result<Sealed<P, R>, Refused<P, R>>) -> (Turn<P, R>, Result<(), Refusal>)
    ensures { result ≡ (turn_left (as_turn NowSealed made), the_answer (as_turn NowSealed made)) }
{
    match made {
        Ok(sealed) => (Turn::Sealed(sealed), Ok(())),
        Err(refused) => handed_back(refused),
    }
}

impl<P: Distance, R: Reduction<P>> Draft<P, R> {
    /// Makes the call: the turn as it is then, and the answer. A lay uses the first of the lent work points, as many as the call says, or all where there are fewer.
    #[inline(always)]
    pub fn make<O: Outlet<P>>(
        self,
        outlet: &mut O,
        call: &Call<'_, P>,
        work: &mut [P],
    ) -> (Turn<P, R>, Result<(), Refusal>)
        ensures outcome { Outcome (setting P.Ordinate.kind P.Distance.measure R.Reduction.rule self) (lent (length work.old) (call_of call.now)) (progress self) (O.Outlet.contents outlet.old) result.1 (turn_progress result.0) (O.Outlet.contents outlet.new) }
        ensures keeps { (h : History P) → Whole (setting P.Ordinate.kind P.Distance.measure R.Reduction.rule self) h (progress self) (O.Outlet.contents outlet.old)
            → Whole (setting P.Ordinate.kind P.Distance.measure R.Reduction.rule self) ((lent (length work.old) (call_of call.now), result.1) ∷ h) (turn_progress result.0) (O.Outlet.contents outlet.new) }
        ensures sealed { TurnIs (call_of call.now) result.1 result.0 }
        ensures same { TurnKeeps self result.1 result.0 }
        ensures work { work.new ≡ work_after P.Ordinate.kind P.Distance.measure R.Reduction.rule self.accuracy.depth (call_of call.now) result.1 work.old }
    {
        match call {
            Call::Lay {
                points,
                ticks,
                work: most,
            } => {
                let used = work.len().min(*most);
                open(self.lay::<O>(outlet, points, *ticks, &mut work[..used]))
            }
            Call::Strike => open(self.strike::<O>(outlet)),
            Call::Seal => closed(self.seal::<O>(outlet)),
        }
    }
}
