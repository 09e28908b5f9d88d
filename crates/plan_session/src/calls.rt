//! The calls that forms stand for, made on a turn.
ghost use Rattle.std.specs.Prelude.{◌≡◌, IfOk};
ghost use Rattle.turn.specs.Calls.{call_of};
ghost use Rattle.planner.specs.Runs.{agreed, lent};
ghost use Rattle.plan_session.specs.Makings.{AnswersOpen, Judged, begin_refusal, fresh, is_sealed as sealed_turn, made, reply_to as the_reply, terms_of as the_terms};

use crate::making::{BeginError, Making};
use crate::reply::Reply;
use bezier::reduction::Reduction;
use curve::limits::MOST_WORK;
use distance::measure::Distance;
use ordinate::kind::Ordinate;
use outlet::outlet::Outlet;
use outlet::table::RecordTable;
use plan_text::form::TurnForm;
use plan_text::notation::Notation;
use planner::begin::{Terms, begin};
use planner::run::Turn;
use std::alloc::Global;
use turn::call::Call;
use turn::refusal::Refusal;

/// How many legs a turn may have.
pub const MOST_LEGS: usize = 512;

// No `From`: both types are of other crates.
fn terms_of(form: TurnForm) -> Terms
    ensures { result ≡ the_terms form }
{
    Terms {
        tolerance: form.within,
        depth: form.depth,
        end: form.ticks,
    }
}

/// What a line is answered whose call is answered so, where the turn has so many legs and this last tick.
fn reply_to<P>(call: &Call<'_, P>, answer: Result<(), Refusal>, legs: usize, end: u32) -> Reply
    ensures { result ≡ the_reply legs end (call_of call.now) answer }
{
    match answer {
        Err(refusal) => Reply::Refused(refusal.into()),
        Ok(()) => match call {
            Call::Seal => Reply::Sealed { legs, ticks: end },
            _ => Reply::Silent,
        },
    }
}

impl<P: Distance + Notation, R: Reduction<P>> Making<P, R> {
    /// Begins a turn by its form, with an empty table. The terms are looked at before memory is asked for.
    pub fn begin(alloc: Global, form: TurnForm) -> Result<Making<P, R>, BeginError>
        ensures first { Judged P.Distance.measure form (begin_refusal result) }
        ensures begun { IfOk result (λ m. made P.Ordinate.kind P.Distance.measure R.Reduction.rule m ≡ fresh (agreed P.Ordinate.kind P.Distance.measure R.Reduction.rule (the_terms form))) }
    {
        let terms = terms_of(form);
        let draft = begin::<P, R>(terms)?;
        Ok(Making {
            terms,
            end: terms.end as u32,
            turn: Turn::Draft(draft),
            table: RecordTable::start(alloc, MOST_LEGS)?,
            work: vec![in alloc; P::zero(); MOST_WORK]?,
        })
    }

    pub(crate) fn is_sealed(&self) -> bool
        ensures { result ≡ sealed_turn self.now.turn }
    {
        matches!(&self.turn, Turn::Sealed(_))
    }

    /// Makes the call, where the turn is not sealed: what its line is answered, and the making behind it.
    pub(crate) fn make(self, call: &Call<'_, P>) -> (Making<P, R>, Reply)
        ensures { AnswersOpen (made P.Ordinate.kind P.Distance.measure R.Reduction.rule self) (lent 99 (call_of call.now)) result.1 (made P.Ordinate.kind P.Distance.measure R.Reduction.rule result.0) }
    {
        // Taken apart, since the table and the work points are lent in one call.
        let Making {
            terms,
            end,
            turn,
            mut table,
            mut work,
        } = self;
        let draft = match turn {
            Turn::Draft(draft) => draft,
            Turn::Sealed(sealed) => {
                let making = Making {
                    terms,
                    end,
                    turn: Turn::Sealed(sealed),
                    table,
                    work,
                };
                return (making, Reply::out_of_place());
            }
        };
        let (turn, answer) = draft.make(&mut table, call, work.as_mut_slice());
        let reply = reply_to(call, answer, table.count(), end);
        let making = Making {
            terms,
            end,
            turn,
            table,
            work,
        };
        (making, reply)
    }
}
