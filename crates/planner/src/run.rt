//! Lists of calls, performed one after another.
ghost use Rattle.std.specs.Prelude.{◌≡◌, ◌≤◌, [], IfOk, IfErr, length, vec_capacity, Some as Just};
ghost use Rattle.leg.specs.Reasons.{First};
ghost use Rattle.turn.specs.Calls.{begun, calls_of};
ghost use Rattle.turn.specs.Runs.{Performed, recorded};
ghost use Rattle.turn.specs.Whole.{Whole};
ghost use Rattle.planner.specs.Drafts.{begin_reasons, progress, setting};
ghost use Rattle.planner.specs.declared.run.RunError.TheVariants.{NoMemory as NoRoom, Refused as TermsRefused};
ghost use Rattle.planner.specs.Runs.{TurnAfter, agreed, first_refusal, printed_error, turn_progress};

use crate::begin::{Terms, begin};
use crate::draft::Draft;
use crate::sealed::Sealed;
use bezier::reduction::Reduction;
use curve::limits::MOST_WORK;
use distance::measure::Distance;
use outlet::outlet::Outlet;
use std::alloc::{AllocError, Global};
use std::error::Error;
use std::fmt;
use turn::call::Call;
use turn::refusal::Refusal;

/// A turn after a list of calls.
#[derive(Drop)]
pub enum Turn<P, R> {
    Draft(Draft<P, R>),
    Sealed(Sealed<P, R>),
}

/// What became of a list of calls: an answer for each that was made, and the turn.
#[derive(Drop)]
pub struct Course<P, R> {
    pub answers: Vec<Result<(), Refusal>>,
    pub turn: Turn<P, R>,
}

/// Why no call was made at all.
#[derive(Clone, Copy, PartialEq, Eq, Debug)]
pub enum RunError {
    /// The terms are refused.
    Refused(Refusal),
    /// There is not enough memory for the answers and the work points.
    NoMemory,
}

/// As in `begin refused 3: the agreed end is not from 1 to 65536`.
impl fmt::Display for RunError {
    ghost output = { λ e. Just (printed_error e) };

    fn fmt<W: fmt::Write>(&self, f: &mut fmt::Formatter<W>) -> fmt::Result {
        match self {
            Self::Refused(refusal) => write!(f, "begin {refusal}"),
            Self::NoMemory => write!(f, "out of memory"),
        }
    }
}

impl Error for RunError {}

impl From<Refusal> for RunError {
    ghost from_gives = { λ refusal error. error ≡ TermsRefused refusal };

    fn from(refusal: Refusal) -> RunError {
        RunError::Refused(refusal)
    }
}

impl From<AllocError> for RunError {
    ghost from_gives = { λ _ error. error ≡ NoRoom };

    fn from(_error: AllocError) -> RunError {
        RunError::NoMemory
    }
}

/// Makes the calls in order, up to the first accepted seal.
fn perform_all<P: Distance, R: Reduction<P>, O: Outlet<P>>(
    mut draft: Draft<P, R>,
    outlet: &mut O,
    calls: &[Call<'_, P>],
    room: &mut [P],
    mut answers: Vec<Result<(), Refusal>>,
) -> Course<P, R>
    requires work { 99 ≤ length room.old }
    requires none { answers.items ≡ [] }
    requires enough { length calls.now ≤ vec_capacity answers }
    ensures performed { Performed (setting P.Ordinate.kind P.Distance.measure R.Reduction.rule draft) (calls_of calls.now) result.answers.items (progress draft) (O.Outlet.contents outlet.old) (turn_progress result.turn) (O.Outlet.contents outlet.new) }
    ensures turn { TurnAfter (recorded [] (calls_of calls.now) result.answers.items) result.turn }
{
    for call in calls {
        let (turn, answer) = draft.make::<O>(outlet, call, room);
        answers.push_reserved(answer);
        match turn {
            Turn::Draft(next) => draft = next,
            Turn::Sealed(sealed) => {
                return Course {
                    answers,
                    turn: Turn::Sealed(sealed),
                };
            }
        }
    }
    Course {
        answers,
        turn: Turn::Draft(draft),
    }
}

/// Begins a draft by these terms over an outlet, and makes the calls in order, up to the first accepted seal: an answer for each that is made.
/// The memory for all answers is had before the first call.
pub fn run<P: Distance, R: Reduction<P>, O: Outlet<P>>(
    heap: Global,
    terms: Terms,
    outlet: &mut O,
    calls: &[Call<'_, P>],
) -> Result<Course<P, R>, RunError>
    ensures first { First (begin_reasons P.Distance.measure terms) (first_refusal result) }
    ensures untouched { IfErr result (λ _. O.Outlet.contents outlet.new ≡ O.Outlet.contents outlet.old) }
    ensures performed { IfOk result (λ r. Performed (agreed P.Ordinate.kind P.Distance.measure R.Reduction.rule terms) (calls_of calls.now) r.answers.items begun (O.Outlet.contents outlet.old) (turn_progress r.turn) (O.Outlet.contents outlet.new)) }
    ensures turn { IfOk result (λ r. TurnAfter (recorded [] (calls_of calls.now) r.answers.items) r.turn) }
    ensures whole { IfOk result (λ r. (O.Outlet.contents outlet.old).legs ≡ [] → Whole (agreed P.Ordinate.kind P.Distance.measure R.Reduction.rule terms) (recorded [] (calls_of calls.now) r.answers.items) (turn_progress r.turn) (O.Outlet.contents outlet.new)) }
{
    let draft = begin::<P, R>(terms)?;
    let answers = Vec::with_capacity(heap, calls.len())?;
    let mut room = vec![in heap; P::zero(); MOST_WORK]?;
    Ok(perform_all::<P, R, O>(draft, outlet, calls, &mut room, answers))
}
