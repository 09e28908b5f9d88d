//! A turn that is being made by the forms of a plan text.
ghost use Rattle.std.specs.Prelude.{◌≡◌, length, pos};
ghost use Rattle.plan_session.specs.Agreed.{Agrees};
ghost use Rattle.plan_session.specs.declared.making.BeginError.TheVariants.{NoMemory as WantsMemory, Refused as RefusedFor};

use outlet::table::RecordTable;
use planner::begin::Terms;
use planner::run::Turn;
use std::alloc::AllocError;
use turn::refusal::Refusal;

/// A turn in points of the kind `P` and with the legs of the reduction `R`, with all the memory that its calls need.
#[derive(Drop)]
pub struct Making<P, R> {
    pub(crate) terms: Terms,
    /// The last tick of the turn, as agreed.
    pub(crate) end: u32,
    pub(crate) turn: Turn<P, R>,
    pub(crate) table: RecordTable<P>,
    pub(crate) work: Vec<P>,
    ghost agrees: { Agrees terms turn },
    ghost ended: { pos end ≡ terms.end },
    ghost room: { length work.items ≡ 99 },
}

/// Why no turn is begun.
// Unlike the planner's `RunError` it hands the `AllocError` on, since `Session::answer` answers it.
#[derive(Drop, Debug)]
pub enum BeginError {
    /// Its terms are refused.
    Refused(Refusal),
    /// There is not enough memory for its table and its work points.
    NoMemory(AllocError),
}

impl From<Refusal> for BeginError {
    ghost from_gives = { λ before after. after ≡ RefusedFor before };

    fn from(refusal: Refusal) -> BeginError {
        BeginError::Refused(refusal)
    }
}

impl From<AllocError> for BeginError {
    ghost from_gives = { λ before after. after ≡ WantsMemory before };

    fn from(error: AllocError) -> BeginError {
        BeginError::NoMemory(error)
    }
}
