//! How far a session has come, and what a form does there.
ghost use Rattle.std.specs.Prelude.{◌≡◌, IfOk, IfErr};
ghost use Rattle.plan_text.specs.Forms.{form_of as the_form};
ghost use Rattle.plan_session.specs.declared.stage.Stage.TheVariants.{Waiting};
ghost use Rattle.plan_session.specs.Makings.{Judged, begin_refusal};
ghost use Rattle.plan_session.specs.Sessions.{FirstHears, HearsForm, begun_by, measure_of, state_of};

use crate::any_making::AnyMaking;
use crate::making::BeginError;
use crate::reply::Reply;
use ordinate::branches::Branches;
use ordinate::flow::Flow;
use plan_text::form::{Form, Kind, TurnForm};
use std::alloc::{AllocError, Global};

/// Three stages, each by its own name: an option of the other two would not say what is waited for.
#[derive(Drop)]
pub enum Stage {
    /// No turn has been accepted yet.
    Waiting,
    Flow(AnyMaking<Flow>),
    Box(AnyMaking<Branches>),
}

/// A form where no turn has been accepted: only a turn is in its place, and a turn that is refused leaves none.
fn begin_turn(alloc: Global, form: &Form) -> (Stage, Result<Reply, AllocError>)
    ensures hears { IfOk result.1 (λ r. FirstHears (the_form form.now) r (state_of result.0)) }
    ensures failed { IfErr result.1 (λ _. result.0 ≡ Waiting) }
{
    let Form::Turn(turn) = form else {
        return (Stage::Waiting, Ok(Reply::out_of_place()));
    };
    match Stage::begin(alloc, *turn) {
        Ok(stage) => (stage, Ok(Reply::Silent)),
        Err(BeginError::Refused(refusal)) => {
            (Stage::Waiting, Ok(Reply::Refused(refusal.into())))
        }
        Err(BeginError::NoMemory(error)) => (Stage::Waiting, Err(error)),
    }
}

impl Stage {
    /// Begins a turn in points of the kind that its form asks for.
    fn begin(alloc: Global, form: TurnForm) -> Result<Stage, BeginError>
        ensures first { Judged (measure_of form.kind) form (begin_refusal result) }
        ensures begun { IfOk result (λ s. state_of s ≡ begun_by form.kind form) }
    {
        match form.kind {
            Kind::Flow => Ok(Stage::Flow(AnyMaking::begin(alloc, form)?)),
            Kind::Box => Ok(Stage::Box(AnyMaking::begin(alloc, form)?)),
        }
    }

    /// What the form is answered, and the stage behind it. Where memory is wanting the stage stays.
    pub(crate) fn hear(self, alloc: Global, form: &Form) -> (Stage, Result<Reply, AllocError>)
        ensures hears { IfOk result.1 (λ r. HearsForm (state_of self) (the_form form.now) r (state_of result.0)) }
        ensures failed { IfErr result.1 (λ _. result.0 ≡ self) }
    {
        match self {
            Stage::Waiting => begin_turn(alloc, form),
            Stage::Flow(making) => {
                let (making, reply) = making.hear(alloc, form);
                (Stage::Flow(making), reply)
            }
            Stage::Box(making) => {
                let (making, reply) = making.hear(alloc, form);
                (Stage::Box(making), reply)
            }
        }
    }
}
