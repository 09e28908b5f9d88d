//! A turn in the making, with the legs of either reduction.
ghost use Rattle.std.specs.Prelude.{◌≡◌, IfOk, IfErr};
ghost use Rattle.planner.specs.Runs.{agreed};
ghost use Rattle.plan_text.specs.Forms.{form_of as the_form};
ghost use Rattle.plan_session.specs.Makings.{Answers, Judged, LegShown, any_made, begin_refusal, fresh, rule_of, terms_of as the_terms};

use crate::making::{BeginError, Making};
use crate::reply::Reply;
use bezier::chord::Chord;
use bezier::matching::Matching;
use distance::measure::Distance;
use plan_text::form::{Form, Legs, TurnForm};
use plan_text::notation::Notation;
use plan_text::refusal::TextRefusal;
use std::alloc::{AllocError, Global};

/// A turn in points of the kind `P`, and with the legs that its form asks for.
#[derive(Drop)]
pub enum AnyMaking<P> {
    Chord(Making<P, Chord>),
    Matching(Making<P, Matching>),
}

impl<P: Distance + Notation> AnyMaking<P> {
    /// Begins a turn by its form, with an empty table.
    pub(crate) fn begin(alloc: Global, form: TurnForm) -> Result<AnyMaking<P>, BeginError>
        ensures first { Judged P.Distance.measure form (begin_refusal result) }
        ensures begun { IfOk result (λ m. any_made P.Ordinate.kind P.Distance.measure m ≡ fresh (agreed P.Ordinate.kind P.Distance.measure (rule_of P.Ordinate.kind form.legs) (the_terms form))) }
    {
        match form.legs {
            Legs::Chord => Ok(AnyMaking::Chord(Making::begin(alloc, form)?)),
            Legs::Matching => Ok(AnyMaking::Matching(Making::begin(alloc, form)?)),
        }
    }

    /// What the form is answered, and the making behind it. Where memory is wanting the making stays.
    pub(crate) fn hear(
        self,
        alloc: Global,
        form: &Form,
    ) -> (AnyMaking<P>, Result<Reply, AllocError>)
        ensures answers { IfOk result.1 (λ r. Answers P.Notation.at (any_made P.Ordinate.kind P.Distance.measure self) (the_form form.now) r (any_made P.Ordinate.kind P.Distance.measure result.0)) }
        ensures failed { IfErr result.1 (λ _. result.0 ≡ self) }
    {
        match self {
            AnyMaking::Chord(making) => {
                let (making, reply) = making.hear(alloc, form);
                (AnyMaking::Chord(making), reply)
            }
            AnyMaking::Matching(making) => {
                let (making, reply) = making.hear(alloc, form);
                (AnyMaking::Matching(making), reply)
            }
        }
    }

    pub(crate) fn is_sealed(&self) -> bool
        ensures { result ≡ (any_made P.Ordinate.kind P.Distance.measure self.now).sealed }
    {
        match self {
            AnyMaking::Chord(making) => making.is_sealed(),
            AnyMaking::Matching(making) => making.is_sealed(),
        }
    }

    /// Prints leg `i`, from 0; nothing where the turn is not sealed, or has no such leg.
    pub(crate) fn leg(&mut self, i: usize, buffer: &mut [u8]) -> Result<Option<usize>, TextRefusal>
        ensures shows { LegShown P.Ordinate.kind P.Notation.at (any_made P.Ordinate.kind P.Distance.measure self.old) i buffer.old result buffer.new }
        ensures same { self.new ≡ self.old }
    {
        match self {
            AnyMaking::Chord(making) => making.leg(i, buffer),
            AnyMaking::Matching(making) => making.leg(i, buffer),
        }
    }
}
