//! What a form is answered while a turn is being made.
ghost use Rattle.std.specs.Prelude.{◌≡◌, IfOk, IfErr};
ghost use Rattle.plan_text.specs.Forms.{form_of as the_form};
ghost use Rattle.plan_session.specs.Makings.{Answers, made};

use crate::making::Making;
use crate::points::points_of;
use crate::reply::Reply;
use bezier::reduction::Reduction;
use curve::limits::MOST_WORK;
use distance::measure::Distance;
use plan_text::form::Form;
use plan_text::notation::Notation;
use std::alloc::{AllocError, Global};
use turn::call::Call;

impl<P: Distance + Notation, R: Reduction<P>> Making<P, R> {
    /// What the form is answered, and the making behind it. Where memory is wanting the making stays.
    pub fn hear(self, alloc: Global, form: &Form) -> (Making<P, R>, Result<Reply, AllocError>)
        ensures answers { IfOk result.1 (λ r. Answers P.Notation.at (made P.Ordinate.kind P.Distance.measure R.Reduction.rule self) (the_form form.now) r (made P.Ordinate.kind P.Distance.measure R.Reduction.rule result.0)) }
        ensures failed { IfErr result.1 (λ _. result.0 ≡ self) }
    {
        if self.is_sealed() {
            return (self, Ok(Reply::out_of_place()));
        }
        let (making, reply) = match form {
            Form::Turn(_) => return (self, Ok(Reply::out_of_place())),
            Form::Span(span) => match points_of::<P>(alloc, span.points.as_slice()) {
                Ok(Some(points)) => self.make(&Call::Lay {
                    points: points.as_slice(),
                    ticks: span.ticks,
                    work: MOST_WORK,
                }),
                Ok(None) => return (self, Ok(Reply::no_form())),
                Err(error) => return (self, Err(error)),
            },
            Form::Strike => self.make(&Call::Strike),
            Form::Seal => self.make(&Call::Seal),
        };
        (making, Ok(reply))
    }
}
