//! A flow is typed as one number.
ghost use Rattle.plan_text.specs.Laws.Notations.{flow_same, flow_few};
ghost use Rattle.plan_text.specs.declared.form.At.TheVariants.{One};

use crate::form::At;
use crate::notation::Notation;
use ordinate::flow::Flow;

impl Notation for Flow {
    ghost at = { λ p. One p.value };

    fn to_at(self) -> At {
        At::One(self.value)
    }

    fn from_at(numbers: At) -> Option<Flow> {
        match numbers {
            At::One(value) => Some(Flow { value }),
            At::Two(_, _) => None,
        }
    }

    ghost same = { flow_same };

    ghost few = { flow_few };
}
