//! What a flow card tells at a tick.
ghost use Rattle.std.specs.Prelude.{List, IfOk, Some as Just};
ghost use Rattle.ordinate.specs.Flows.{flow};
ghost use Rattle.ordinate.specs.declared.flow.Flow.{Flow as FlowT};
ghost use Rattle.leg.specs.Values.{FirstTells};
ghost use Rattle.leg.specs.declared.leg.Leg.{Leg as LegT};
ghost use Rattle.leg.specs.Reasons.{First, refusal};
ghost use Rattle.card.specs.Cards.{Carries};
ghost use Rattle.card.specs.Answers.{value_reasons};

use crate::refusal::Refusal;
use crate::walk::fold_card;
use ordinate::flow::Flow;

/// The exact value of the first leg that covers the tick, rounded down.
pub fn value(card: &[u8], tick: u32) -> Result<Flow, Refusal>
    ensures answer { First (value_reasons card.now tick) (refusal result) }
    ensures told { IfOk result (λ v. (ls : List (LegT FlowT)) × Carries flow card.now ls × FirstTells ls tick (Just v)) }
{
    let told = fold_card::<Flow, _, _>(card, None, |told, leg| {
        told.or_else(|| leg.value_at(tick))
    })?;
    told.ok_or(Refusal::PastLastLeg)
}
