//! The legs of a card.
ghost use Rattle.std.specs.Prelude.{◌≡◌, List, IfOk, None as Nothing, Option, OnOk};
ghost use Rattle.leg.specs.Chains.{Seamless, stretches};
ghost use Rattle.leg.specs.declared.leg.Leg.{Leg as LegT};
ghost use Rattle.leg.specs.Reasons.{First, refusal};
ghost use Rattle.card.specs.Cards.{Carries, reasons};
ghost use Rattle.card.specs.Answers.{Kept, read_refusal};
ghost use Rattle.card.specs.declared.refusal.Refusal.{Refusal as RefusalT};

use crate::refusal::{ReadError, Refusal};
use crate::walk::fold_card;
use leg::leg::Leg;
use ordinate::kind::Ordinate;
use std::alloc::{AllocError, Global};

/// Whether a card of this kind is accepted.
pub fn check<P: Ordinate>(card: &[u8]) -> Result<(), Refusal>
    ensures answer { First (reasons P.kind card.now) (refusal result) }
    ensures legs { OnOk result ((ls : List (LegT P)) × Carries P.kind card.now ls) }
    ensures exactly { (ls : List (LegT P)) → Carries P.kind card.now ls → refusal result ≡ Nothing }
{
    fold_card::<P, _, _>(card, (), |_, _| ())
}

/// The legs kept before and one more, while there is memory for them.
fn keep<P: Ordinate>(
    legs: Result<Vec<Leg<P>>, AllocError>,
    leg: Leg<P>,
) -> Result<Vec<Leg<P>>, AllocError>
    ensures { Kept legs leg result }
{
    let mut legs = legs?;
    legs.push(leg)?;
    Ok(legs)
}

/// The legs that a card of this kind carries.
pub fn read<P: Ordinate>(heap: Global, card: &[u8]) -> Result<Vec<Leg<P>>, ReadError>
    ensures answer { First (reasons P.kind card.now) (read_refusal result) }
    ensures legs { IfOk result (λ v. Carries P.kind card.now v.items) }
    ensures exactly { (ls : List (LegT P)) → Carries P.kind card.now ls → read_refusal result ≡ Nothing }
    ensures only { (ls ms : List (LegT P)) → Carries P.kind card.now ls → Carries P.kind card.now ms → ls ≡ ms }
    ensures one { (a b : Option RefusalT) → First (reasons P.kind card.now) a → First (reasons P.kind card.now) b → a ≡ b }
    ensures seamless { IfOk result (λ v. Seamless Nothing (stretches v.items)) }
{
    let legs = fold_card(card, Ok(Vec::new(heap)), keep::<P>)?;
    Ok(legs?)
}
