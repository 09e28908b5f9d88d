//! Cards of any kind: each is read as one of the kind that its first octet names.
ghost use Rattle.std.specs.Prelude.{◌≡◌, IfOk, slice_index};
ghost use Rattle.leg.specs.Reasons.{refusal};
ghost use Rattle.card.specs.Answers.{AnyRefusal, AnyCarries, read_refusal};

use crate::read::{check, read};
use crate::refusal::{ReadError, Refusal};
use leg::leg::Leg;
use ordinate::branches::Branches;
use ordinate::flow::Flow;
use ordinate::kind::Ordinate;
use std::alloc::Global;

/// The legs of a card, by its kind.
#[derive(Drop)]
pub enum AnyLegs {
    OfFlow(Vec<Leg<Flow>>),
    OfBox(Vec<Leg<Branches>>),
}

/// The octet that names a card's kind; 0, which names none, where there is no octet. It stays a number, since it may name no kind.
fn code_of(card: &[u8]) -> u8
    ensures { result ≡ slice_index card.now 0 }
{
    card.first().copied().unwrap_or(0)
}

/// Whether a card of any kind is accepted.
pub fn check_any(card: &[u8]) -> Result<(), Refusal>
    ensures { AnyRefusal card.now (refusal result) }
{
    if code_of(card) == Flow::code() {
        return check::<Flow>(card);
    }
    check::<Branches>(card)
}

/// The legs that a card of any kind carries.
// The switch of `check_any` once more, since it comes to another result.
pub fn read_any(heap: Global, card: &[u8]) -> Result<AnyLegs, ReadError>
    ensures answer { AnyRefusal card.now (read_refusal result) }
    ensures legs { IfOk result (λ v. AnyCarries card.now v) }
{
    if code_of(card) == Flow::code() {
        return Ok(AnyLegs::OfFlow(read::<Flow>(heap, card)?));
    }
    Ok(AnyLegs::OfBox(read::<Branches>(heap, card)?))
}
