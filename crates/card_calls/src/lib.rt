//! The calls of a gate drive's own program in C; include/zarhatch.h declares them.
#![tactic(auto)]

ghost use Rattle.std.specs.Prelude.{◌≡◌, length, MatchResult};
ghost use Rattle.leg.specs.Reasons.{First, refusal};
ghost use Rattle.card_calls.specs.Calls.{answered, CheckCall, ValueCall, Told, told_reasons};

use card::any::check_any;
use card::refusal::Refusal;
use card::value::value;
use ordinate::kind::Ordinate;

// A number: what is called from C answers none of our types.
fn answer(r: Result<(), Refusal>) -> u32
    ensures { result ≡ answered (refusal r) }
{
    match r {
        Ok(()) => 0,
        Err(refusal) => refusal.number(),
    }
}

#[unsafe(no_mangle)]
pub extern "C" fn zarhatch_card_check(card: &[u8]) -> u32
    ensures { CheckCall card.now result }
{
    answer(check_any(card))
}

/// Writes the value at the tick to the first eight octets of `into`.
fn tell(card: &[u8], tick: u32, into: &mut [u8]) -> Result<(), Refusal>
    ensures answer { First (told_reasons card.now tick (length into.old)) (refusal result) }
    ensures written { MatchResult result (λ _. Told card.now tick into.old into.new) (λ _. into.new ≡ into.old) }
{
    if into.len() < 8 {
        return Err(Refusal::ShortResult);
    }
    let told = value(card, tick)?;
    let octets = told.octets(0);
    into[0..8].copy_from_slice(&octets);
    Ok(())
}

#[unsafe(no_mangle)]
pub extern "C" fn zarhatch_card_value(card: &[u8], tick: u32, into: &mut [u8]) -> u32
    ensures { ValueCall card.now tick into.old result into.new }
{
    answer(tell(card, tick, into))
}
