//! Reading a card: its records once, in order, and each leg as soon as it is read given to a step of the caller's.
ghost use Rattle.std.specs.Prelude.{◌≡◌, List, length, None as Nothing, MatchResult};
ghost use Rattle.std.specs.List.{FoldsTo};
ghost use Rattle.leg.specs.Chains.{last_or};
ghost use Rattle.leg.specs.Reasons.{First, refusal};
ghost use Rattle.leg.specs.declared.leg.Leg.{Leg as LegT};
ghost use Rattle.card.specs.Cards.{Carries, Reads, Stops, reasons};

use crate::header::read_header;
use crate::octets::first_set;
use crate::place::{place_of, record_octets};
use crate::record::read_record;
use crate::refusal::Refusal;
use leg::chain::Chain;
use leg::leg::Leg;
use ordinate::kind::Ordinate;

/// The chain of all the records, and what the steps over their legs come to; or the first record that does not go on the chain.
fn fold_records<P: Ordinate, A: Drop, F: Fn(A, Leg<P>) -> A>(
    card: &[u8],
    count: usize,
    start: A,
    step: F,
) -> Result<(Chain<P>, A), Refusal>
    requires { F.IsAlwaysCallable step }
    ensures { MatchResult result
        (λ done. (ls : List (LegT P)) × Reads P.kind card.now 0 Nothing ls × (length ls ≡ count) × (done.0.last ≡ last_or Nothing ls) × FoldsTo (λ a l b. F.post step a l b) start ls done.1)
        (λ f. Stops P.kind card.now count f) }
{
    let mut chain = Chain::new();
    let mut folded = start;
    // by place: a refusal names the record's
    for i in 0..count {
        let Some(leg) = read_record::<P>(record_octets::<P>(card, i)) else {
            return Err(Refusal::NoLeg(i));
        };
        if !chain.take(&leg) {
            return Err(Refusal::BrokenChain(i));
        }
        folded = step(folded, leg);
    }
    Ok((chain, folded))
}

/// Reads the whole card as one of this kind, and answers what the steps over its legs come to.
pub(crate) fn fold_card<P: Ordinate, A: Drop, F: Fn(A, Leg<P>) -> A>(
    card: &[u8],
    start: A,
    step: F,
) -> Result<A, Refusal>
    requires { F.IsAlwaysCallable step }
    ensures answer { First (reasons P.kind card.now) (refusal result) }
    ensures legs { MatchResult result
        (λ folded. (ls : List (LegT P)) × Carries P.kind card.now ls × FoldsTo (λ a l b. F.post step a l b) start ls folded)
        (λ _. (ls : List (LegT P)) → Carries P.kind card.now ls → ⊥) }
{
    let count = read_header::<P>(card)?;
    let (chain, folded) = fold_records(card, count, start, step)?;
    if !chain.is_closed() {
        return Err(Refusal::BrokenChain(count));
    }
    let (_, rest) = card.split_at(place_of::<P>(card, count));
    match first_set(rest) {
        Some(_) => Err(Refusal::TrailingOctet),
        None => Ok(folded),
    }
}
