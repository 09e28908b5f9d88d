//! Writing a whole list of legs as a card.
ghost use Rattle.std.specs.Prelude.{◌≡◌, ℕ, ◌≤◌, List, length, None as Nothing, Ok as Done, MatchResult, OnOk};
ghost use Rattle.leg.specs.Chains.{Chained};
ghost use Rattle.leg.specs.Reasons.{First};
ghost use Rattle.card.specs.Cards.{Carries, reasons, capacity as the_capacity};
ghost use Rattle.card_writer.specs.Outlet.{Fit, Refuses, started, written};

use crate::card_outlet::{add_record, begin};
use card::header::capacity;
use leg::leg::Leg;
use ordinate::kind::Ordinate;
use outlet::put_refusal::PutRefusal;

/// The first leg of a list that a card does not take, and why.
#[derive(Clone, Copy, PartialEq, Eq, Debug)]
pub struct WriteRefusal {
    /// Its place in the list.
    pub leg: usize,
    pub why: PutRefusal,
}

/// Whether a card with this capacity takes all the legs.
fn check_legs<P: Ordinate>(legs: &[Leg<P>], capacity: usize) -> Result<(), WriteRefusal>
    ensures { MatchResult result (λ _. Fit P.kind capacity legs.now) (λ e. Refuses P.kind capacity legs.now e.leg e.why) }
{
    for (i, leg) in legs.iter().enumerate() {
        if !leg.is_leg() {
            return Err(WriteRefusal {
                leg: i,
                why: PutRefusal::NoLeg,
            });
        }
        if i >= capacity {
            return Err(WriteRefusal {
                leg: i,
                why: PutRefusal::Full,
            });
        }
    }
    Ok(())
}

/// Puts the legs on a started card that takes them all.
fn put_legs<P: Ordinate>(octets: &mut [u8], legs: &[Leg<P>])
    requires start { octets.old ≡ started P.kind (length octets.old) }
    requires fit { Fit P.kind (the_capacity P.kind (length octets.old)) legs.now }
    ensures { octets.new ≡ written P.kind legs.now (length octets.old) }
{
    for (i, leg) in legs.iter().enumerate() {
        add_record(octets, i, leg);
    }
}

/// Makes the octets a card of these legs. A refusal comes before any octet is written.
pub fn write<P: Ordinate>(legs: &[Leg<P>], card: &mut [u8]) -> Result<(), WriteRefusal>
    ensures answer { MatchResult result
        (λ _. Fit P.kind (the_capacity P.kind (length card.old)) legs.now)
        (λ e. Refuses P.kind (the_capacity P.kind (length card.old)) legs.now e.leg e.why) }
    ensures octets { MatchResult result
        (λ _. card.new ≡ written P.kind legs.now (length card.old))
        (λ _. card.new ≡ card.old) }
    ensures reads_back { OnOk result (8 ≤ length card.old → Chained legs.now → Carries P.kind card.new legs.now × First (reasons P.kind card.new) Nothing) }
    ensures same_octets { (xs : List ℕ) → length xs ≡ length card.old → Carries P.kind xs legs.now → (result ≡ Done tt) × (card.new ≡ xs) }
{
    check_legs(legs, capacity::<P>(card.len()))?;
    begin::<P>(card);
    put_legs(card, legs);
    Ok(())
}
