//! The header of a card.
ghost use Rattle.std.specs.Prelude.{◌≡◌, ◌<◌, ◌≤◌, ◌++◌, length, drop, Some as Just, MatchResult};
ghost use Rattle.std.proofs.Math.Seq.{paste};
ghost use Rattle.ordinate.specs.Octets.{be};
ghost use Rattle.leg.specs.Reasons.{First};
ghost use Rattle.card.specs.Cards.{front as the_front, capacity as the_capacity, listed as the_listed, Counts, header_reasons};

use crate::octets::{field, write_field};
use crate::record::length_of_record;
use crate::refusal::Refusal;
use ordinate::kind::Ordinate;

/// How many octets a header has.
pub const HEADER: usize = 8;

/// The only edition of the card format so far.
const EDITION: u8 = 1;

/// No card has more records than this.
const MOST_RECORDS: usize = 67_108_864;

/// How many records a card of this many octets has room for.
pub fn capacity<P: Ordinate>(octets: usize) -> usize
    ensures { result ≡ the_capacity P.kind octets }
{
    (octets.saturating_sub(HEADER) / length_of_record::<P>()).min(MOST_RECORDS)
}

/// What a card of this kind begins with: the kind, the edition and the record length.
fn front<P: Ordinate>() -> [u8; 4]
    ensures { result ≡ the_front P.kind }
{
    let [high, low] = (length_of_record::<P>() as u16).to_be_bytes();
    [P::code(), EDITION, high, low]
}

/// The number of records that the header says, which the card has room for; or the first refusal that the header gives.
pub(crate) fn read_header<P: Ordinate>(card: &[u8]) -> Result<usize, Refusal>
    ensures { MatchResult result (λ n. Counts P.kind card.now n) (λ f. First (header_reasons P.kind card.now) (Just f)) }
{
    if card.len() < HEADER {
        return Err(Refusal::ShortCard);
    }
    if !card.starts_with(&front::<P>()) {
        return Err(Refusal::WrongHeader);
    }
    let count = field(card, 4, 4) as usize;
    if count > capacity::<P>(card.len()) {
        return Err(Refusal::CountAboveCapacity);
    }
    Ok(count)
}

/// How many records the octets have, whatever the rest of their header says: as many as both the count and the length allow.
pub fn listed<P: Ordinate>(card: &[u8]) -> usize
    ensures { result ≡ the_listed P.kind card.now }
{
    if card.len() < HEADER {
        return 0;
    }
    let written = field(card, 4, 4) as usize;
    written.min(capacity::<P>(card.len()))
}

/// Writes the kind, the edition and the record length; octets too few for a header are left alone.
pub fn write_front<P: Ordinate>(card: &mut [u8])
    ensures long { 8 ≤ length card.old → card.new ≡ the_front P.kind ++ drop 4 card.old }
    ensures short { length card.old < 8 → card.new ≡ card.old }
{
    if card.len() >= HEADER {
        card[..4].copy_from_slice(&front::<P>());
    }
}

/// Writes the count; octets too few for a header are left alone.
pub fn write_count(card: &mut [u8], count: usize)
    ensures long { 8 ≤ length card.old → card.new ≡ paste card.old 4 (be 4 count) 4 }
    ensures short { length card.old < 8 → card.new ≡ card.old }
{
    if card.len() >= HEADER {
        write_field(card, 4, 4, count as u64);
    }
}
