//! Where the records of a card stand.
ghost use Rattle.std.specs.Prelude.{◌≡◌, ◌+◌, ◌*◌, min, length};
ghost use Rattle.card.specs.Records.{record_length};
ghost use Rattle.card.specs.Cards.{record_at};

use crate::header::HEADER;
use crate::record::length_of_record;
use ordinate::kind::Ordinate;

/// How many octets a card of so many records has, with none behind them; the largest number where it would have more.
pub fn length_of_card<P: Ordinate>(records: usize) -> usize
    ensures { result ≡ min (8 + record_length P.kind * records) 18446744073709551615 }
{
    let octets = length_of_record::<P>().saturating_mul(records);
    octets.saturating_add(HEADER)
}

/// Where record `i` begins, and the one before it ends; the end of the card, where that is past it.
pub fn place_of<P: Ordinate>(card: &[u8], i: usize) -> usize
    ensures { result ≡ min (8 + record_length P.kind * i) (length card.now) }
{
    length_of_card::<P>(i).min(card.len())
}

/// The octets of record `i`, as many of them as the card has.
pub fn record_octets<P: Ordinate>(card: &[u8], i: usize) -> &[u8]
    ensures { result.now ≡ record_at P.kind card.now i }
{
    let from = place_of::<P>(card, i);
    let to = from.saturating_add(length_of_record::<P>()).min(card.len());
    &card[from..to]
}
