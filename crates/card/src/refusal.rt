//! Why a card is not read, or a value not told.
ghost use Rattle.std.specs.Prelude.{◌≡◌, Some as Just};
ghost use Rattle.card.specs.Refusals.{printed, row, words as the_words};
ghost use Rattle.card.specs.declared.refusal.ReadError.TheVariants.{Refused, NoMemory};

use std::alloc::AllocError;
use std::fmt;

/// A record is named by its place, from 0. `row` (specs/Refusals.antt) has the numbers.
#[derive(Clone, Copy, PartialEq, Eq, Debug)]
pub enum Refusal {
    /// The tick is past the last leg, or the card has no leg.
    PastLastLeg,
    /// The result has fewer than eight octets.
    ShortResult,
    /// The card has fewer than eight octets.
    ShortCard,
    /// The kind, the edition or the record length is wrong.
    WrongHeader,
    /// The count is above the card's capacity.
    CountAboveCapacity,
    /// This record has a field that no leg has, or a spare octet that is not zero.
    NoLeg(usize),
    /// The leg in this record does not go on the chain; the place after the last record where the last span is left open.
    BrokenChain(usize),
    /// An octet after the last record is not zero.
    TrailingOctet,
}

/// Why the legs of a card are not had: the card is refused, or there is no memory for the legs of a card that is accepted.
#[derive(Clone, Copy, PartialEq, Eq, Debug)]
pub enum ReadError {
    Refused(Refusal),
    NoMemory,
}

impl From<Refusal> for ReadError {
    ghost from_gives = { λ f e. e ≡ Refused f };

    fn from(refusal: Refusal) -> ReadError {
        ReadError::Refused(refusal)
    }
}

impl From<AllocError> for ReadError {
    ghost from_gives = { λ _ e. e ≡ NoMemory };

    fn from(_: AllocError) -> ReadError {
        ReadError::NoMemory
    }
}

impl Refusal {
    /// The number by which the refusal goes.
    // a method, and no conversion: a refusal has a number, and may name a place besides
    pub fn number(self) -> u32
        ensures { result ≡ (row self).0 }
    {
        match self {
            Refusal::PastLastLeg => 16,
            Refusal::ShortResult => 18,
            Refusal::ShortCard => 21,
            Refusal::WrongHeader => 22,
            Refusal::CountAboveCapacity => 23,
            Refusal::NoLeg(_) => 24,
            Refusal::BrokenChain(_) => 25,
            Refusal::TrailingOctet => 26,
        }
    }

    /// The record that the refusal names, if it names one.
    pub fn record(self) -> Option<usize>
        ensures { result ≡ (row self).1 }
    {
        match self {
            Refusal::NoLeg(record) | Refusal::BrokenChain(record) => Some(record),
            _ => None,
        }
    }

    fn words(self) -> &'static str
        ensures { result.now ≡ the_words self }
    {
        match self {
            Refusal::PastLastLeg => "the tick is past the last leg, or the card has no leg",
            Refusal::ShortResult => "the result has fewer than eight octets",
            Refusal::ShortCard => "the card has fewer than eight octets",
            Refusal::WrongHeader => "the kind, the edition or the record length is wrong",
            Refusal::CountAboveCapacity => "the count is above the card's capacity",
            Refusal::NoLeg(_) => "a field that no leg has, or a spare octet that is not zero",
            Refusal::BrokenChain(_) => "the chain of legs is broken",
            Refusal::TrailingOctet => "an octet after the last record is not zero",
        }
    }
}

/// As in `refused 24 at record 3: a field that no leg has, or a spare octet that is not zero`.
impl fmt::Display for Refusal {
    ghost output = { λ f. Just (printed f) };

    fn fmt<W: fmt::Write>(&self, f: &mut fmt::Formatter<W>) -> fmt::Result {
        let number = self.number();
        let words = self.words();
        match self.record() {
            Some(record) => write!(f, "refused {number} at record {record}: {words}"),
            None => write!(f, "refused {number}: {words}"),
        }
    }
}
