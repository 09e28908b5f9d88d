//! What is counted over all texts of a round.
use crate::checksum::Checksum;
use plan_session::text::Planned;

#[derive(Clone, Copy, PartialEq, Eq)]
pub struct Totals {
    pub octets: u64,
    pub cards: u64,
    pub checksum: Checksum,
}

impl Totals {
    pub fn none() -> Totals {
        Totals {
            octets: 0,
            cards: 0,
            checksum: Checksum { value: 0 },
        }
    }

    /// Adds a text that was answered so.
    pub fn add(&mut self, planned: &Planned) {
        self.octets = self.octets.saturating_add(planned.printed.len() as u64);
        self.checksum.take_in_all(&planned.printed);
        if let Some(card) = &planned.card {
            self.cards = self.cards.saturating_add(1);
            self.checksum.take_in_all(card);
        }
    }
}
