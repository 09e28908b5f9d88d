//! Writing cards: the card as an outlet, and a whole list of legs as a card.
#![tactic(auto)]

pub mod card_outlet;
pub mod write;
