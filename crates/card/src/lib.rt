//! The card: the legs of a turn as octets, and the reader that a gate drive uses without the planner.
#![tactic(auto)]

pub mod any;
pub mod header;
pub mod octets;
pub mod place;
pub mod read;
pub mod record;
pub mod refusal;
pub mod value;
mod walk;
