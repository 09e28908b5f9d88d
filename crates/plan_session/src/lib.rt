//! Sessions: a turn typed line by line, and what each line is answered.
#![tactic(auto)]

pub mod any_making;
pub mod calls;
pub mod hear;
pub mod listing;
pub mod making;
mod points;
pub mod promise;
pub mod reply;
pub mod session;
pub mod stage;
pub mod text;
pub mod to_card;
