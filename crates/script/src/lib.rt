//! Scripts for the programs that the tests work: how one is read and worked by a player, the words of a line, the outlets that are started, and what is shown of them.
#![tactic(auto)]

pub mod input;
pub mod player;
pub mod shown;
pub mod start;
pub mod words;
pub mod work;
