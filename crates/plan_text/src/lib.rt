//! The plan text: what is typed for a turn, and the lines that are printed.
#![tactic(auto)]

pub mod branches;
pub mod flow;
pub mod form;
mod head;
mod items;
mod lexer;
pub mod lines;
pub mod notation;
pub mod parse;
pub mod print;
mod put;
pub mod refusal;
mod token;
pub mod word;
