//! Whole numbers as text: decimal digits, behind a minus where the number is below zero.
#![tactic(auto)]

pub mod read;
pub mod write;
