//! Legs: the straight and quadratic pieces that a gate drive follows, and the chain that they form.
#![tactic(auto)]

pub mod chain;
pub mod fields;
pub mod leg;
pub mod value;
