//! Turns: what calls make of a draft, and the promise about every list of them.
#![tactic(auto)]

pub mod call;
pub mod promise;
pub mod refusal;
