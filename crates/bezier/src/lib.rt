//! Bézier curves: their binomials, their halves, and the legs that may stand in for them.
#![tactic(auto)]

pub mod binomial;
pub mod chord;
mod curve;
pub mod degree;
pub mod halves;
pub mod matching;
pub mod reduction;
mod shares;
pub mod test;
mod weight;
