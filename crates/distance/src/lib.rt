//! Distances: how the points of a kind are measured and halved, so that curves of them can be drawn.
#![tactic(auto)]

pub mod branches;
pub mod coordinate;
pub mod flow;
pub mod measure;
pub mod points;
