//! Points, as legs and cards need them: their coordinates and the octets of these, their range, their zero and their equality.
//! A file for each kind of ordinate.
#![tactic(auto)]

pub mod branches;
pub mod coordinate;
pub mod flow;
pub mod kind;
