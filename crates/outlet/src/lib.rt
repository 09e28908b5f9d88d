//! Outlets: where legs are put, and the record table, which is one in memory of its own.
#![tactic(auto)]

pub mod outlet;
pub mod put_refusal;
pub mod table;
