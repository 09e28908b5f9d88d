//! The planner: drafts, sealed turns, and lists of calls.
#![tactic(auto)]

pub mod begin;
pub mod draft;
pub mod lay;
pub mod make;
pub mod run;
pub mod seal;
pub mod sealed;
pub mod strike;
pub mod tell;
pub mod value;
