//! Curves divided into the fewest legs that stay within a tolerance.
//! Contracts name kind, measure and rule one by one: they are what the bounds of `P` and `R` mean, which no model can use.
#![tactic(auto)]

pub mod accuracy;
mod cell;
mod drawn;
pub mod fewest;
pub mod legs;
pub mod limits;
pub mod points;
pub mod refusal;
mod row;
pub mod span;
pub mod tally;
mod work;
