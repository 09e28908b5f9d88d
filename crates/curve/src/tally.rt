//! What is counted of a curve.

/// How many legs a curve takes, and how many cells were tested to find them.
#[derive(Clone, Copy, PartialEq, Eq, Debug)]
pub struct Tally {
    pub legs: usize,
    pub cells: usize,
}
