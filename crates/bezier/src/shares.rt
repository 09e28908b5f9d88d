//! How much of each point of a leg makes up one of its raised points.

/// M, and the weights of start, middle and end, which add up to M.
#[derive(Clone, Copy)]
pub struct Shares {
    pub scale: u32,
    pub start: u32,
    pub middle: u32,
    pub end: u32,
}
