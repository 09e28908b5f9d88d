//! What any curve comes to at the most.

/// A curve of degree 8 has nine points.
pub const MOST_POINTS: usize = 9;

/// A row of work points for each depth from 0 to 10.
pub const MOST_WORK: usize = 99;

/// A curve that is halved ten times comes to no more legs.
pub const MOST_LEGS: usize = 1024;

// What the words above come to.
const _: () = prove!(MOST_WORK == (10 + 1) * MOST_POINTS && MOST_LEGS == 1 << 10);
