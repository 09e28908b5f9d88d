//! A leg, and the ticks and the cell that it covers, as plain data of any numbers.
//! `Stands` and `IsLeg` (specs/Legs.antt) say which of these a leg may have.

/// A part of a curve: the moments from `index` / 2^`depth` to (`index` + 1) / 2^`depth`.
#[derive(Clone, Copy, PartialEq, Eq, Debug)]
pub struct Cell {
    pub depth: u32,
    pub index: u32,
}

/// The part of a turn that a leg covers: one cell of a span.
/// A span is the stretch of a turn over which one curve is drawn; it starts at the tick `from` and lasts `ticks` ticks.
#[derive(Clone, Copy, PartialEq, Eq, Debug)]
pub struct Stretch {
    pub from: u32,
    pub ticks: u32,
    pub cell: Cell,
}

/// A piece of degree 1 or 2 that a drive can follow, with its three control points; a straight leg's middle is its start.
/// The degree is a number here, since a record of a card may hold any.
#[derive(Clone, Copy)]
pub struct Leg<P> {
    pub stretch: Stretch,
    pub degree: u32,
    pub start: P,
    pub middle: P,
    pub end: P,
}
