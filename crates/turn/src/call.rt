//! The calls that alter a draft, as data, so that a list of them can be made.

/// One call, over drawn points of the type `P`.
#[derive(Clone, Copy)]
pub enum Call<'a, P> {
    /// Lays a span: the curve of the points, over so many ticks, with so many work points to use.
    Lay {
        points: &'a [P],
        ticks: i64,
        work: usize,
    },
    /// Strikes the last span: takes its legs off again.
    Strike,
    /// Seals the turn: nothing is laid or struck any more.
    Seal,
}
