//! The parts of a line.

/// A bracket, a word or a number. A word borrows its octets from the line.
#[derive(Clone, Copy, PartialEq, Eq)]
pub(crate) enum Token<'a> {
    Open,
    Close,
    Word(&'a [u8]),
    Number(i64),
}

/// A token, and the place in the line where it begins: there a reader finds it again.
#[derive(Clone, Copy)]
pub(crate) struct Part<'a> {
    pub token: Token<'a>,
    pub place: usize,
}
