//! Sealed turns.
ghost use Rattle.std.specs.Prelude.{◌≤◌};

use std::marker::PhantomData;

/// A turn whose making has ended: it can be told and listed, and nothing is laid or struck any more. Only sealing a draft makes one.
/// Like a draft it is plain numbers and one end value, which sealing moves here.
// A draft and a sealed turn are two types, so that a call on the wrong one does not build.
#[derive(Drop)]
pub struct Sealed<P, R> {
    /// The last tick of the turn.
    pub(crate) end: u32,
    /// How many legs it has, up to which tick they go, and the point that ends the last. The last two are read by contracts alone.
    pub(crate) count: usize,
    pub(crate) laid: u32,
    pub(crate) last: Option<P>,
    pub(crate) reduction: PhantomData<R>,
    ghost timely: { end ≤ 65536 },
}
