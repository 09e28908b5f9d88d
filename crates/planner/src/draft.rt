//! Drafts: turns that are still being made.
ghost use Rattle.std.specs.Prelude.{◌≡◌, ◌≤◌};

use curve::accuracy::Accuracy;
use std::marker::PhantomData;
use turn::refusal::Refusal;

/// A turn that is still being made, in points of the kind `P`, with the legs of the reduction `R`. The legs stand in an outlet, which each call is lent.
/// It is neither copied nor cloned: each call takes it and hands it, or the one that it becomes, back.
#[derive(Drop)]
pub struct Draft<P, R> {
    /// What is agreed: the tolerance and the depth, and the last tick of the turn.
    pub(crate) accuracy: Accuracy,
    pub(crate) end: u32,
    /// How many legs it has put, up to which tick its spans go, and the point that ends its last leg.
    pub(crate) count: usize,
    pub(crate) laid: u32,
    pub(crate) last: Option<P>,
    pub(crate) reduction: PhantomData<R>,
    ghost timely: { end ≤ 65536 },
    ghost inside: { laid ≤ end },
}

/// A call that was refused, with the draft as it stood.
#[derive(Drop)]
pub struct Refused<P, R> {
    pub draft: Draft<P, R>,
    pub refusal: Refusal,
}

impl<P, R> Draft<P, R> {
    /// A call that is refused for this hands the draft back.
    pub(crate) fn refused(self, refusal: Refusal) -> Refused<P, R>
        ensures { result ≡ record { draft = self; refusal = refusal } }
    {
        Refused {
            draft: self,
            refusal,
        }
    }
}
