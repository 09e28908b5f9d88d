//! The chain of legs: how one stretch goes on where another ends, and how far a chain has come.
ghost use Rattle.std.specs.Prelude.{◌≡◌, ◌↔◌, IsTrue, false, T, Some as Just, None as Nothing};
ghost use Rattle.leg.specs.Legs.{Stands};
ghost use Rattle.leg.specs.Chains.{Last, Next, Standing, ClosedAfter, Follows};

use crate::leg::{Leg, Stretch};
use ordinate::kind::Ordinate;

impl Stretch {
    /// Whether this is the last stretch of its span.
    pub fn is_last(self) -> bool
        ensures { IsTrue result ↔ (Stands self × Last self) }
    {
        self.stands() && self.cell.index + 1 == 1u32 << self.cell.depth
    }

    /// Whether `next` goes on where this stretch ends.
    pub fn is_followed_by(self, next: Stretch) -> bool
        ensures { IsTrue result ↔ (Stands self × Stands next × Next self next) }
    {
        if !self.stands() || !next.stands() {
            return false;
        }
        let cells = 1u32 << self.cell.depth;
        if self.cell.index + 1 == cells {
            return next.from == self.from + self.ticks && next.cell.index == 0;
        }
        if next.from != self.from || next.ticks != self.ticks {
            return false;
        }
        (self.cell.index + 1) * (1u32 << next.cell.depth) == next.cell.index * cells
    }
}

/// How far a chain of legs has come: its last leg, if it has one.
#[derive(Drop)]
pub struct Chain<P> {
    pub last: Option<Leg<P>>,
}

impl<P: Ordinate> Chain<P> {
    /// A chain with no legs yet.
    pub fn new() -> Chain<P>
        ensures { result.last ≡ Nothing }
    {
        Chain { last: None }
    }

    /// Whether the leg goes on this chain.
    pub fn takes(&self, leg: &Leg<P>) -> bool
        ensures { IsTrue result ↔ (Standing self.now.last × Stands leg.now.stretch × Follows self.now.last leg.now) }
    {
        match self.last {
            None => leg.stretch.stands() && leg.stretch.from == 0 && leg.stretch.cell.index == 0,
            Some(before) => {
                leg.start == before.end && before.stretch.is_followed_by(leg.stretch)
            }
        }
    }

    /// Adds the leg if it goes on the chain; if not, the chain stays as it is.
    pub fn take(&mut self, leg: &Leg<P>) -> bool
        ensures yes { T result → Standing self.old.last × Stands leg.now.stretch × Follows self.old.last leg.now × (self.new.last ≡ Just leg.now) }
        ensures no { Standing self.old.last × Stands leg.now.stretch × Follows self.old.last leg.now → T result }
        ensures same { result ≡ false → self.new ≡ self.old }
    {
        if !self.takes(leg) {
            return false;
        }
        self.last = Some(*leg);
        true
    }

    /// Whether no span is left open.
    pub fn is_closed(&self) -> bool
        ensures yes { T result → Standing self.now.last × ClosedAfter self.now.last }
        ensures no { Standing self.now.last × ClosedAfter self.now.last → T result }
    {
        match self.last {
            None => true,
            Some(leg) => leg.stretch.is_last(),
        }
    }
}
