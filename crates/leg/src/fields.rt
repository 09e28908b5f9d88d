//! Which numbers and points a leg may have.
ghost use Rattle.std.specs.Prelude.{◌↔◌, IsTrue, T};
ghost use Rattle.leg.specs.Legs.{Stands, IsLeg};

use crate::leg::{Leg, Stretch};
use ordinate::kind::Ordinate;

impl Stretch {
    /// Whether a leg may have these ticks and this cell.
    pub fn stands(self) -> bool
        ensures { IsTrue result ↔ Stands self }
    {
        // each limit is written where it is tested, here and by whoever else refuses for it
        if self.from > 65_535 || self.ticks < 1 || self.ticks > 4_096 {
            return false;
        }
        self.from + self.ticks <= 65_536
            && self.cell.depth <= 10
            && self.cell.index < 1 << self.cell.depth
    }
}

impl<P: Ordinate> Leg<P> {
    /// Whether a leg may have these numbers and points.
    pub fn is_leg(&self) -> bool
        ensures yes { T result → IsLeg P.kind self.now }
        ensures no { IsLeg P.kind self.now → T result }
    {
        if self.degree != 1 && self.degree != 2 {
            return false;
        }
        if self.degree == 1 && self.middle != self.start {
            return false;
        }
        self.stretch.stands()
            && self.start.in_range()
            && self.middle.in_range()
            && self.end.in_range()
    }
}
