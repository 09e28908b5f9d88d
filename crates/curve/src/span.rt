//! The ticks over which one curve is drawn.
ghost use Rattle.std.specs.Prelude.{◌≡◌, ◌+◌, ◌<◌, ◌≤◌, ◌⊎◌, MatchOption};

/// From the tick `from` on, for `ticks` ticks: as many as a leg may have.
#[derive(Clone, Copy, PartialEq, Eq, Debug)]
pub struct Span {
    from: u32,
    ticks: u32,
    ghost some: { 1 ≤ ticks },
    ghost brief: { ticks ≤ 4096 },
    ghost timely: { from + ticks ≤ 65536 },
}

impl Span {
    /// Nothing for ticks that no leg has.
    pub fn new(from: u32, ticks: u32) -> Option<Span>
        ensures { MatchOption result ((ticks < 1) ⊎ ((4096 < ticks) ⊎ (65536 < from + ticks))) (λ s. (s.from ≡ from) × (s.ticks ≡ ticks)) }
    {
        if ticks < 1 {
            return None;
        }
        if ticks > 4_096 {
            return None;
        }
        if from > 65_536 - ticks {
            return None;
        }
        Some(Span { from, ticks })
    }

    pub fn from(self) -> u32
        ensures { result ≡ self.from }
    {
        self.from
    }

    pub fn ticks(self) -> u32
        ensures { result ≡ self.ticks }
    {
        self.ticks
    }
}
