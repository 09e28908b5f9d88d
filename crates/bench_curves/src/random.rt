//! The numbers that the curves are drawn from.
ghost use Rattle.std.specs.Prelude.{◌<◌, max};

const SEED: u64 = 0x9e37_79b9_7f4a_7c15;

const MULTIPLIER: u64 = 0x2545_f491_4f6c_dd1d;

/// A xorshift64* generator.
#[derive(Clone, Copy)]
pub struct Generator {
    state: u64,
}

impl Generator {
    pub fn seeded() -> Generator {
        Generator { state: SEED }
    }

    fn step(&mut self) -> u64 {
        let mut state = self.state;
        state ^= state >> 12;
        state ^= state << 25;
        state ^= state >> 27;
        self.state = state;
        state.wrapping_mul(MULTIPLIER)
    }

    /// A number below `k`; 0 where there is none.
    pub fn below(&mut self, k: u64) -> u64
        ensures { result < max k 1 }
    {
        (self.step() >> 31) % k.max(1)
    }
}
