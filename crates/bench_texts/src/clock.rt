//! How long all the answers took.
use std::time::Duration;

const NANOS: u64 = 1_000_000_000;

#[derive(Clone, Copy)]
pub struct Clock {
    nanos: u64,
}

impl Clock {
    pub fn zero() -> Clock {
        Clock { nanos: 0 }
    }

    pub fn add(&mut self, time: Duration) {
        let nanos = time.as_nanos().min(u64::MAX as u128) as u64;
        self.nanos = self.nanos.saturating_add(nanos);
    }

    /// How many of so many things were done in a second.
    pub fn per_second(&self, number: u64) -> u64 {
        number.saturating_mul(NANOS) / self.nanos.max(1)
    }
}
