//! What is counted over all curves.
use crate::checksum::Checksum;
use curve::tally::Tally;
use distance::measure::Distance;
use leg::leg::Leg;

#[derive(Clone, Copy)]
pub struct Totals {
    pub too_bent: u64,
    pub legs: u64,
    pub cells_tested: u64,
    pub checksum: Checksum,
}

impl Totals {
    pub fn none() -> Totals {
        Totals {
            too_bent: 0,
            legs: 0,
            cells_tested: 0,
            checksum: Checksum { value: 0 },
        }
    }

    pub fn add_too_bent(&mut self) {
        self.too_bent = self.too_bent.saturating_add(1);
    }

    /// Adds an accepted curve: the first `tally.legs` of the legs are its own.
    pub fn add<P: Distance>(&mut self, tally: Tally, legs: &[Leg<P>]) {
        self.legs = self.legs.saturating_add(tally.legs as u64);
        self.cells_tested = self.cells_tested.saturating_add(tally.cells as u64);
        for leg in legs.iter().take(tally.legs) {
            self.checksum.take_in_leg(leg);
        }
    }
}
