//! A checksum of legs.
use distance::measure::Distance;
use leg::leg::Leg;

/// 2^31 - 1.
const PRIME: i64 = 2_147_483_647;

#[derive(Clone, Copy)]
pub struct Checksum {
    pub value: i64,
}

impl Checksum {
    /// Nothing wraps here: the checksum stays below 2^31, and no leg has a number beyond 2^33.
    fn take_in(&mut self, number: i64) {
        self.value = self
            .value
            .wrapping_mul(31)
            .wrapping_add(number)
            .rem_euclid(PRIME);
    }

    fn take_in_point<P: Distance>(&mut self, point: P) {
        // by index, as a point is no slice of its coordinates
        for i in 0..P::dimension() {
            self.take_in(point.coordinate(i));
        }
    }

    pub fn take_in_leg<P: Distance>(&mut self, leg: &Leg<P>) {
        self.take_in(leg.stretch.cell.depth as i64);
        self.take_in(leg.stretch.cell.index as i64);
        self.take_in_point(leg.start);
        self.take_in_point(leg.middle);
        self.take_in_point(leg.end);
    }
}
