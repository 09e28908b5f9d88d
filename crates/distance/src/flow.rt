//! Flows, measured: what passes a single gate.
ghost use Rattle.distance.specs.Flows.{flow_measure};
ghost use Rattle.distance.specs.Laws.Flows.{flow_measured};

use crate::coordinate::is_bounded;
use crate::measure::Distance;
use ordinate::flow::Flow;

/// C, in grains. Each kind states its own.
const LIMIT: i64 = 2_147_483_648;

/// A: one coordinate is off by at most one half.
const ALLOWANCE: u32 = 1;

impl Distance for Flow {
    ghost measure = { flow_measure };

    ghost lawful = { flow_measured };

    fn limit() -> i64 {
        LIMIT
    }

    fn allowance() -> u32 {
        ALLOWANCE
    }

    fn is_within(self, r: i64) -> bool {
        is_bounded(self.value, r)
    }
}
