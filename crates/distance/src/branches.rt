//! Boxes, measured: each branch, and both together.
ghost use Rattle.distance.specs.Boxes.{box_measure};
ghost use Rattle.distance.specs.Laws.Boxes.{box_measured};

use crate::coordinate::is_bounded;
use crate::measure::Distance;
use ordinate::branches::Branches;

/// C, in grains. Each kind states its own.
const LIMIT: i64 = 2_147_483_648;

/// A: each branch is off by at most one half, so both together by two.
const ALLOWANCE: u32 = 2;

impl Distance for Branches {
    ghost measure = { box_measure };

    ghost lawful = { box_measured };

    fn limit() -> i64 {
        LIMIT
    }

    fn allowance() -> u32 {
        ALLOWANCE
    }

    fn is_within(self, r: i64) -> bool {
        is_bounded(self.left, r)
            && is_bounded(self.right, r)
            // a `match`: the proof does not see what a closure given to `is_some_and` answers
            && match self.left.checked_add(self.right) {
                Some(both) => is_bounded(both, r),
                // a sum beyond 64 bits is beyond every r
                None => false,
            }
    }
}
