//! The kind flow: what passes a single gate.
ghost use Rattle.std.specs.Prelude.{Some};
ghost use Rattle.std.proofs.Common.{rules};
ghost use Rattle.ordinate.specs.Flows.{flow as the_flow, flow_text};
ghost use Rattle.ordinate.specs.Laws.Kinds.{flow_lawful};

use crate::coordinate::is_in_reach;
use crate::kind::Ordinate;
use std::fmt;

/// A flow in grains; a grain is 1/65,536 litre per second.
#[derive(Clone, Copy, PartialEq, Eq, Debug)]
pub struct Flow {
    pub value: i64,
}

const CODE: u8 = 1;

const DIMENSION: usize = 1;

impl Ordinate for Flow {
    ghost kind = { the_flow };

    ghost lawful = { flow_lawful };

    ghost exact = { Prim.search rules };

    fn code() -> u8 {
        CODE
    }

    fn dimension() -> usize {
        DIMENSION
    }

    fn zero() -> Flow {
        Flow { value: 0 }
    }

    fn coordinate(self, i: usize) -> i64 {
        if i == 0 { self.value } else { 0 }
    }

    fn with_coordinate(self, i: usize, value: i64) -> Flow {
        if i == 0 { Flow { value } } else { self }
    }

    fn in_range(self) -> bool {
        is_in_reach(self.value)
    }
}

/// As in `-5`.
impl fmt::Display for Flow {
    ghost output = { λ p. Some (flow_text p) };

    fn fmt<W: fmt::Write>(&self, f: &mut fmt::Formatter<W>) -> fmt::Result {
        let value = self.value;
        write!(f, "{value}")
    }
}
