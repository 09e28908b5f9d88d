//! The kind box: a division box, which parts the canal into two branches.
ghost use Rattle.std.specs.Prelude.{Some};
ghost use Rattle.std.proofs.Common.{rules};
ghost use Rattle.ordinate.specs.Boxes.{box as the_box, box_text};
ghost use Rattle.ordinate.specs.Laws.Kinds.{box_lawful};

use crate::coordinate::is_in_reach;
use crate::kind::Ordinate;
use std::fmt;

/// The flow into each branch, in grains.
#[derive(Clone, Copy, PartialEq, Eq, Debug)]
pub struct Branches {
    pub left: i64,
    pub right: i64,
}

const CODE: u8 = 2;

const DIMENSION: usize = 2;

impl Ordinate for Branches {
    ghost kind = { the_box };

    ghost lawful = { box_lawful };

    ghost exact = { Prim.search rules };

    fn code() -> u8 {
        CODE
    }

    fn dimension() -> usize {
        DIMENSION
    }

    fn zero() -> Branches {
        Branches { left: 0, right: 0 }
    }

    fn coordinate(self, i: usize) -> i64 {
        match i {
            0 => self.left,
            1 => self.right,
            _ => 0,
        }
    }

    fn with_coordinate(self, i: usize, value: i64) -> Branches {
        match i {
            0 => Branches {
                left: value,
                ..self
            },
            1 => Branches {
                right: value,
                ..self
            },
            _ => self,
        }
    }

    fn in_range(self) -> bool {
        is_in_reach(self.left) && is_in_reach(self.right)
    }
}

/// As in `(3, -5)`.
impl fmt::Display for Branches {
    ghost output = { λ p. Some (box_text p) };

    fn fmt<W: fmt::Write>(&self, f: &mut fmt::Formatter<W>) -> fmt::Result {
        let left = self.left;
        let right = self.right;
        write!(f, "({left}, {right})")
    }
}
