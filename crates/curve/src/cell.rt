//! The cells of a curve, and their halves.
ghost use Rattle.std.specs.Prelude.{◌≡◌, ◌^◌, ◌<◌};
ghost use Rattle.curve.specs.Cells.{left, right};

use leg::leg::Cell;

/// A cell of the curve: one of the 2^d cells of its depth d.
#[derive(Clone, Copy)]
pub(crate) struct Part {
    pub(crate) cell: Cell,
    ghost inside: { cell.index < 2 ^ cell.depth },
}

/// The cell that is the whole curve.
pub(crate) const WHOLE: Part = Part {
    cell: Cell { depth: 0, index: 0 },
};

impl Part {
    /// The left half and the right half.
    pub(crate) fn halves(self) -> (Part, Part)
        requires { self.cell.depth < 10 }
        ensures first { result.0.cell ≡ left self.cell }
        ensures second { result.1.cell ≡ right self.cell }
    {
        let depth = self.cell.depth + 1;
        let index = 2 * self.cell.index;
        let first = Cell { depth, index };
        let second = Cell {
            depth,
            index: index + 1,
        };
        (Part { cell: first }, Part { cell: second })
    }
}
