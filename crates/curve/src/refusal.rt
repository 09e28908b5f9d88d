//! Why a curve is refused.
ghost use Rattle.std.specs.Prelude.{◌≡◌, Some as Just};
ghost use Rattle.curve.specs.Refusals.{printed, row};

use std::fmt;

/// `row` (specs/Refusals.antt) has the numbers.
#[derive(Clone, Copy, PartialEq, Eq, Debug)]
pub enum CurveRefusal {
    /// The tolerance is not from 1 to the limit of the kind.
    Tolerance,
    /// The depth is not from 0 to 10.
    Depth,
    /// There are too few points for the reduction, or more than nine.
    PointCount,
    /// This point, counted from 0, is the first with a coordinate beyond the limit.
    PointBeyond(usize),
    /// There are too few work points.
    ShortWork,
    /// The curve cannot be divided into cells that pass, down to the depth.
    TooBent,
    /// The curve takes more legs than the outlet has room for.
    TooManyLegs,
}

impl CurveRefusal {
    /// The number by which the refusal goes.
    // a method, and no conversion: a refusal has a number, and may name a place besides
    pub fn number(self) -> u32
        ensures { result ≡ (row self).0 }
    {
        match self {
            CurveRefusal::Tolerance => 1,
            CurveRefusal::Depth => 2,
            CurveRefusal::PointCount => 5,
            CurveRefusal::PointBeyond(_) => 6,
            CurveRefusal::ShortWork => 10,
            CurveRefusal::TooBent => 11,
            CurveRefusal::TooManyLegs => 12,
        }
    }

    /// The point that the refusal names, if it names one.
    pub fn point(self) -> Option<usize>
        ensures { result ≡ (row self).1 }
    {
        match self {
            CurveRefusal::PointBeyond(point) => Some(point),
            _ => None,
        }
    }
}

/// As in `refused 6: point 3 lies beyond the limit`.
impl fmt::Display for CurveRefusal {
    ghost output = { λ f. Just (printed f) };

    fn fmt<W: fmt::Write>(&self, f: &mut fmt::Formatter<W>) -> fmt::Result {
        let number = self.number();
        match self {
            CurveRefusal::Tolerance => write!(
                f,
                "refused {number}: the tolerance is not from 1 to the limit"
            ),
            CurveRefusal::Depth => write!(f, "refused {number}: the depth is not from 0 to 10"),
            CurveRefusal::PointCount => write!(
                f,
                "refused {number}: too few points for the reduction, or more than nine"
            ),
            CurveRefusal::PointBeyond(point) => write!(
                f,
                "refused {number}: point {point} lies beyond the limit"
            ),
            CurveRefusal::ShortWork => write!(f, "refused {number}: too few work points"),
            CurveRefusal::TooBent => write!(f, "refused {number}: the curve is too bent"),
            CurveRefusal::TooManyLegs => write!(
                f,
                "refused {number}: more legs than the outlet has room for"
            ),
        }
    }
}
