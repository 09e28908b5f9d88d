//! Why a call is refused.
ghost use Rattle.std.specs.Prelude.{◌≡◌, Some as Just};
ghost use Rattle.turn.specs.Refusals.{printed, row};
ghost use Rattle.turn.specs.declared.refusal.Refusal.TheVariants.{Curve};

use curve::refusal::CurveRefusal;
use std::fmt;

/// `row` (specs/Refusals.antt) has the numbers.
#[derive(Clone, Copy, PartialEq, Eq, Debug)]
pub enum Refusal {
    /// The curve is refused, or the accuracy that is asked of its legs.
    Curve(CurveRefusal),
    /// The agreed end is not from 1 to 65,536.
    End,
    /// The outlet does not hold as many legs as the draft has put.
    Foreign,
    /// The span does not last from 1 to 4,096 ticks.
    Ticks,
    /// The span ends past the agreed end.
    PastEnd,
    /// The span does not start at the point that ends the last leg.
    Apart,
    /// No span is left to strike.
    Empty,
    /// The outlet's last leg does not close a span where the draft ends.
    Torn,
    /// The turn does not reach the agreed end yet.
    NotFull,
    /// The tick is past the agreed end.
    TickPastEnd,
    /// No leg covers the tick.
    NoLegThere,
}

impl Refusal {
    /// The number by which the refusal goes.
    // a method, and no conversion: a refusal has a number, and may name a place besides
    pub fn number(self) -> u32
        ensures { result ≡ (row self).0 }
    {
        match self {
            Refusal::Curve(refusal) => refusal.number(),
            Refusal::End => 3,
            Refusal::Foreign => 4,
            Refusal::Ticks => 7,
            Refusal::PastEnd => 8,
            Refusal::Apart => 9,
            Refusal::Empty => 13,
            Refusal::Torn => 14,
            Refusal::NotFull => 15,
            Refusal::TickPastEnd => 16,
            Refusal::NoLegThere => 17,
        }
    }

    /// The point that the refusal names, if it names one.
    pub fn point(self) -> Option<usize>
        ensures { result ≡ (row self).1 }
    {
        match self {
            Refusal::Curve(refusal) => refusal.point(),
            _ => None,
        }
    }
}

/// Whatever refuses a curve refuses the span that it would be, by the same number and with the same point.
impl From<CurveRefusal> for Refusal {
    ghost from_gives = { λ before after. after ≡ Curve before };

    fn from(refusal: CurveRefusal) -> Refusal {
        Refusal::Curve(refusal)
    }
}

/// As in `refused 11: the curve is too bent`, and `refused 6: point 3 lies beyond the limit`.
impl fmt::Display for Refusal {
    ghost output = { λ f. Just (printed f) };

    fn fmt<W: fmt::Write>(&self, f: &mut fmt::Formatter<W>) -> fmt::Result {
        let words = match self {
            Refusal::Curve(refusal) => return write!(f, "{refusal}"),
            Refusal::End => "the agreed end is not from 1 to 65536",
            Refusal::Foreign => "the outlet's count is not that of the draft or sealed turn",
            Refusal::Ticks => "a span lasts from 1 to 4096 ticks",
            Refusal::PastEnd => "the span ends past the agreed end",
            Refusal::Apart => "the span does not start where the last leg ends",
            Refusal::Empty => "no span is left to strike",
            Refusal::Torn => "the last leg does not close a span where the draft ends",
            Refusal::NotFull => "the turn does not reach the agreed end",
            Refusal::TickPastEnd => "the tick is past the agreed end",
            Refusal::NoLegThere => "no leg covers the tick",
        };
        let number = self.number();
        write!(f, "refused {number}: {words}")
    }
}
