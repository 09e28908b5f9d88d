//! How closely legs follow a curve.
ghost use Rattle.std.specs.Prelude.{◌≡◌, ◌≤◌, pos, IfOk};
ghost use Rattle.leg.specs.Reasons.{First, refusal as refusal_of};
ghost use Rattle.curve.specs.Refusals.{accuracy_reasons};

use crate::refusal::CurveRefusal;
use distance::measure::Distance;

/// The agreed tolerance, in grains, and how often a curve may be halved.
#[derive(Clone, Copy, PartialEq, Eq, Debug)]
pub struct Accuracy {
    tolerance: u32,
    depth: u32,
    ghost shallow: { depth ≤ 10 },
}

impl Accuracy {
    /// A tolerance from 1 to the limit of the kind `P`, and a depth from 0 to 10.
    pub fn agreed<P: Distance>(tolerance: i64, depth: i64) -> Result<Accuracy, CurveRefusal>
        ensures first { First (accuracy_reasons P.Distance.measure tolerance depth) (refusal_of result) }
        ensures value { IfOk result (λ a. (pos a.tolerance ≡ tolerance) × (pos a.depth ≡ depth)) }
    {
        if tolerance < 1 || tolerance > P::limit() {
            return Err(CurveRefusal::Tolerance);
        }
        if depth < 0 || depth > 10 {
            return Err(CurveRefusal::Depth);
        }
        Ok(Accuracy {
            tolerance: tolerance as u32,
            depth: depth as u32,
        })
    }

    pub fn tolerance(self) -> u32
        ensures { result ≡ self.tolerance }
    {
        self.tolerance
    }

    pub fn depth(self) -> u32
        ensures value { result ≡ self.depth }
        ensures shallow { result ≤ 10 }
    {
        self.depth
    }
}
