//! The point of a leg at a tick, of any kind that can be measured.
ghost use Rattle.std.specs.Prelude.{◌≡◌, pos, MatchOption};
ghost use Rattle.planner.specs.Telling.{CoversTick, coordinate_leg as the_coordinate_leg, point_at};

use distance::measure::Distance;
use leg::leg::Leg;
use ordinate::flow::Flow;

/// One coordinate of a leg, as a leg of flow: its value is told as that of a flow is.
fn coordinate_leg<P: Distance>(leg: &Leg<P>, i: usize) -> Leg<Flow>
    ensures { result ≡ the_coordinate_leg P.Ordinate.kind leg.now i }
{
    Leg {
        stretch: leg.stretch,
        degree: leg.degree,
        start: Flow {
            value: leg.start.coordinate(i),
        },
        middle: Flow {
            value: leg.middle.coordinate(i),
        },
        end: Flow {
            value: leg.end.coordinate(i),
        },
    }
}

/// The point of a leg at a tick that it covers, rounded down; nothing at any other tick, and for data that is no leg.
pub fn value_at<P: Distance>(leg: &Leg<P>, tick: u32) -> Option<P>
    ensures { MatchOption result (CoversTick P.Ordinate.kind leg.now (pos tick) → ⊥) (λ p. CoversTick P.Ordinate.kind leg.now (pos tick) × (p ≡ point_at P.Ordinate.kind leg.now tick)) }
{
    if !leg.is_leg() {
        return None;
    }
    let mut point = leg.start;
    // by index, as a point is no slice of its coordinates
    for i in 0..P::dimension() {
        let flow = coordinate_leg(leg, i).value_at(tick)?;
        point = point.with_coordinate(i, flow.value);
    }
    Some(point)
}
