//! The exact value of a flow leg at a tick, rounded down.
ghost use Rattle.std.specs.Prelude.{◌≡◌, ◌-◌, ◌*◌, ◌≤◌, ℤ, pos, ◌*ℤ◌, neg_ℤ, MatchOption};
ghost use Rattle.ordinate.specs.Kinds.{Between};
ghost use Rattle.ordinate.specs.Flows.{flow};
ghost use Rattle.ordinate.specs.declared.flow.Flow.{Flow as FlowT};
ghost use Rattle.leg.specs.Legs.{Stands, IsLeg};
ghost use Rattle.leg.specs.Ticks.{Covers, moment as the_moment};
ghost use Rattle.leg.specs.Values.{floor, line, parabola, Tells, FirstTells};

use crate::leg::{Leg, Stretch};
use ordinate::flow::Flow;

impl Stretch {
    /// The local moment of a tick that this stretch covers, as numerator and denominator: a fraction from 0 to 1 of the stretch.
    pub fn moment(self, tick: u32) -> Option<(u32, u32)>
        ensures { MatchOption result (Stands self → Covers self tick → ⊥)
            (λ m. Stands self × Covers self tick × (m.0 ≡ the_moment self tick) × (m.1 ≡ self.ticks) × (m.0 ≤ m.1)) }
    {
        if !self.stands() {
            return None;
        }
        let cells = 1u64 << self.cell.depth;
        let begin = cells * self.from as u64 + self.cell.index as u64 * self.ticks as u64;
        let at = cells * tick as u64;
        if at < begin {
            return None;
        }
        if at > begin + self.ticks as u64 {
            return None;
        }
        Some(((at - begin) as u32, self.ticks))
    }
}

/// A coordinate of a leg times one of the weights that a moment gives it.
fn weighted(weight: u32, value: i64) -> i64
    requires small { weight ≤ 33554432 }
    requires range { Between flow.least flow.greatest value }
    ensures value { result ≡ pos weight *ℤ value }
    ensures bound { Between (neg_ℤ (pos 288230376151711744)) (pos 288230376151711744) result }
{
    weight as i64 * value
}

/// sum / parts, rounded towards minus infinity.
fn rounded_down(sum: i64, parts: u32) -> i64
    requires { 1 ≤ parts }
    ensures { result ≡ floor sum parts }
{
    sum.div_euclid(parts as i64)
}

impl Leg<Flow> {
    /// The value of a straight leg at a local moment.
    fn line_at(&self, moment: (u32, u32)) -> i64
        requires leg { IsLeg flow self.now }
        requires moment { (moment.1 ≡ self.now.stretch.ticks) × (moment.0 ≤ moment.1) }
        ensures { result ≡ floor (line moment.1 moment.0 self.now.start.value self.now.end.value) moment.1 }
    {
        let (s, v) = moment;
        rounded_down(
            weighted(v - s, self.start.value) + weighted(s, self.end.value),
            v,
        )
    }

    /// The value of a quadratic leg at a local moment.
    fn parabola_at(&self, moment: (u32, u32)) -> i64
        requires leg { IsLeg flow self.now }
        requires moment { (moment.1 ≡ self.now.stretch.ticks) × (moment.0 ≤ moment.1) }
        ensures { result ≡ floor (parabola moment.1 moment.0 self.now.start.value self.now.middle.value self.now.end.value) (moment.1 * moment.1) }
    {
        let (s, v) = moment;
        let rest = v - s;
        let sum = weighted(rest * rest, self.start.value)
            + weighted(2 * s * rest, self.middle.value)
            + weighted(s * s, self.end.value);
        rounded_down(sum, v * v)
    }

    /// What the leg tells at a tick that it covers; `None` for any other tick, and for data that is no leg.
    pub fn value_at(&self, tick: u32) -> Option<Flow>
        ensures { MatchOption result ((v : FlowT) → Tells self.now tick v → ⊥) (λ v. Tells self.now tick v) }
    {
        if !self.is_leg() {
            return None;
        }
        let moment = self.stretch.moment(tick)?;
        let value = if self.degree == 1 {
            self.line_at(moment)
        } else {
            self.parabola_at(moment)
        };
        Some(Flow { value })
    }
}

/// What the first leg that covers the tick tells.
pub fn first_value(legs: &[Leg<Flow>], tick: u32) -> Option<Flow>
    ensures { FirstTells legs.now tick result }
{
    // with `find_map` what the first of them tells is not proved
    for leg in legs {
        if let Some(value) = leg.value_at(tick) {
            return Some(value);
        }
    }
    None
}
