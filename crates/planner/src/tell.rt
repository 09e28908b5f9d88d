//! Telling and listing a sealed turn.
ghost use Rattle.std.specs.Prelude.{◌≡◌, ◌<◌, ◌≤◌, IfOk, MatchOption, length, pos, slice_index_or, Some as Just};
ghost use Rattle.leg.specs.Reasons.{First, refusal as why};
ghost use Rattle.planner.specs.Telling.{FirstTells, list_reasons, tell_reasons};

use crate::sealed::Sealed;
use crate::value::value_at;
use distance::measure::Distance;
use leg::leg::Leg;
use outlet::outlet::Outlet;
use turn::refusal::Refusal;

/// What the first leg of the outlet that covers the tick tells.
fn first_value<P: Distance, O: Outlet<P>>(outlet: &mut O, tick: u32) -> Option<P>
    ensures same { O.Outlet.contents outlet.new ≡ O.Outlet.contents outlet.old }
    ensures value { FirstTells P.Ordinate.kind (O.Outlet.contents outlet.old).legs (pos tick) result }
{
    // an outlet is asked leg by leg: it may be a device, and is no iterator
    for i in 0..outlet.count() {
        if let Some(leg) = outlet.get(i) {
            if let Some(point) = value_at(&leg, tick) {
                return Some(point);
            }
        }
    }
    None
}

impl<P: Distance, R> Sealed<P, R> {
    /// The point of the turn at a tick, rounded down: that of the first leg that covers it.
    pub fn tell<O: Outlet<P>>(&self, outlet: &mut O, tick: i64) -> Result<P, Refusal>
        ensures first { First (tell_reasons P.Ordinate.kind self.now (O.Outlet.contents outlet.old) tick) (why result) }
        ensures value { IfOk result (λ p. FirstTells P.Ordinate.kind (O.Outlet.contents outlet.old).legs tick (Just p)) }
        ensures same { O.Outlet.contents outlet.new ≡ O.Outlet.contents outlet.old }
    {
        if outlet.count() != self.count {
            return Err(Refusal::Foreign);
        }
        if tick > self.end as i64 {
            return Err(Refusal::TickPastEnd);
        }
        if tick < 0 {
            return Err(Refusal::NoLegThere);
        }
        first_value::<P, O>(outlet, tick as u32).ok_or(Refusal::NoLegThere)
    }

    /// Leg `i` of the turn, from 0; nothing where `i` is not below their number.
    pub fn list<O: Outlet<P>>(&self, outlet: &mut O, i: usize) -> Result<Option<Leg<P>>, Refusal>
        ensures first { First (list_reasons self.now (O.Outlet.contents outlet.old)) (why result) }
        ensures value { IfOk result (λ r. MatchOption r (length (O.Outlet.contents outlet.old).legs ≤ i) (λ l. (i < length (O.Outlet.contents outlet.old).legs) × (l ≡ slice_index_or (O.Outlet.contents outlet.old).legs i l))) }
        ensures same { O.Outlet.contents outlet.new ≡ O.Outlet.contents outlet.old }
    {
        if outlet.count() != self.count {
            return Err(Refusal::Foreign);
        }
        Ok(outlet.get(i))
    }
}
