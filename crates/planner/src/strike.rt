//! Striking the last span.
ghost use Rattle.std.specs.Prelude.{◌≡◌, ◌≤◌, ◌∷◌, ◌↔◌, IsTrue, length, drop, take, Some as Just};
ghost use Rattle.leg.specs.Chains.{Each, Last};
ghost use Rattle.leg.specs.declared.leg.Leg.{Leg as LegT};
ghost use Rattle.turn.specs.Calls.{History, end_of, last_leg};
ghost use Rattle.turn.specs.Calls.Call.{strike as the_strike};
ghost use Rattle.turn.specs.Outcomes.{Outcome};
ghost use Rattle.turn.specs.Whole.{Whole};
ghost use Rattle.planner.specs.Drafts.{HandsBack, StartsAt, answer, left, progress, setting};

use crate::draft::{Draft, Refused};
use bezier::reduction::Reduction;
use distance::measure::Distance;
use leg::leg::{Leg, Stretch};
use ordinate::kind::Ordinate;
use outlet::outlet::Outlet;
use turn::refusal::Refusal;

/// What stands before the last legs that share a start tick: how many legs, and the point that ends them.
#[derive(Drop)]
struct Before<P> {
    count: usize,
    end: Option<P>,
}

fn before_span<P: Ordinate, O: Outlet<P>>(outlet: &mut O, start: u32, count: usize) -> Before<P>
    requires there { count ≡ length (O.Outlet.contents outlet.old).legs }
    ensures same { O.Outlet.contents outlet.new ≡ O.Outlet.contents outlet.old }
    ensures fewer { result.count ≤ count }
    ensures shared { Each (StartsAt start) (drop result.count (O.Outlet.contents outlet.old).legs) }
    ensures end { result.end ≡ end_of (last_leg (take result.count (O.Outlet.contents outlet.old).legs)) }
    ensures all { (l : LegT P) → last_leg (take result.count (O.Outlet.contents outlet.old).legs) ≡ Just l → StartsAt start l → ⊥ }
{
    // an outlet is asked leg by leg: it may be a device, and is no iterator
    for i in (0..count).rev() {
        if let Some(leg) = outlet.get(i) {
            if leg.stretch.from != start {
                return Before {
                    count: i + 1,
                    end: Some(leg.end),
                };
            }
        }
    }
    Before {
        count: 0,
        end: None,
    }
}

/// The last leg of the outlet, if it has one.
fn last_of<P: Ordinate, O: Outlet<P>>(outlet: &mut O, count: usize) -> Option<Leg<P>>
    requires there { count ≡ length (O.Outlet.contents outlet.old).legs }
    ensures same { O.Outlet.contents outlet.new ≡ O.Outlet.contents outlet.old }
    ensures value { result ≡ last_leg (O.Outlet.contents outlet.old).legs }
{
    outlet.get(count.checked_sub(1)?)
}

/// Whether the stretch is the last of its span, of any numbers.
fn is_last_cell(stretch: Stretch) -> bool
    ensures { IsTrue result ↔ Last stretch }
{
    // deeper down, no index of 32 bits is the last
    if stretch.cell.depth > 32 {
        return false;
    }
    stretch.cell.index as u64 + 1 == 1u64 << stretch.cell.depth
}

impl<P: Distance, R: Reduction<P>> Draft<P, R> {
    fn strike_checked<O: Outlet<P>>(self, outlet: &mut O) -> Result<Draft<P, R>, Refused<P, R>>
        ensures outcome { Outcome (setting P.Ordinate.kind P.Distance.measure R.Reduction.rule self) the_strike (progress self) (O.Outlet.contents outlet.old) (answer result) (progress (left result)) (O.Outlet.contents outlet.new) }
        ensures same { HandsBack self result }
    {
        let count = outlet.count();
        if count != self.count {
            return Err(self.refused(Refusal::Foreign));
        }
        let Some(last) = last_of::<P, O>(outlet, count) else {
            return Err(self.refused(Refusal::Empty));
        };
        let ends = last.stretch.from as u64 + last.stretch.ticks as u64;
        if ends != self.laid as u64 {
            return Err(self.refused(Refusal::Torn));
        }
        if !is_last_cell(last.stretch) {
            return Err(self.refused(Refusal::Torn));
        }
        let before = before_span::<P, O>(outlet, last.stretch.from, count);
        outlet.keep(before.count);
        Ok(Draft {
            accuracy: self.accuracy,
            end: self.end,
            count: before.count,
            laid: last.stretch.from,
            last: before.end,
            reduction: self.reduction,
        })
    }

    /// Strikes the last span: takes all of its legs off again.
    pub fn strike<O: Outlet<P>>(self, outlet: &mut O) -> Result<Draft<P, R>, Refused<P, R>>
        ensures outcome { Outcome (setting P.Ordinate.kind P.Distance.measure R.Reduction.rule self) the_strike (progress self) (O.Outlet.contents outlet.old) (answer result) (progress (left result)) (O.Outlet.contents outlet.new) }
        ensures keeps { (h : History P) → Whole (setting P.Ordinate.kind P.Distance.measure R.Reduction.rule self) h (progress self) (O.Outlet.contents outlet.old)
            → Whole (setting P.Ordinate.kind P.Distance.measure R.Reduction.rule self) ((the_strike, answer result) ∷ h) (progress (left result)) (O.Outlet.contents outlet.new) }
        ensures same { HandsBack self result }
    {
        self.strike_checked(outlet)
    }
}
