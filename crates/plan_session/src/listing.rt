//! The legs of a session's sealed turn, printed one by one.
ghost use Rattle.std.specs.Prelude.{◌≡◌, ℕ, List, IfOk};
ghost use Rattle.plan_session.specs.Makings.{LegShown, made};
ghost use Rattle.plan_session.specs.Listing.{NoSuchLeg, ShowsLeg, sealed_state};
ghost use Rattle.plan_session.specs.Promises.{Promise};
ghost use Rattle.plan_session.specs.Sessions.{state_of};

use crate::making::Making;
use crate::session::Session;
use crate::stage::Stage;
use bezier::reduction::Reduction;
use distance::measure::Distance;
use outlet::outlet::Outlet;
use plan_text::notation::Notation;
use plan_text::print::{check_room, print_leg};
use plan_text::refusal::TextRefusal;

impl<P: Distance + Notation, R: Reduction<P>> Making<P, R> {
    /// Prints leg `i`, from 0; nothing where the turn is not sealed, or has no such leg.
    pub fn leg(&mut self, i: usize, buffer: &mut [u8]) -> Result<Option<usize>, TextRefusal>
        ensures shows { LegShown P.Ordinate.kind P.Notation.at (made P.Ordinate.kind P.Distance.measure R.Reduction.rule self.old) i buffer.old result buffer.new }
        ensures same { self.new ≡ self.old }
    {
        check_room(buffer)?;
        if !self.is_sealed() {
            return Ok(None);
        }
        match self.table.get(i) {
            Some(leg) => print_leg(&leg, buffer),
            None => Ok(None),
        }
    }
}

impl Session {
    /// Whether a turn was sealed.
    pub fn is_sealed(&self) -> bool
        ensures { result ≡ sealed_state (state_of self.now.stage) }
    {
        match &self.stage {
            Stage::Waiting => false,
            Stage::Flow(making) => making.is_sealed(),
            Stage::Box(making) => making.is_sealed(),
        }
    }

    /// Prints leg `i` of the sealed turn, from 0, and answers how many octets that takes; nothing where the turn is not sealed, or has no such leg. A buffer of fewer than 160 octets is refused before anything else.
    pub fn leg(&mut self, i: usize, buffer: &mut [u8]) -> Result<Option<usize>, TextRefusal>
        ensures shows { ShowsLeg (state_of self.old.stage) i buffer.old result buffer.new }
        ensures whole { IfOk result (λ printed. (lines : List (List ℕ)) → Promise lines (state_of self.old.stage) → NoSuchLeg (state_of self.old.stage) i printed) }
        ensures same { self.new ≡ self.old }
    {
        check_room(buffer)?;
        match &mut self.stage {
            Stage::Waiting => Ok(None),
            Stage::Flow(making) => making.leg(i, buffer),
            Stage::Box(making) => making.leg(i, buffer),
        }
    }
}
