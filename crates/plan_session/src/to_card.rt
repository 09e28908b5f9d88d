//! The card of a session's sealed turn.
ghost use Rattle.std.specs.Prelude.{◌≡◌, ℕ, List, IfOk};
ghost use Rattle.plan_session.specs.Cards.{GivesCard, GivesReadCard, IsCard, MakesCard};
ghost use Rattle.plan_session.specs.Makings.{any_made, made};
ghost use Rattle.plan_session.specs.Promises.{Promise};
ghost use Rattle.plan_session.specs.Views.{view_of};

use crate::any_making::AnyMaking;
use crate::making::Making;
use crate::session::Session;
use crate::stage::Stage;
use bezier::reduction::Reduction;
use card::place::length_of_card;
use card_writer::write::write;
use distance::measure::Distance;
use leg::leg::Leg;
use ordinate::kind::Ordinate;
use outlet::outlet::Outlet;
use plan_text::notation::Notation;
use std::alloc::{AllocError, Global};

/// The card of these legs, with no octet behind its records; nothing where one of them is no leg, or where they are more than a card takes.
fn card_of<P: Ordinate>(heap: Global, legs: &[Leg<P>]) -> Result<Option<Vec<u8>>, AllocError>
    ensures { IfOk result (λ card. IsCard P.kind legs.now card) }
{
    let mut card = vec![in heap; 0u8; length_of_card::<P>(legs.len())]?;
    match write(legs, card.as_mut_slice()) {
        Ok(()) => Ok(Some(card)),
        Err(_) => Ok(None),
    }
}

impl<P: Distance + Notation, R: Reduction<P>> Making<P, R> {
    /// The card of the sealed turn; nothing where the turn is not sealed, or holds what no card takes.
    pub(crate) fn card(&mut self, heap: Global) -> Result<Option<Vec<u8>>, AllocError>
        ensures card { IfOk result (λ card. MakesCard P.Ordinate.kind (made P.Ordinate.kind P.Distance.measure R.Reduction.rule self.old) card) }
        ensures same { self.new ≡ self.old }
    {
        if !self.is_sealed() {
            return Ok(None);
        }
        let count = self.table.count();
        card_of(heap, &self.table.records()[..count])
    }
}

impl<P: Distance + Notation> AnyMaking<P> {
    /// The card of the sealed turn, as above.
    pub(crate) fn card(&mut self, heap: Global) -> Result<Option<Vec<u8>>, AllocError>
        ensures card { IfOk result (λ card. MakesCard P.Ordinate.kind (any_made P.Ordinate.kind P.Distance.measure self.old) card) }
        ensures same { self.new ≡ self.old }
    {
        match self {
            AnyMaking::Chord(making) => making.card(heap),
            AnyMaking::Matching(making) => making.card(heap),
        }
    }
}

impl Session {
    /// The card of the sealed turn, with no octet behind its records; nothing where no turn is sealed, or where a line was refused.
    pub fn card(&mut self, heap: Global) -> Result<Option<Vec<u8>>, AllocError>
        ensures card { IfOk result (λ card. GivesCard (view_of self.old) card) }
        ensures read { IfOk result (λ card. (lines : List (List ℕ)) → Promise lines (view_of self.old).state → GivesReadCard (view_of self.old) card) }
        ensures same { self.new ≡ self.old }
    {
        if self.refused {
            return Ok(None);
        }
        match &mut self.stage {
            Stage::Waiting => Ok(None),
            Stage::Flow(making) => making.card(heap),
            Stage::Box(making) => making.card(heap),
        }
    }
}
