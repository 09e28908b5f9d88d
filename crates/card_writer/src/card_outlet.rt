//! The card as an outlet: octets that legs are put on.
ghost use Rattle.std.specs.Prelude.{◌≡◌, ◌+◌, ◌*◌, ◌<◌, ◌≤◌, [], length, MatchOption, MatchResult, slice_index_or};
ghost use Rattle.outlet.specs.Outlets.{Put, kept, room};
ghost use Rattle.card.specs.Records.{record_length};
ghost use Rattle.card_writer.specs.Outlet.{on_card, Carded, started, with_record, kept_octets, without_records};
ghost use Rattle.card.specs.Cards.{capacity as the_capacity, listed as the_listed};
ghost use Rattle.card_writer.specs.Laws.Held.{card_within};

use card::header::{capacity, listed, write_count, write_front};
use card::octets::clear;
use card::place::{place_of, record_octets};
use card::record::{read_data, write_data};
use leg::leg::Leg;
use ordinate::kind::Ordinate;
use outlet::outlet::Outlet;
use outlet::put_refusal::PutRefusal;
use std::marker::PhantomData;

/// Writes record `n`, and a count of `n` + 1.
pub(crate) fn add_record<P: Ordinate>(octets: &mut [u8], n: usize, leg: &Leg<P>)
    requires { 8 + record_length P.kind * (n + 1) ≤ length octets.old }
    ensures { octets.new ≡ with_record P.kind octets.old n leg.now }
{
    let from = place_of::<P>(octets, n);
    let to = place_of::<P>(octets, n + 1);
    write_data(leg, &mut octets[from..to]);
    write_count(octets, n + 1);
}

/// Clears the records from `n` to `m`, the last not included, and writes a count of `n`.
fn drop_records<P: Ordinate>(octets: &mut [u8], n: usize, m: usize)
    requires { (n ≤ m) × (8 + record_length P.kind * m ≤ length octets.old) }
    ensures { octets.new ≡ without_records P.kind octets.old n m }
{
    let from = place_of::<P>(octets, n);
    let to = place_of::<P>(octets, m);
    clear(&mut octets[from..to]);
    write_count(octets, n);
}

/// Octets that legs of one kind are put on. Once started they are a card of those legs at any time.
///
/// Contracts speak of the field itself: by its ghost name the owner of the octets knows what they hold once the outlet is gone.
#[derive(Drop)]
pub struct CardOutlet<'a, P: Drop> {
    octets: &'a mut [u8],
    kind: PhantomData<P>,
}

/// Makes the octets a card with no legs; fewer than eight become zeros alone.
pub(crate) fn begin<P: Ordinate>(octets: &mut [u8])
    ensures { octets.new ≡ started P.kind (length octets.old) }
{
    clear(octets);
    write_front::<P>(octets);
}

impl<'a, P: Ordinate> CardOutlet<'a, P> {
    /// Starts a card on these octets.
    pub fn start(octets: &'a mut [u8]) -> CardOutlet<'a, P>
        ensures home { result.octets.ghost_name ≡ octets.entry.ghost_name }
        ensures started { result.octets.now ≡ started P.kind (length octets.old) }
        ensures empty { on_card P.kind result.octets.now ≡ record { legs = []; capacity = the_capacity P.kind (length octets.old) } }
        ensures carded { Carded P.kind result.octets.now }
    {
        begin::<P>(&mut *octets);
        CardOutlet {
            octets,
            kind: PhantomData,
        }
    }

    /// All the octets, as they stand.
    pub fn octets(&self) -> &[u8]
        ensures { result.now ≡ self.now.octets.now }
    {
        &*self.octets
    }
}

// Each method borrows the octets anew, since what is lent straight from `self` loses the facts about it.
#[tactic(auto, using(crate::specs::Laws::Held::length_first))]
// The clauses of the trait stand here once more, of the octets, since they say more of these.
impl<'a, P: Ordinate> Outlet<P> for CardOutlet<'a, P> {
    ghost contents = { λ o. on_card P.kind o.octets.now };

    ghost lawful = { λ o. card_within P.kind o.octets.now };

    fn count(&mut self) -> usize
        ensures same { on_card P.kind self.new.octets.now ≡ on_card P.kind self.old.octets.now }
        ensures value { result ≡ length (on_card P.kind self.old.octets.now).legs }
        ensures home { self.new.octets.ghost_name ≡ self.old.octets.ghost_name }
        ensures octets { self.new.octets.now ≡ self.old.octets.now }
    {
        let octets = &mut *self.octets;
        listed::<P>(octets)
    }

    fn free(&mut self) -> usize
        ensures same { on_card P.kind self.new.octets.now ≡ on_card P.kind self.old.octets.now }
        ensures value { result ≡ room (on_card P.kind self.old.octets.now) }
        ensures home { self.new.octets.ghost_name ≡ self.old.octets.ghost_name }
        ensures octets { self.new.octets.now ≡ self.old.octets.now }
    {
        let octets = &mut *self.octets;
        capacity::<P>(octets.len()) - listed::<P>(octets)
    }

    fn get(&mut self, i: usize) -> Option<Leg<P>>
        ensures same { on_card P.kind self.new.octets.now ≡ on_card P.kind self.old.octets.now }
        ensures finds { MatchOption result (length (on_card P.kind self.old.octets.now).legs ≤ i) (λ l. (i < length (on_card P.kind self.old.octets.now).legs) × (l ≡ slice_index_or (on_card P.kind self.old.octets.now).legs i l)) }
        ensures home { self.new.octets.ghost_name ≡ self.old.octets.ghost_name }
        ensures octets { self.new.octets.now ≡ self.old.octets.now }
    {
        let octets = &mut *self.octets;
        if i >= listed::<P>(octets) {
            return None;
        }
        read_data::<P>(record_octets::<P>(octets, i))
    }

    fn put(&mut self, leg: &Leg<P>) -> Result<(), PutRefusal>
        ensures puts { Put P.kind (on_card P.kind self.old.octets.now) leg.now result (on_card P.kind self.new.octets.now) }
        ensures home { self.new.octets.ghost_name ≡ self.old.octets.ghost_name }
        ensures carded { Carded P.kind self.old.octets.now → Carded P.kind self.new.octets.now }
        ensures octets { MatchResult result (λ _. self.new.octets.now ≡ with_record P.kind self.old.octets.now (the_listed P.kind self.old.octets.now) leg.now) (λ _. self.new.octets.now ≡ self.old.octets.now) }
    {
        if !leg.is_leg() {
            return Err(PutRefusal::NoLeg);
        }
        let octets = &mut *self.octets;
        let n = listed::<P>(octets);
        if n >= capacity::<P>(octets.len()) {
            return Err(PutRefusal::Full);
        }
        add_record(octets, n, leg);
        Ok(())
    }

    fn keep(&mut self, n: usize)
        ensures keeps { on_card P.kind self.new.octets.now ≡ kept n (on_card P.kind self.old.octets.now) }
        ensures home { self.new.octets.ghost_name ≡ self.old.octets.ghost_name }
        ensures carded { Carded P.kind self.old.octets.now → Carded P.kind self.new.octets.now }
        ensures octets { self.new.octets.now ≡ kept_octets P.kind n self.old.octets.now }
    {
        let octets = &mut *self.octets;
        let count = listed::<P>(octets);
        if n < count {
            drop_records::<P>(octets, n, count);
        }
    }
}
