//! The record table: an outlet in memory of its own.
ghost use Rattle.std.specs.Prelude.{◌≡◌, ◌<◌, ◌≤◌, [], length, replicate, IfErr, IfOk, MatchOption, slice_index_or};
ghost use Rattle.outlet.specs.Outlets.{Put, blank_leg as the_blank_leg, held, kept, records_of};
ghost use Rattle.outlet.specs.Laws.Tables.{held_within};

use crate::outlet::Outlet;
use crate::put_refusal::PutRefusal;
use leg::leg::{Cell, Leg, Stretch};
use ordinate::kind::Ordinate;
use std::alloc::{AllocError, Global};
use std::marker::Model;

/// The legs stand in the first records, and all others are blank.
#[derive(Drop)]
pub struct RecordTable<P> {
    records: Vec<Leg<P>>,
    count: usize,
    blank: Leg<P>,
}

impl<P> Model for RecordTable<P> {
    ghost use Rattle.std.specs.Prelude.{◌-◌, length, take};
    ghost use Rattle.std.specs.Vec.{vec_allocator, vec_capacity, vec_ptr};
    ghost use Rattle.outlet.specs.Outlets.{BlankFrom, Placed, Table};

    ghost Value = { Placed P };

    ghost view = { λ t. record { records = record { legs = take t.count t.records.items; blanks = length t.records.items - t.count; blank = t.blank }; block = record { start = vec_ptr t.records; capacity = vec_capacity t.records; allocator = vec_allocator t.records } } };

    ghost invariant = { λ t. BlankFrom t.count t.records.items t.blank };
}

/// The blank leg: one tick from tick 0, straight, at zero.
fn blank_leg<P: Ordinate>() -> Leg<P>
    ensures { result ≡ the_blank_leg P.kind }
{
    let zero = P::zero();
    let cell = Cell { depth: 0, index: 0 };
    Leg {
        stretch: Stretch {
            from: 0,
            ticks: 1,
            cell,
        },
        degree: 1,
        start: zero,
        middle: zero,
        end: zero,
    }
}

/// So many records, all this leg.
// `vec!` and `fill` clone what they write, and a kind need not say what its clones are.
fn filled<P: Copy>(heap: Global, leg: Leg<P>, n: usize) -> Result<Vec<Leg<P>>, AllocError>
    ensures { IfOk result (λ v. v.items ≡ replicate n leg) }
{
    let mut records = Vec::with_capacity(heap, n)?;
    for _ in 0..n {
        records.push(leg)?;
    }
    Ok(records)
}

/// Writes the leg over all of these records.
fn overwrite<P: Copy>(records: &mut [Leg<P>], leg: Leg<P>)
    ensures { records.new ≡ replicate (length records.old) leg }
{
    for each in records.iter_mut() {
        *each = leg;
    }
}

impl<P: Ordinate> RecordTable<P> {
    /// A table of so many records, all blank, with all the memory that it will need.
    pub fn start(heap: Global, capacity: usize) -> Result<RecordTable<P>, AllocError>
        ensures { IfOk result (λ t. t.records ≡ record { legs = []; blanks = capacity; blank = the_blank_leg P.kind }) }
    {
        let blank = blank_leg::<P>();
        Ok(RecordTable {
            records: filled(heap, blank, capacity)?,
            count: 0,
            blank,
        })
    }

    /// All records: the legs, then blanks.
    pub fn records(&self) -> &[Leg<P>]
        ensures { result.now ≡ records_of self.now.records }
    {
        self.records.as_slice()
    }
}

// The clauses of the trait stand here once more, of the table as it is seen, since they say more of it.
// What it holds and its blank leg are all that is seen of its records (`held_tells` in specs/Laws/Tables.antt), so put and keep leave nothing of these open.
// Where nothing changes, the memory of the records is the same too.
impl<P: Ordinate> Outlet<P> for RecordTable<P> {
    ghost contents = { λ t. held t.records };

    ghost lawful = { λ t. held_within t.records };

    fn count(&mut self) -> usize
        ensures same { self.new ≡ self.old }
        ensures value { result ≡ length self.old.records.legs }
    {
        // Kept, not found from the records: a leg may look like the blank one.
        self.count
    }

    fn free(&mut self) -> usize
        ensures same { self.new ≡ self.old }
        ensures value { result ≡ self.old.records.blanks }
    {
        self.records.len() - self.count
    }

    fn get(&mut self, i: usize) -> Option<Leg<P>>
        ensures same { self.new ≡ self.old }
        ensures finds { MatchOption result (length self.old.records.legs ≤ i) (λ l. (i < length self.old.records.legs) × (l ≡ slice_index_or self.old.records.legs i l)) }
    {
        if i < self.count {
            return Some(self.records[i]);
        }
        None
    }

    fn put(&mut self, leg: &Leg<P>) -> Result<(), PutRefusal>
        ensures puts { Put P.kind (held self.old.records) leg.now result (held self.new.records) }
        ensures blank { self.new.records.blank ≡ self.old.records.blank }
        ensures refused { IfErr result (λ _. self.new ≡ self.old) }
    {
        if !leg.is_leg() {
            return Err(PutRefusal::NoLeg);
        }
        let at = self.count;
        if at >= self.records.len() {
            return Err(PutRefusal::Full);
        }
        self.records[at] = *leg;
        self.count = at + 1;
        Ok(())
    }

    fn keep(&mut self, n: usize)
        ensures keeps { held self.new.records ≡ kept n (held self.old.records) }
        ensures blank { self.new.records.blank ≡ self.old.records.blank }
        ensures whole { length self.old.records.legs ≤ n → self.new ≡ self.old }
    {
        if n < self.count {
            overwrite(&mut self.records[n..self.count], self.blank);
            self.count = n;
        }
    }
}
