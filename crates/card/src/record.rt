//! One record: the octets of one leg, whatever header and chain it stands in.
ghost use Rattle.std.specs.Prelude.{◌≡◌, ◌+◌, ◌*◌, ◌≤◌, false, IsTrue, ◌↔◌, length, MatchOption, ◌≢◌};
ghost use Rattle.std.proofs.Math.Seq.{paste};
ghost use Rattle.ordinate.specs.Kinds.{point_octets};
ghost use Rattle.leg.specs.Legs.{IsLeg};
ghost use Rattle.leg.specs.declared.leg.Leg.{Leg as LegT};
ghost use Rattle.card.specs.Records.{point_at, leg_of, record_octets, record_length};

use crate::octets::{field, write_field};
use leg::leg::{Cell, Leg, Stretch};
use ordinate::kind::Ordinate;

/// How many octets a record of this kind has: a head of twelve, and three points.
pub fn length_of_record<P: Ordinate>() -> usize
    ensures { result ≡ record_length P.kind }
{
    12 + 24 * P::dimension()
}

fn read_point<P: Ordinate>(octets: &[u8], at: usize) -> P
    requires { at + 8 * P.kind.dimension ≤ length octets.now }
    ensures { result ≡ point_at P.kind at octets.now }
{
    let (coordinates, _) = octets[at..at + 8 * P::dimension()].as_chunks::<8>();
    let mut p = P::zero();
    for (i, coordinate) in coordinates.iter().enumerate() {
        p = p.with(i, *coordinate);
    }
    p
}

/// The data in the octets of a record, which may be no leg's.
pub(crate) fn decode<P: Ordinate>(octets: &[u8]) -> Leg<P>
    requires { length octets.now ≡ record_length P.kind }
    ensures { result ≡ leg_of P.kind octets.now }
{
    let width = 8 * P::dimension();
    let cell = Cell {
        depth: field(octets, 6, 1),
        index: field(octets, 8, 2),
    };
    let stretch = Stretch {
        from: field(octets, 0, 4),
        ticks: field(octets, 4, 2),
        cell,
    };
    let degree = field(octets, 7, 1);
    let start = read_point(octets, 12);
    let middle = read_point(octets, 12 + width);
    let end = read_point(octets, 12 + 2 * width);
    Leg {
        stretch,
        degree,
        start,
        middle,
        end,
    }
}

/// The data in a record, which may be no leg's; nothing where the octets are not as many as a record's.
pub fn read_data<P: Ordinate>(octets: &[u8]) -> Option<Leg<P>>
    ensures { MatchOption result (length octets.now ≢ record_length P.kind) (λ l. (length octets.now ≡ record_length P.kind) × (l ≡ leg_of P.kind octets.now)) }
{
    if octets.len() != length_of_record::<P>() {
        return None;
    }
    Some(decode::<P>(octets))
}

/// The leg whose record this is; none where no leg has these octets.
pub fn read_record<P: Ordinate>(octets: &[u8]) -> Option<Leg<P>>
    ensures { MatchOption result ((l : LegT P) → IsLeg P.kind l → record_octets P.kind l ≢ octets.now) (λ l. IsLeg P.kind l × (record_octets P.kind l ≡ octets.now)) }
{
    if octets.len() != length_of_record::<P>() {
        return None;
    }
    let spare = field(octets, 10, 2);
    if spare != 0 {
        return None;
    }
    let leg = decode::<P>(octets);
    if leg.is_leg() { Some(leg) } else { None }
}

fn write_point<P: Ordinate>(into: &mut [u8], at: usize, p: P)
    requires { at + 8 * P.kind.dimension ≤ length into.old }
    ensures { into.new ≡ paste into.old at (point_octets P.kind p) (8 * P.kind.dimension) }
{
    // By index, since nothing is known of a slice after its chunks are lent to be written.
    for i in 0..P::dimension() {
        let octets = p.octets(i);
        into[at + 8 * i..at + 8 * i + 8].copy_from_slice(&octets);
    }
}

/// Writes the record of a leg from its front on.
pub(crate) fn encode<P: Ordinate>(leg: &Leg<P>, into: &mut [u8])
    requires { length into.old ≡ record_length P.kind }
    ensures { into.new ≡ record_octets P.kind leg.now }
{
    let width = 8 * P::dimension();
    write_field(into, 0, 4, leg.stretch.from as u64);
    write_field(into, 4, 2, leg.stretch.ticks as u64);
    write_field(into, 6, 1, leg.stretch.cell.depth as u64);
    write_field(into, 7, 1, leg.degree as u64);
    write_field(into, 8, 2, leg.stretch.cell.index as u64);
    write_field(into, 10, 2, 0);
    write_point(into, 12, leg.start);
    write_point(into, 12 + width, leg.middle);
    write_point(into, 12 + 2 * width, leg.end);
}

/// Writes the record of any data, a leg's or not, and says so; octets that are not as many as a record's are left alone.
pub fn write_data<P: Ordinate>(leg: &Leg<P>, into: &mut [u8]) -> bool
    ensures fits { IsTrue result ↔ length into.old ≡ record_length P.kind }
    ensures written { IsTrue result → into.new ≡ record_octets P.kind leg.now }
    ensures same { result ≡ false → into.new ≡ into.old }
{
    if into.len() != length_of_record::<P>() {
        return false;
    }
    encode(leg, into);
    true
}

/// Writes the record of a leg, and says so; data that is no leg, and octets that are not as many as a record's, are left alone.
pub fn write_record<P: Ordinate>(leg: &Leg<P>, into: &mut [u8]) -> bool
    ensures fits { IsTrue result ↔ IsLeg P.kind leg.now × (length into.old ≡ record_length P.kind) }
    ensures written { IsTrue result → into.new ≡ record_octets P.kind leg.now }
    ensures same { result ≡ false → into.new ≡ into.old }
{
    if !leg.is_leg() {
        return false;
    }
    write_data(leg, into)
}
