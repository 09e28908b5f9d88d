//! Points, legs, octets and outlets as text.
use card_writer::card_outlet::CardOutlet;
use leg::leg::Leg;
use ordinate::kind::Ordinate;
use outlet::table::RecordTable;
use std::alloc::Global;

/// Adds the coordinates, each with a space before it.
pub fn add_point<P: Ordinate>(text: &mut String, point: P) -> anyhow::Result<()> {
    // by index, as a point is no slice of its coordinates
    for i in 0..P::dimension() {
        write!(text, " {}", point.coordinate(i))?;
    }
    Ok(())
}

/// The numbers of the leg, as a script gives them.
pub fn leg_text<P: Ordinate>(heap: Global, leg: &Leg<P>) -> anyhow::Result<String> {
    let stretch = leg.stretch;
    let mut text = format!(in heap;
        "{} {} {} {} {}",
        stretch.from, stretch.ticks, stretch.cell.depth, stretch.cell.index, leg.degree
    )?;
    add_point(&mut text, leg.start)?;
    add_point(&mut text, leg.middle)?;
    add_point(&mut text, leg.end)?;
    Ok(text)
}

/// The octets in hexadecimal; a dash where there are none, so that a word stands there.
pub fn hex_text(heap: Global, octets: &[u8]) -> anyhow::Result<String> {
    let mut text = String::new(heap);
    if octets.len() == 0 {
        text.push('-')?;
    }
    for octet in octets {
        write!(text, "{octet:02x}")?;
    }
    Ok(text)
}

/// An outlet of which all can be shown, and not only the legs that it holds.
pub trait Shown {
    /// One line, without its end. The outlet's count and room are given, since only an outlet that may be worked can tell them.
    fn shown(&self, heap: Global, count: usize, free: usize) -> anyhow::Result<String>;
}

impl<P: Ordinate> Shown for RecordTable<P> {
    fn shown(&self, heap: Global, count: usize, free: usize) -> anyhow::Result<String> {
        let mut text = format!(in heap; "table {count} {free}")?;
        for leg in self.records() {
            write!(text, " | {}", leg_text(heap, leg)?)?;
        }
        Ok(text)
    }
}

impl<'a, P: Ordinate> Shown for CardOutlet<'a, P> {
    fn shown(&self, heap: Global, count: usize, free: usize) -> anyhow::Result<String> {
        let octets = hex_text(heap, self.octets())?;
        Ok(format!(in heap; "card {count} {free} {octets}")?)
    }
}
