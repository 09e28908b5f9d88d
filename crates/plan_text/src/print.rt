//! The lines that are printed, each into a lent buffer.
ghost use Rattle.std.specs.Prelude.{◌≡◌, ◌<◌, ◌≤◌, length, MatchResult};
ghost use Rattle.leg.specs.Legs.{IsLeg};
ghost use Rattle.plan_text.specs.declared.refusal.TextRefusal.TheVariants.{ShortBuffer as Short};
ghost use Rattle.plan_text.specs.Printing.{Prints, PrintsLeg, leg_line as the_leg_line, sealed_line, refused_line};

use crate::notation::Notation;
use crate::put::{put, put_at, put_item, put_number};
use crate::refusal::TextRefusal;
use leg::leg::Leg;

/// How many octets a buffer must have. No printed line has more.
pub const LINE_ROOM: usize = 160;

/// Checks that the buffer has room for any printed line.
pub fn check_room(buffer: &[u8]) -> Result<(), TextRefusal>
    ensures { MatchResult result (λ _. 160 ≤ length buffer.now) (λ f. (f ≡ Short) × (length buffer.now < 160)) }
{
    if buffer.len() < LINE_ROOM {
        return Err(TextRefusal::ShortBuffer);
    }
    Ok(())
}

/// Prints `(leg (from S) (ticks L) (cell d k) (degree m) (at ..) (at ..) (at ..))`, and answers the line's length.
/// Nothing is printed for data that is no leg.
pub fn print_leg<P: Notation>(leg: &Leg<P>, buffer: &mut [u8]) -> Result<Option<usize>, TextRefusal>
    ensures prints { PrintsLeg P.kind P.at leg.now buffer.old result buffer.new }
    ensures fits { IsLeg P.kind leg.now → length (the_leg_line P.at leg.now) ≤ 145 }
{
    check_room(buffer)?;
    if !leg.is_leg() {
        return Ok(None);
    }
    let end = put(buffer, 0, b"(leg");
    let end = put_item(buffer, end, b"from", &[leg.stretch.from]);
    let end = put_item(buffer, end, b"ticks", &[leg.stretch.ticks]);
    let end = put_item(
        buffer,
        end,
        b"cell",
        &[leg.stretch.cell.depth, leg.stretch.cell.index],
    );
    let end = put_item(buffer, end, b"degree", &[leg.degree]);
    let end = put_at(buffer, end, leg.start.to_at());
    let end = put_at(buffer, end, leg.middle.to_at());
    let end = put_at(buffer, end, leg.end.to_at());
    Ok(Some(put(buffer, end, b")\n")))
}

/// Prints `(sealed (legs N) (ticks T))`, and answers the line's length.
pub fn print_sealed(legs: usize, ticks: u32, buffer: &mut [u8]) -> Result<usize, TextRefusal>
    ensures prints { Prints (sealed_line legs ticks) buffer.old result buffer.new }
    ensures fits { length (sealed_line legs ticks) ≤ 160 }
{
    check_room(buffer)?;
    let end = put(buffer, 0, b"(sealed");
    let end = put_item(buffer, end, b"legs", &[legs]);
    let end = put_item(buffer, end, b"ticks", &[ticks]);
    Ok(put(buffer, end, b")\n"))
}

/// Prints `(refused N (line M))`, and answers the line's length. It takes a number, since most refusals are of crates that this one does not know.
pub fn print_refused(number: u32, line: usize, buffer: &mut [u8]) -> Result<usize, TextRefusal>
    ensures prints { Prints (refused_line number line) buffer.old result buffer.new }
    ensures fits { length (refused_line number line) ≤ 160 }
{
    check_room(buffer)?;
    let end = put(buffer, 0, b"(refused ");
    let end = put_number(buffer, end, number);
    let end = put_item(buffer, end, b"line", &[line]);
    Ok(put(buffer, end, b")\n"))
}
