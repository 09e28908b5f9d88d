//! Parts of a line, written into a buffer that has room for them.
ghost use Rattle.std.specs.Prelude.{◌≡◌, ◌+◌, ◌≤◌, [], ◌∷◌, length, map, codes};
ghost use Rattle.decimal.specs.Places.{over};
ghost use Rattle.plan_text.specs.Texts.{listed, spaced};
ghost use Rattle.plan_text.specs.Forms.{at_text};

use crate::form::At;
use decimal::write::write_number;
use itoa::Integer;

/// Writes the octets from `place` on, and answers where they end.
pub(crate) fn put(buffer: &mut [u8], place: usize, octets: &[u8]) -> usize
    requires { place + length octets.now ≤ length buffer.old }
    ensures written { buffer.new ≡ over buffer.old place octets.now }
    ensures end { result ≡ place + length octets.now }
{
    let end = place + octets.len();
    buffer[place..end].copy_from_slice(octets);
    end
}

/// Writes the number's text from `place` on, and answers where it ends.
pub(crate) fn put_number<I: Integer>(buffer: &mut [u8], place: usize, number: I) -> usize
    requires { place + length (I.text number) ≤ length buffer.old }
    ensures written { buffer.new ≡ over buffer.old place (I.text number) }
    ensures end { result ≡ place + length (I.text number) }
{
    // The room is there, so the number was written.
    place + write_number(number, buffer, place).unwrap()
}

/// Writes the numbers, each behind a space.
fn put_numbers<I: Integer>(buffer: &mut [u8], place: usize, numbers: &[I]) -> usize
    requires { place + length (spaced (map I.text numbers.now)) ≤ length buffer.old }
    ensures written { buffer.new ≡ over buffer.old place (spaced (map I.text numbers.now)) }
    ensures end { result ≡ place + length (spaced (map I.text numbers.now)) }
{
    let mut end = place;
    for number in numbers {
        end = put(buffer, end, b" ");
        end = put_number(buffer, end, *number);
    }
    end
}

/// Writes a space and the list `(name N ..)`.
pub(crate) fn put_item<I: Integer>(
    buffer: &mut [u8],
    place: usize,
    name: &[u8],
    numbers: &[I],
) -> usize
    requires { place + length (spaced (listed name.now (map I.text numbers.now) ∷ [])) ≤ length buffer.old }
    ensures written { buffer.new ≡ over buffer.old place (spaced (listed name.now (map I.text numbers.now) ∷ [])) }
    ensures end { result ≡ place + length (spaced (listed name.now (map I.text numbers.now) ∷ [])) }
{
    let end = put(buffer, place, b" (");
    let end = put(buffer, end, name);
    let end = put_numbers(buffer, end, numbers);
    put(buffer, end, b")")
}

/// Writes a space and the `at`.
pub(crate) fn put_at(buffer: &mut [u8], place: usize, at: At) -> usize
    requires { place + length (spaced (at_text at ∷ [])) ≤ length buffer.old }
    ensures written { buffer.new ≡ over buffer.old place (spaced (at_text at ∷ [])) }
    ensures end { result ≡ place + length (spaced (at_text at ∷ [])) }
{
    match at {
        At::One(a) => put_item(buffer, place, b"at", &[a]),
        At::Two(a, b) => put_item(buffer, place, b"at", &[a, b]),
    }
}
