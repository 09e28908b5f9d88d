//! Numbers written as their text.
ghost use Rattle.decimal.specs.Places.{Written};

use itoa::{Buffer, Integer};

/// Writes the number's text into the buffer, from `place` on, and answers how many octets that is.
/// Where there is no room for the text, nothing is written. The whole buffer is lent, since the contract says what is left of it.
pub fn write_number<I: Integer>(number: I, buffer: &mut [u8], place: usize) -> Option<usize>
    ensures { Written (I.text number) place buffer.old result buffer.new }
{
    let mut digits = Buffer::new();
    let text = digits.format(number).as_bytes();
    let end = place.checked_add(text.len())?;
    if end > buffer.len() {
        return None;
    }
    buffer[place..end].copy_from_slice(text);
    Some(text.len())
}
