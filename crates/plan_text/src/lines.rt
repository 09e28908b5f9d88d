//! A text taken apart into lines.
ghost use Rattle.std.specs.Prelude.{◌≡◌, ◌≢◌, ℕ, ◌<◌, ◌≤◌, [], length, MatchOption, MatchResult, slice_index};
ghost use Rattle.plan_text.specs.declared.refusal.TextRefusal.TheVariants.{TextTooLong as TooLong};
ghost use Rattle.plan_text.specs.Lines.{IsFirstLine};

use crate::refusal::TextRefusal;

/// How many octets a text may have.
pub const LONGEST_TEXT: usize = 16_384;

/// Refuses a text of more octets.
pub fn check_length(text: &[u8]) -> Result<(), TextRefusal>
    ensures { MatchResult result (λ _. length text.now ≤ 16384) (λ f. (f ≡ TooLong) × (16384 < length text.now)) }
{
    if text.len() > LONGEST_TEXT {
        return Err(TextRefusal::TextTooLong);
    }
    Ok(())
}

/// The place of the first line feed.
fn line_feed(text: &[u8]) -> Option<usize>
    ensures { MatchOption result
        ((k : ℕ) → k < length text.now → slice_index text.now k ≢ 10)
        (λ i. (i < length text.now) × (slice_index text.now i ≡ 10) × ((k : ℕ) → k < i → slice_index text.now k ≢ 10)) }
{
    text.iter().position(|octet| *octet == b'\n')
}

/// The first line, without its line feed, and what is behind it; nothing where the text has no line, being empty.
pub fn next_line<'a>(text: &'a [u8]) -> Option<(&'a [u8], &'a [u8])>
    ensures { MatchOption result (text.now ≡ []) (λ r. IsFirstLine text.now r.0.now r.1.now) }
{
    if text.len() == 0 {
        return None;
    }
    match line_feed(text) {
        Some(end) => Some((&text[..end], &text[end + 1..])),
        None => Some((text, &text[text.len()..])),
    }
}
