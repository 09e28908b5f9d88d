//! Numbers read from their text.
ghost use Rattle.std.specs.Prelude.{◌≡◌, ◌≢◌, ◌^◌, ◌<◌, ◌↔◌, ℤ, IsSome, MatchOption};
ghost use Rattle.std.specs.Str.Parse.{digits_value};
ghost use Rattle.decimal.specs.Numbers.{text_of, HasFewDigits, IsNatural, IsNumber};

/// How many digits a number that is read may have.
const MOST_DIGITS: usize = 10;

/// The number that the octets write, where they are one to ten digits with no leading zero.
fn natural(text: &[u8]) -> Option<u64>
    ensures { MatchOption result
        (IsNatural text.now → ⊥)
        (λ n. IsNatural text.now × (n ≡ digits_value 10 text.now) × (n < 10 ^ 10)) }
{
    if text.len() == 0 || text.len() > MOST_DIGITS {
        return None;
    }
    if text[0] == b'0' && text.len() > 1 {
        return None;
    }
    // A loop and no `fold`: that each sum fits is known only by how many digits stand before it.
    let mut number = 0;
    for octet in text {
        if !octet.is_ascii_digit() {
            return None;
        }
        number = number * 10 + u64::from(*octet - b'0');
    }
    Some(number)
}

/// The number whose text the octets are, where it has at most ten digits.
pub fn read_number(text: &[u8]) -> Option<i64>
    ensures value { MatchOption result
        ((z : ℤ) → HasFewDigits z → text.now ≢ text_of z)
        (λ z. HasFewDigits z × (text.now ≡ text_of z)) }
    ensures shape { IsSome result ↔ IsNumber text.now }
{
    let Some(digits) = text.strip_prefix(b"-") else {
        return Some(natural(text)? as i64);
    };
    let size = natural(digits)?;
    if size == 0 {
        return None;
    }
    Some(-(size as i64))
}
