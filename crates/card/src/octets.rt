//! Numbers and zeros among octets. A field is named by its place and its width, as the table of the card format does.
ghost use Rattle.std.specs.Prelude.{◌≡◌, ℕ, ◌+◌, ◌≤◌, length, replicate, MatchOption, ◌≢◌, slice_index};
ghost use Rattle.std.proofs.Math.Seq.{paste};
ghost use Rattle.ordinate.specs.Octets.{be};
ghost use Rattle.card.specs.Records.{field as the_field};

/// The number that the `n` octets from `at` on write, the most significant first.
pub(crate) fn field(octets: &[u8], at: usize, n: usize) -> u32
    requires { (at + n ≤ length octets.now) × (n ≤ 4) }
    ensures { result ≡ the_field at n octets.now }
{
    let mut wide = [0u8; 4];
    wide[4 - n..].copy_from_slice(&octets[at..at + n]);
    u32::from_be_bytes(wide)
}

/// The place of an octet that is not zero.
pub(crate) fn first_set(octets: &[u8]) -> Option<usize>
    ensures { MatchOption result ((k : ℕ) → slice_index octets.now k ≡ 0) (λ k. slice_index octets.now k ≢ 0) }
{
    octets.iter().position(|octet| *octet != 0)
}

/// Writes the `n` lowest octets of `x`, from `at` on, the most significant first.
pub(crate) fn write_field(into: &mut [u8], at: usize, n: usize, x: u64)
    requires { (at + n ≤ length into.old) × (n ≤ 8) }
    ensures { into.new ≡ paste into.old at (be n x) n }
{
    let octets = x.to_be_bytes();
    into[at..at + n].copy_from_slice(&octets[8 - n..]);
}

/// Writes zeros over the whole of `into`.
pub fn clear(into: &mut [u8])
    ensures { into.new ≡ replicate (length into.old) 0 }
{
    into.fill(0);
}
