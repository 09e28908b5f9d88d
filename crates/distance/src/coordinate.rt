//! One coordinate: its size, and the half way between two.
ghost use Rattle.std.specs.Prelude.{◌≡◌, ◌+ℤ◌};
ghost use Rattle.std.specs.Int.Signed.{shr_z};
ghost use Rattle.distance.specs.Measures.{bounded};

/// Whether |value| is at most `r`; never where `r` is negative.
pub fn is_bounded(value: i64, r: i64) -> bool
    ensures { result ≡ bounded value r }
{
    if r < 0 {
        return false;
    }
    -r <= value && value <= r
}

/// (a + b) / 2, rounded towards minus infinity.
pub fn half(a: i64, b: i64) -> i64
    ensures { result ≡ shr_z (a +ℤ b) 2 }
{
    ((a as i128 + b as i128) >> 1) as i64
}
