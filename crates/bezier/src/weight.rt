//! Sums of weighted coordinates, modulo 2^64. For points that may be drawn nothing wraps: their sums stay far below.
ghost use Rattle.std.specs.Prelude.{◌≡◌, ◌+ℤ◌, ◌-ℤ◌};
ghost use Rattle.std.specs.Int.{int_wrap, w64};
ghost use Rattle.distance.specs.Vectors.{◌·◌};

// Functions of their own, though each is one `wrapping_` call: a row of such calls, with their casts, reads worse than
// `minus(times(2, x), times(m, y))`, and so does its proof.

/// `weight` times `value`.
pub(crate) fn times(weight: u32, value: i64) -> i64
    ensures { result ≡ int_wrap w64 (weight · value) }
{
    (weight as i64).wrapping_mul(value)
}

pub(crate) fn plus(a: i64, b: i64) -> i64
    ensures { result ≡ int_wrap w64 (a +ℤ b) }
{
    a.wrapping_add(b)
}

pub(crate) fn minus(a: i64, b: i64) -> i64
    ensures { result ≡ int_wrap w64 (a -ℤ b) }
{
    a.wrapping_sub(b)
}
