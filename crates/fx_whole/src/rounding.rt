// Rounding to the nearest integer.
ghost use Rattle.std.specs.Prelude.{◌≡◌, pos, ◌+◌, ◌-◌, ◌*◌, ◌/◌, ◌^◌, ◌<◌, ◌≤◌, ◌<ℤ◌, unsigned_abs};
ghost use Rattle.fx_whole.specs.Nearest as spec;

use crate::shifting::nearest_by_half;

/// `size` with the sign of `of`. The least i128 is its own negative, so it comes out right too.
pub fn with_sign(of: i128, size: u128) -> i128
    requires { size ≤ unsigned_abs of }
    ensures { result ≡ spec.with_sign of size }
{
    let plain = size.cast_signed();
    if of < 0 { plain.wrapping_neg() } else { plain }
}

/// The size of a rounded quotient, from the sizes of its parts: `(2 n + (d - 1)) / (2 d)`.
pub fn nearest_size(n: u128, d: u128) -> u128
    requires positive { 0 < d }
    requires small { n ≤ 2 ^ 127 }
    ensures value { result ≡ (2 * n + (d - 1)) / (2 * d) }
{
    let quotient = n / d;
    let rest = n - quotient * d;
    if rest > d - rest {
        quotient + 1
    } else {
        quotient
    }
}

/// `nearest_size` for `d = 2^shift`: half of `d - 1` is added and the low bits are dropped.
fn nearest_size_shift(n: u128, shift: u32) -> u128
    requires in_width { shift ≤ 126 }
    requires small { n ≤ 2 ^ 127 }
    ensures value { result ≡ (2 * n + (2 ^ shift - 1)) / (2 * 2 ^ shift) }
{
    let divisor = 1u128 << shift;
    (n + ((divisor - 1) >> 1)) >> shift
}

/// The integer nearest to `n / d`; of two that are equally near, the one nearer to zero.
pub fn nearest(n: i128, d: i128) -> i128
    requires { pos 0 <ℤ d }
    ensures formula { result ≡ spec.nearest n d }
    ensures property { spec.IsNearest n d result }
{
    with_sign(n, nearest_size(n.unsigned_abs(), d.unsigned_abs()))
}

/// `nearest_shift` by the size of `n`, for every number and shift.
fn nearest_shift_by_size(n: i128, shift: u32) -> i128
    requires { shift ≤ 126 }
    ensures { result ≡ spec.nearest n (pos (2 ^ shift)) }
{
    with_sign(n, nearest_size_shift(n.unsigned_abs(), shift))
}

/// The integer nearest to `n / 2^shift`, a tie to the one nearer to zero: `nearest` with no
/// division.
pub fn nearest_shift(n: i128, shift: u32) -> i128
    requires { shift ≤ 126 }
    ensures formula { result ≡ spec.nearest n (pos (2 ^ shift)) }
    ensures property { spec.IsNearest n (pos (2 ^ shift)) result }
{
    if 1 <= shift && shift <= 64 && n < 1 << 126 {
        nearest_by_half(&n, shift)
    } else {
        nearest_shift_by_size(n, shift)
    }
}
