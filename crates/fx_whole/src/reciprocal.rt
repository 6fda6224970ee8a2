// Rounded quotients by a divisor that is used often: a guess by its reciprocal, tested exactly.
ghost use Rattle.std.specs.Prelude.{◌≡◌, pos, ◌+◌, ◌-◌, ◌*◌, ◌/◌, ◌^◌, ◌<◌, ◌≤◌, ◌<ℤ◌, ◌≤ℤ◌, IsTrue, unsigned_abs};
ghost use Rattle.fx_whole.specs.Nearest as spec;

use crate::arithmetic::low_half;
use crate::rounding::{nearest_size, with_sign};

/// A divisor from 1 to 2^73, with its reciprocal.
#[derive(Clone, Copy, Debug, PartialEq, Eq)]
pub struct Divisor {
    /// The divisor.
    pub d: i128,
    // d, from 2^10 up, has shift + 11 bits, and inverse is about 2^(74 + shift) / d. Quotients rest
    // on neither.
    shift: u32,
    inverse: u64,
    pub ghost positive: { pos 0 <ℤ d },
    pub ghost bounded: { d ≤ℤ pos (2 ^ 73) },
    ghost narrow: { shift < 64 },
}

impl Divisor {
    /// `d` with its reciprocal, for one division of 128 bits.
    pub fn new(d: i128) -> Divisor
        requires positive { pos 0 <ℤ d }
        requires bounded { d ≤ℤ pos (2 ^ 73) }
        ensures { result.d ≡ d }
    {
        let size = d.unsigned_abs();
        let bits = 128 - size.leading_zeros().min(127);
        Divisor {
            d,
            shift: bits.max(11).min(74) - 11,
            inverse: reciprocal(size),
        }
    }
}

/// 2^127 / d, where d stands for its leading 64 bits.
fn reciprocal(d: u128) -> u64 {
    let leading = (d << d.leading_zeros().min(127)) >> 64;
    low_half((u128::MAX >> 1) / leading.max(1))
}

/// The integer nearest to `n / by.d`, a tie to the one nearer to zero: `nearest`, with no division
/// where the quotient is below 2^53 and the divisor from 2^10 up, but for ties and a few near them.
pub fn nearest_by(n: i128, by: &Divisor) -> i128
    ensures formula { result ≡ spec.nearest n by.now.d }
    ensures property { spec.IsNearest n by.now.d result }
{
    with_sign(n, nearest_size_by(n.unsigned_abs(), by))
}

/// `nearest_size` by a divisor with its reciprocal.
fn nearest_size_by(n: u128, by: &Divisor) -> u128
    requires small { n ≤ 2 ^ 127 }
    ensures { result ≡ (2 * n + (unsigned_abs by.now.d - 1)) / (2 * unsigned_abs by.now.d) }
{
    let d = by.d.unsigned_abs();
    let guess = guess(n, by);
    if is_close(n, u128::from(guess) * d, d) {
        u128::from(guess)
    } else {
        nearest_size(n, d)
    }
}

/// Nearly always the rounded quotient, where that is below 2^53 and the divisor from 2^10 up. What
/// it gives is tested, so nothing rests on it.
fn guess(n: u128, by: &Divisor) -> u64
    ensures { result < 2 ^ 54 }
{
    let product = u128::from(low_half(n >> by.shift)) * u128::from(by.inverse);
    (product.wrapping_add(1 << 73) >> 74) as u64
}

/// Whether `product`, a multiple of `d`, is less than half of `d` away from `n`.
fn is_close(n: u128, product: u128, d: u128) -> bool
    requires positive { 0 < d }
    ensures above { IsTrue result → 2 * n < 2 * product + d }
    ensures below { IsTrue result → 2 * product < 2 * n + d }
{
    n.abs_diff(product) <= (d - 1) >> 1
}
