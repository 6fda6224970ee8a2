// The integer square root: a guess without division, tested exactly.
ghost use Rattle.std.specs.Prelude.{◌≡◌, pos, ◌+◌, ◌*◌, ◌^◌, ◌%◌, ◌<◌, ◌≤◌, ◌≤ℤ◌, ◌↔◌, IsTrue};
ghost use Rattle.fx_whole.specs.Roots as spec;

use crate::arithmetic::low_half;

/// The greatest integer whose square is at most `n`.
pub fn isqrt(n: i128) -> i128
    requires { pos 0 ≤ℤ n }
    ensures value { result ≡ spec.isqrt n }
    ensures root { spec.IsRoot n result }
{
    let size = n.unsigned_abs();
    let guess = guess(size);
    if is_root(size, guess) {
        return i128::from(guess);
    }
    let next = guess.wrapping_add(1);
    if is_root(size, next) {
        return i128::from(next);
    }
    n.isqrt()
}

/// `isqrt`, where `guess` is tried first.
pub fn isqrt_from(n: &i128, guess: u64) -> i128
    requires { pos 0 ≤ℤ n.now }
    ensures { result ≡ spec.isqrt n.now }
{
    if is_root(n.unsigned_abs(), guess) {
        return i128::from(guess);
    }
    isqrt(*n)
}

/// Nearly always the root of a number near to `2^64`: `2^32` and half of what the number is past
/// that. It is to be tested, so nothing rests on it.
pub fn guess_near_one(n: &i128) -> u64 {
    let past = low_half(n.unsigned_abs()).cast_signed() >> 33;
    (1u64 << 32).wrapping_add(past.cast_unsigned())
}

/// Whether `s` is the integer root of `n`.
fn is_root(n: u128, s: u64) -> bool
    ensures { IsTrue result ↔ (s * s ≤ n × n < (s + 1) * (s + 1)) }
{
    square(s) <= n && n - square(s) <= 2 * u128::from(s)
}

/// `s * s`.
fn square(s: u64) -> u128
    ensures { result ≡ s * s }
{
    u128::from(s) * u128::from(s)
}

/// Nearly always the root of `n`, or one less. What it gives is tested, so nothing rests on it.
fn guess(n: u128) -> u64 {
    // n times a power of four, from 2^126 up (0 stays 0): its root is n's times a power of two
    let shift = n.leading_zeros() & 126;
    let raised = n << shift;
    let x = low_half(raised >> 64);
    let inverse = closer(x, closer(x, closer(x, parabola(x))));
    // x / sqrt x, and one of Newton's steps towards the root
    let root = high_product(x, inverse) << 2;
    let rest = low_half(raised.wrapping_sub(square(root)) >> 32);
    let more = low_half(u128::from(rest) * u128::from(inverse) >> 95);
    root.wrapping_add(more) >> (shift >> 1)
}

/// 1 / sqrt x within 2.5 %, for x from 1/4 to 1: 2.6708 - 3.2854 x + 1.6386 x^2. Here and in
/// `closer` x stands at scale 2^64 and the inverse of its root at 2^62.
fn parabola(x: u64) -> u64 {
    let slope = 0xD243_4869_0000_0000u64.wrapping_sub(high_product(x, 0x68DE_4BC3_0000_0000));
    0xAAEE_F78E_0000_0000u64.wrapping_sub(high_product(x, slope))
}

/// One of Newton's steps towards `1 / sqrt x`, `y (3 - x y^2) / 2`: it doubles the digits that are
/// right. It is rounded down past its own error, so that the root is never too large.
fn closer(x: u64, y: u64) -> u64 {
    let left = 0x2FFF_FFFF_FFFF_FFFEu64.wrapping_sub(high_product(x, high_product(y, y)));
    high_product(y, left) << 3
}

/// The high 64 bits of `a * b`.
fn high_product(a: u64, b: u64) -> u64 {
    low_half(u128::from(a) * u128::from(b) >> 64)
}
