// Rounding by a power of two: by one sum and one shift, and what it tells before and after.
ghost use Rattle.std.specs.Prelude.{IsTrue, ◌≡◌, pos, ◌+◌, ◌-◌, ◌*◌, ◌^◌, ◌<◌, ◌≤◌, ◌+ℤ◌, ◌-ℤ◌, ◌*ℤ◌, ◌<ℤ◌, ◌≤ℤ◌, unsigned_abs};
ghost use Rattle.fx_whole.specs.Nearest as spec;

use crate::arithmetic::{is_between, narrow, scale_up};

/// `n / 2^shift`, rounded down.
fn floor_shift(n: &i128, shift: u32) -> i128
    requires { shift ≤ 126 }
    ensures below { (result *ℤ pos (2 ^ shift)) ≤ℤ n.now }
    ensures above { n.now <ℤ (result *ℤ pos (2 ^ shift) +ℤ pos (2 ^ shift)) }
{
    *n >> shift
}

/// Half of `2^shift`.
fn half_power(shift: u32) -> u64
    requires positive { 1 ≤ shift }
    requires in_width { shift ≤ 64 }
    ensures value { result ≡ 2 ^ (shift - 1) }
    ensures bound { result ≤ 2 ^ 63 }
{
    1u64 << (shift - 1)
}

/// `n` and half, less one where `n` isn't negative.
fn past_half(n: &i128, half: u64) -> i128
    requires positive { 0 < half }
    requires bound { half ≤ 2 ^ 63 }
    requires room { n.now <ℤ pos (2 ^ 126) }
    ensures negative { n.now <ℤ pos 0 → result ≡ n.now +ℤ pos half }
    ensures positive { pos 0 ≤ℤ n.now → result ≡ (n.now +ℤ pos half) -ℤ pos 1 }
{
    *n + i128::from(half - 1 + u64::from(*n < 0))
}

/// `nearest_shift` of a number below 2^126 by 1 to 64 bits: half of `2^shift` is added, less one
/// where the number isn't negative, and the low bits are dropped.
#[tactic(auto, using(crate::proofs::ShiftLaws::nearest_by_shift))]
pub fn nearest_by_half(n: &i128, shift: u32) -> i128
    requires positive { 1 ≤ shift }
    requires in_width { shift ≤ 64 }
    requires room { n.now <ℤ pos (2 ^ 126) }
    ensures { result ≡ spec.nearest n.now (pos (2 ^ shift)) }
{
    floor_shift(&past_half(n, half_power(shift)), shift)
}

/// `m 2^shift`.
#[tactic(auto, using(crate::proofs::ShiftLaws::scaled_bound))]
fn scaled(m: &i64, shift: u32) -> i128
    requires { shift ≤ 63 }
    ensures value { result ≡ m.now *ℤ pos (2 ^ shift) }
    ensures size { unsigned_abs result ≡ unsigned_abs m.now * 2 ^ shift }
    ensures bound { unsigned_abs result ≤ 2 ^ 126 }
{
    scale_up(*m, shift)
}

/// `a + half`.
fn plus_half(a: &i128, half: u64) -> i128
    requires not_negative { pos 0 ≤ℤ a.now }
    requires fits { unsigned_abs a.now + half < 2 ^ 127 }
    ensures value { unsigned_abs result ≡ unsigned_abs a.now + half }
    ensures not_negative { pos 0 ≤ℤ result }
{
    *a + i128::from(half)
}

/// The greatest number that is rounded to at most `limit`.
#[tactic(auto, using(crate::proofs::ShiftLaws::twice_half))]
fn greatest_within(limit: &i64, shift: u32) -> i128
    requires limit { pos 0 ≤ℤ limit.now }
    requires room { unsigned_abs limit.now < 2 ^ 63 }
    requires positive { 1 ≤ shift }
    requires in_width { shift ≤ 63 }
    ensures value { 2 * unsigned_abs result ≡ (2 * unsigned_abs limit.now + 1) * 2 ^ shift }
    ensures not_negative { pos 0 ≤ℤ result }
{
    plus_half(&scaled(limit, shift), half_power(shift))
}

/// Whether `n / 2^shift` is rounded to at most `limit` in size, told by `n` itself: its size is at
/// most that of the greatest number that is.
#[tactic(auto, using(crate::proofs::ShiftLaws::greatest_small))]
pub fn is_rounded_within(n: &i128, limit: &i64, shift: u32) -> bool
    requires limit { pos 0 ≤ℤ limit.now }
    requires room { unsigned_abs limit.now < 2 ^ 63 }
    requires positive { 1 ≤ shift }
    requires in_width { shift ≤ 63 }
    ensures within { IsTrue result
        → unsigned_abs (spec.nearest n.now (pos (2 ^ shift))) ≤ unsigned_abs limit.now }
    ensures whole { unsigned_abs (spec.nearest n.now (pos (2 ^ shift))) ≤ unsigned_abs limit.now
        → IsTrue result }
    ensures small { IsTrue result → unsigned_abs n.now < 2 ^ 126 }
{
    is_between(n, &greatest_within(limit, shift))
}

/// `a - b`, in 64 bits.
fn narrow_difference(a: &i128, b: &i128) -> i64
    requires fits { unsigned_abs a.now + unsigned_abs b.now < 2 ^ 127 }
    requires small { unsigned_abs (a.now -ℤ b.now) < 2 ^ 63 }
    ensures { result ≡ a.now -ℤ b.now }
{
    narrow(*a - *b)
}

/// What is left of `n` past `m 2^shift`, the multiple that it is rounded to. It needs no more than
/// 64 bits.
#[tactic(auto, using(crate::proofs::ShiftLaws::rest_small))]
pub fn rounding_rest(n: &i128, m: &i64, shift: u32) -> i64
    requires in_width { shift ≤ 63 }
    requires small { unsigned_abs n.now < 2 ^ 126 }
    requires rounded { m.now ≡ spec.nearest n.now (pos (2 ^ shift)) }
    ensures { result ≡ n.now -ℤ m.now *ℤ pos (2 ^ shift) }
{
    narrow_difference(n, &scaled(m, shift))
}
