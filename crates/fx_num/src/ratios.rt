// Quotients of numbers at scale 32 by numbers that are no smaller, rounded once.
ghost use Rattle.std.specs.Prelude.{IsTrue, ◌≡◌, ◌*◌, ◌^◌, ◌<◌, ◌≤◌, pos, ◌-ℤ◌, ◌*ℤ◌, ◌<ℤ◌, ◌≤ℤ◌, unsigned_abs};
ghost use Rattle.fx_num.specs.Scalars as spec;

use crate::number::Fix;
use fx_whole::{difference, is_between, narrow, nearest, product, scale_up};

/// `n / d` for a divisor that is no smaller than `n`, rounded: at most 1.
pub fn ratio(n: &Fix<32>, d: &Fix<32>) -> Fix<32>
    requires positive { pos 0 <ℤ d.now.mid }
    requires covers { unsigned_abs n.now.mid ≤ unsigned_abs d.now.mid }
    ensures value { result.mid ≡ spec.over n.now.mid d.now.mid }
    ensures size { unsigned_abs result.mid ≤ 2 ^ 32 }
{
    Fix::from_raw(narrow(nearest(scale_up(n.mid, 32), i128::from(d.mid))))
}

/// Nearly always `n / d`, where `d` is near to 1. What it gives is tested, so nothing rests on it.
fn guess(n: i64, d: i64) -> i64 {
    let past = d.wrapping_sub(1 << 32);
    n.wrapping_sub(n.wrapping_mul(past).wrapping_add(1 << 31) >> 32)
}

/// `n 2^32 - m d`: what is left of `n` past `m` times `d`.
fn rest(n: &Fix<32>, m: &Fix<32>, d: &Fix<32>) -> i128
    ensures { result ≡ n.now.mid *ℤ pos (2 ^ 32) -ℤ m.now.mid *ℤ d.now.mid }
{
    difference(scale_up(n.mid, 32), product(m.mid, d.mid))
}

/// The greatest number below half of `d`.
fn below_half(d: &Fix<32>) -> i128
    requires { pos 0 <ℤ d.now.mid }
    ensures not_negative { pos 0 ≤ℤ result }
    ensures small { 2 * unsigned_abs result < unsigned_abs d.now.mid }
{
    i128::from((d.mid - 1) >> 1)
}

/// Whether `m` is nearest to `n / d`, and no other number is as near.
fn is_ratio(n: &Fix<32>, m: &Fix<32>, d: &Fix<32>) -> bool
    requires { pos 0 <ℤ d.now.mid }
    ensures { IsTrue result → m.now.mid ≡ spec.over n.now.mid d.now.mid }
{
    is_between(&rest(n, m, d), &below_half(d))
}

/// `ratio`, with no division where `d` is near to 1.
pub fn ratio_near_one(n: &Fix<32>, d: &Fix<32>) -> Fix<32>
    requires positive { pos 0 <ℤ d.now.mid }
    requires covers { unsigned_abs n.now.mid ≤ unsigned_abs d.now.mid }
    ensures value { result.mid ≡ spec.over n.now.mid d.now.mid }
    ensures size { unsigned_abs result.mid ≤ 2 ^ 32 }
{
    let near = Fix::from_raw(guess(n.mid, d.mid));
    if is_ratio(n, &near, d) {
        near
    } else {
        ratio(n, d)
    }
}
