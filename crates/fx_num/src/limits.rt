// Narrowing of a value to the bits of a number, checked against its limit.
ghost use Rattle.std.specs.Prelude.{◌≡◌, ◌^◌, ◌<◌, ◌≤◌, pos, ◌≤ℤ◌, unsigned_abs, IfOk};
ghost use Rattle.fx_whole.specs.First.{refusal_of};
ghost use Rattle.fx_num.specs.Settled as spec;

use crate::carry::Over;
use crate::number::{Fix, Number, Wide};
use fx_whole::{is_rounded_within, narrow, nearest_by_half, nearest_shift};
use num_traits::ToPrimitive;

/// `value` in 64 bits. `Over::Value` exactly where it passes `limit` in size.
pub fn narrow_within(value: &i128, limit: i64) -> Result<i64, Over>
    requires { pos 0 ≤ℤ limit }
    ensures value { IfOk result (λ mid. mid ≡ value.now) }
    ensures within { IfOk result (λ mid. unsigned_abs mid ≤ unsigned_abs limit) }
    ensures first { refusal_of result ≡ spec.over_value (unsigned_abs limit) value.now }
{
    // the range is tested first, so that the compiler drops the test inside of `to_i64`
    let most = i128::from(limit);
    if -most <= *value && *value <= most {
        value.to_i64().ok_or(Over::Value)
    } else {
        Err(Over::Value)
    }
}

/// A number that may need 128 bits, in 64. `Over::Value` exactly where it passes `limit` in size.
pub fn limited<const F: u32>(value: &Wide<F>, limit: i64) -> Result<Fix<F>, Over>
    requires { pos 0 ≤ℤ limit }
    ensures value { IfOk result (λ x. x.mid ≡ value.now.raw) }
    ensures within { IfOk result (λ x. unsigned_abs x.mid ≤ unsigned_abs limit) }
    ensures first { refusal_of result ≡ spec.over_value (unsigned_abs limit) value.now.raw }
{
    match narrow_within(&value.raw, limit) {
        Ok(mid) => Ok(Number { mid, rad: () }),
        Err(over) => Err(over),
    }
}

/// `n / 2^shift` rounded, in 64 bits, where the caller shows that it fits.
fn narrow_nearest(n: &i128, shift: u32) -> i64
    requires positive { 1 ≤ shift }
    requires in_width { shift ≤ 63 }
    requires small { unsigned_abs n.now < 2 ^ 126 }
    requires fits { unsigned_abs (spec.settled_mid n.now shift) < 2 ^ 63 }
    ensures { result ≡ spec.settled_mid n.now shift }
{
    narrow(nearest_by_half(n, shift))
}

/// `nearest_within` by 1 to 63 bits: the limit is judged before the number is rounded, and what
/// passes the judge is small.
pub(crate) fn nearest_within_by_half(n: &i128, limit: &i64, shift: u32) -> Result<i64, Over>
    requires positive { 1 ≤ shift }
    requires in_width { shift ≤ 63 }
    requires limit { pos 0 ≤ℤ limit.now }
    requires room { unsigned_abs limit.now < 2 ^ 63 }
    ensures value { IfOk result (λ mid. mid ≡ spec.settled_mid n.now shift) }
    ensures within { IfOk result (λ mid. unsigned_abs mid ≤ unsigned_abs limit.now) }
    ensures small { IfOk result (λ _. unsigned_abs n.now < 2 ^ 126) }
    ensures first { refusal_of result
        ≡ spec.over_value (unsigned_abs limit.now) (spec.settled_mid n.now shift) }
{
    if is_rounded_within(n, limit, shift) {
        Ok(narrow_nearest(n, shift))
    } else {
        Err(Over::Value)
    }
}

/// `n / 2^shift` rounded, in 64 bits. `Over::Value` exactly where it passes `limit` in size.
pub fn nearest_within(n: &i128, limit: i64, shift: u32) -> Result<i64, Over>
    requires in_width { shift ≤ 126 }
    requires limit { pos 0 ≤ℤ limit }
    ensures value { IfOk result (λ mid. mid ≡ spec.settled_mid n.now shift) }
    ensures within { IfOk result (λ mid. unsigned_abs mid ≤ unsigned_abs limit) }
    ensures first { refusal_of result
        ≡ spec.over_value (unsigned_abs limit) (spec.settled_mid n.now shift) }
{
    if 1 <= shift && shift <= 63 {
        nearest_within_by_half(n, &limit, shift)
    } else {
        narrow_within(&nearest_shift(*n, shift), limit)
    }
}
