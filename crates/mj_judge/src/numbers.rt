// Numbers within their limits.
ghost use Rattle.std.specs.Prelude.{◌≡◌, ℕ, ◌^◌, ◌<◌, ◌≤◌};
ghost use Rattle.mj_judge.specs.Judged as judged;
ghost use Rattle.mj_judge.specs.Numbers as spec;

use fx_list::Array;
use fx_num::{Fix, Number};
use mj_types::ModelCode;

/// Wrong in that way, unless this holds.
pub fn unless(good: bool, wrong: ModelCode) -> Result<(), ModelCode>
    ensures { result ≡ judged.unless good wrong }
{
    if good { Ok(()) } else { Err(wrong) }
}

/// The number at a place of a list, 0 past its end.
#[tactic(auto, using(std::proofs::lemmas::List::get_or_past))]
pub fn entry<const F: u32>(xs: &Array<Fix<F>>, i: usize) -> Fix<F>
    ensures { result ≡ spec.entry xs.now i }
{
    if i < xs.len() {
        xs.at(i)
    } else {
        Number::from_raw(0)
    }
}

/// Whether a raw value is from the least to the most.
pub(crate) fn is_between(least: &i64, most: &i64, n: &i64) -> bool
    ensures { result ≡ spec.is_between least.now most.now n.now }
{
    *least <= *n && *n <= *most
}

/// Whether a raw value has at most this size.
pub(crate) fn is_small(limit: u64, n: &i64) -> bool
    ensures { result ≡ spec.is_small limit n.now }
{
    n.unsigned_abs() <= limit
}

/// The number, if its raw value is from the least to the most, else `LimitPassed`.
#[tactic(auto, unfolding(crate::specs::Numbers::between))]
pub fn between<const F: u32>(x: &Fix<F>, least: &i64, most: &i64) -> Result<Fix<F>, ModelCode>
    ensures { result ≡ spec.between least.now most.now x.now }
{
    if is_between(least, most, &x.mid) {
        Ok(*x)
    } else {
        Err(ModelCode::LimitPassed)
    }
}

/// The number, if its raw value has at most this size, else `LimitPassed`.
#[tactic(auto, unfolding(crate::specs::Numbers::small))]
pub fn small<const F: u32>(x: &Fix<F>, limit: u64) -> Result<Fix<F>, ModelCode>
    ensures { result ≡ spec.small limit x.now }
{
    if is_small(limit, &x.mid) {
        Ok(*x)
    } else {
        Err(ModelCode::LimitPassed)
    }
}

/// The integer, if it is from the least to the most, else `LimitPassed`.
#[tactic(auto, unfolding(crate::specs::Numbers::whole))]
pub fn whole(n: &i64, least: u32, most: u32) -> Result<u32, ModelCode>
    ensures { result ≡ spec.whole least most n.now }
{
    if i64::from(least) <= *n && *n <= i64::from(most) {
        Ok(n.unsigned_abs() as u32)
    } else {
        Err(ModelCode::LimitPassed)
    }
}
