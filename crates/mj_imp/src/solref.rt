// The acceleration that a constraint asks for.
ghost use Rattle.std.specs.Prelude.{◌≡◌, ◌^◌, ◌≤◌, pos, ◌-ℤ◌, ◌*ℤ◌, neg_ℤ, ◌<ℤ◌, ◌≤ℤ◌, unsigned_abs, IfOk, IsTrue, not};
ghost use Rattle.fx_whole.specs.Nearest.{nearest as nearest_of};
ghost use Rattle.fx_whole.specs.First.{refusal_of};
ghost use Rattle.fx_num.specs.Settled.{over_value};
ghost use Rattle.mj_types.specs.Lawful.{IsSoft, IsImpedance, has_positive_form};
ghost use Rattle.mj_imp.specs.Impedance as share;
ghost use Rattle.mj_imp.specs.Reference as spec;

use crate::solimp::settled;
use fx_num::{Fix, Over, div_nearest, narrow_within, times};
use fx_whole::{difference, nearest_shift, negate, product, scale_up, wide_product};
use mj_types::Soft;

// Whether solref is a time constant and a damping ratio.
fn is_timed(soft: &Soft) -> bool
    requires { IsSoft soft.now }
    ensures form { result ≡ has_positive_form soft.now }
    ensures timed { IsTrue result → spec.IsTimed soft.now }
    ensures direct { IsTrue (not result) → spec.IsDirect soft.now }
{
    soft.tc.mid > 0
}

// `n / d`, rounded, where it is within the limit.
fn quotient(n: &i128, d: &i128, limit: i64) -> Result<Fix<32>, Over>
    requires positive { pos 0 <ℤ d.now }
    requires limit { pos 0 ≤ℤ limit }
    ensures mid { IfOk result (λ x. x.mid ≡ nearest_of n.now d.now) }
    ensures within { IfOk result (λ x. unsigned_abs x.mid ≤ unsigned_abs limit) }
    ensures first { refusal_of result ≡ over_value (unsigned_abs limit) (nearest_of n.now d.now) }
{
    match div_nearest(*n, *d, limit) {
        Ok(mid) => Ok(Fix::from_raw(mid)),
        Err(over) => Err(over),
    }
}

// `dmax tc`, at scale 64.
fn time_scale(soft: &Soft) -> i128
    requires dmax { IsImpedance soft.now.dmax }
    requires timed { spec.IsTimed soft.now }
    ensures value { result ≡ soft.now.dmax.mid *ℤ soft.now.tc.mid }
    ensures low { pos (2 ^ 38) ≤ℤ result }
    ensures high { result ≤ℤ pos (2 ^ 74) }
{
    product(soft.dmax.mid, soft.tc.mid)
}

// `dmax tc dr`, at scale 48.
fn ratio_scale(soft: &Soft) -> i128
    requires dmax { IsImpedance soft.now.dmax }
    requires timed { spec.IsTimed soft.now }
    ensures value { result
        ≡ nearest_of (soft.now.dmax.mid *ℤ soft.now.tc.mid *ℤ soft.now.dr.mid) (pos (2 ^ 48)) }
    ensures some { pos 0 <ℤ result }
{
    nearest_shift(wide_product(time_scale(soft), i128::from(soft.dr.mid)), 48)
}

// The root of the stiffness, `1 / (dmax tc dr)`.
fn frequency(soft: &Soft) -> Result<Fix<32>, Over>
    requires dmax { IsImpedance soft.now.dmax }
    requires timed { spec.IsTimed soft.now }
    ensures mid { IfOk result (λ x. x.mid ≡ spec.frequency soft.now) }
    ensures first { refusal_of result ≡ over_value (2 ^ 44) (spec.frequency soft.now) }
{
    let one = 1i128 << 80;
    quotient(&one, &ratio_scale(soft), 1 << 44)
}

// `2 / (dmax tc)`.
fn timed_damping(soft: &Soft) -> Result<Fix<32>, Over>
    requires dmax { IsImpedance soft.now.dmax }
    requires timed { spec.IsTimed soft.now }
    ensures mid { IfOk result (λ x. x.mid ≡ spec.timed_damping soft.now) }
    ensures first { refusal_of result ≡ over_value (2 ^ 52) (spec.timed_damping soft.now) }
{
    let two = 1i128 << 97;
    quotient(&two, &time_scale(soft), 1 << 52)
}

// The stiffness times `x`, by its root.
fn timed_pull(soft: &Soft, x: &Fix<32>) -> Result<Fix<32>, Over>
    requires dmax { IsImpedance soft.now.dmax }
    requires timed { spec.IsTimed soft.now }
    ensures mid { IfOk result (λ y. y.mid ≡ spec.timed_pull soft.now x.now.mid) }
    ensures first { refusal_of result ≡ spec.timed_pull_over soft.now x.now.mid }
{
    let frequency = frequency(soft)?;
    let half = times(&frequency, x, 1 << 56)?;
    times(&frequency, &half, 1 << 54)
}

// `x / dmax`, where it is within the limit.
fn over_dmax(x: &Fix<32>, soft: &Soft, limit: i64) -> Result<Fix<32>, Over>
    requires dmax { IsImpedance soft.now.dmax }
    requires limit { pos 0 ≤ℤ limit }
    ensures mid { IfOk result (λ y. y.mid ≡ share.over x.now.mid soft.now.dmax.mid) }
    ensures first { refusal_of result
        ≡ over_value (unsigned_abs limit) (share.over x.now.mid soft.now.dmax.mid) }
{
    quotient(&scale_up(x.mid, 32), &i128::from(soft.dmax.mid), limit)
}

// `-x`.
fn negative(x: &Fix<32>) -> Fix<32>
    requires { neg_ℤ (pos (2 ^ 52)) ≤ℤ x.now.mid }
    ensures { result.mid ≡ neg_ℤ x.now.mid }
{
    Fix::from_raw(-x.mid)
}

// `-dr / dmax`.
fn direct_damping(soft: &Soft) -> Result<Fix<32>, Over>
    requires dmax { IsImpedance soft.now.dmax }
    requires direct { spec.IsDirect soft.now }
    ensures mid { IfOk result (λ x. x.mid ≡ spec.direct_damping soft.now) }
    ensures first { refusal_of result ≡ over_value (2 ^ 52) (spec.direct_damping soft.now) }
{
    over_dmax(&negative(&soft.dr), soft, 1 << 52)
}

// The stiffness, `-tc / dmax^2`, times `x`.
fn direct_pull(soft: &Soft, x: &Fix<32>) -> Result<Fix<32>, Over>
    requires dmax { IsImpedance soft.now.dmax }
    requires direct { spec.IsDirect soft.now }
    ensures mid { IfOk result (λ y. y.mid ≡ spec.direct_pull soft.now x.now.mid) }
    ensures first { refusal_of result ≡ spec.direct_pull_over soft.now x.now.mid }
{
    let half = over_dmax(&negative(&soft.tc), soft, 1 << 60)?;
    let stiffness = over_dmax(&half, soft, 1 << 60)?;
    times(&stiffness, x, 1 << 54)
}

// The damping, by the form of solref.
fn damping(soft: &Soft) -> Result<Fix<32>, Over>
    requires { IsSoft soft.now }
    ensures mid { IfOk result (λ x. x.mid ≡ spec.damping soft.now) }
    ensures first { refusal_of result ≡ over_value (2 ^ 52) (spec.damping soft.now) }
{
    if is_timed(soft) {
        timed_damping(soft)
    } else {
        direct_damping(soft)
    }
}

// The stiffness times `x`, by the form of solref.
fn pull(soft: &Soft, x: &Fix<32>) -> Result<Fix<32>, Over>
    requires { IsSoft soft.now }
    ensures mid { IfOk result (λ y. y.mid ≡ spec.pull soft.now x.now.mid) }
    ensures first { refusal_of result ≡ spec.pull_over soft.now x.now.mid }
{
    if is_timed(soft) {
        timed_pull(soft, x)
    } else {
        direct_pull(soft, x)
    }
}

// The violation `r`, times the impedance.
fn weighted(d: &Fix<32>, r: &Fix<32>) -> Fix<32>
    requires low { pos 0 ≤ℤ d.now.mid }
    requires high { d.now.mid ≤ℤ share.one }
    requires r { unsigned_abs r.now.mid ≤ 2 ^ 56 }
    ensures { result.mid ≡ share.times d.now.mid r.now.mid }
{
    settled(&product(d.mid, r.mid))
}

// `-b jv`.
fn braking(b: &Fix<32>, jv: &Fix<32>) -> i128
    ensures value { result ≡ neg_ℤ (share.times b.now.mid jv.now.mid) }
    ensures size { unsigned_abs result ≤ 2 ^ 126 }
{
    negate(nearest_shift(product(b.mid, jv.mid), 32))
}

// `-b jv - pull`, where it is within the limit.
fn answer(b: &Fix<32>, jv: &Fix<32>, pull: &Fix<32>) -> Result<Fix<32>, Over>
    ensures mid { IfOk result (λ x. x.mid
        ≡ neg_ℤ (share.times b.now.mid jv.now.mid) -ℤ pull.now.mid) }
    ensures within { IfOk result (λ x. unsigned_abs x.mid ≤ 2 ^ 54) }
    ensures first { refusal_of result
        ≡ over_value (2 ^ 54) (neg_ℤ (share.times b.now.mid jv.now.mid) -ℤ pull.now.mid) }
{
    let total = difference(braking(b, jv), i128::from(pull.mid));
    match narrow_within(&total, 1 << 54) {
        Ok(mid) => Ok(Fix::from_raw(mid)),
        Err(over) => Err(over),
    }
}

/// The acceleration that a constraint asks for, `-b jv - k d r`, at scale 32: `d` is its impedance,
/// `r` its violation and `jv` its velocity, and `b` and `k` come from solref in either of its forms
/// (MuJoCo documentation, Computation, solver parameters). `Over::Value` exactly where one of its
/// numbers passes its limit: `b` 2^52; the root of `k` 2^44, and times `d r` 2^56; `k dmax` and `k`
/// 2^60; `k d r` and the acceleration 2^54, all raw.
pub fn reference(soft: &Soft, d: Fix<32>, r: Fix<32>, jv: Fix<32>) -> Result<Fix<32>, Over>
    requires soft { IsSoft soft.now }
    requires d { pos 0 <ℤ d.mid }
    requires below_one { d.mid <ℤ share.one }
    requires r { unsigned_abs r.mid ≤ 2 ^ 56 }
    requires jv { unsigned_abs jv.mid ≤ 2 ^ 54 }
    ensures value { IfOk result (λ x. x.mid ≡ spec.reference soft.now d.mid r.mid jv.mid) }
    ensures within { IfOk result (λ x. unsigned_abs x.mid ≤ 2 ^ 54) }
    ensures first { refusal_of result ≡ spec.reference_over soft.now d.mid r.mid jv.mid }
{
    let b = damping(soft)?;
    let pull = pull(soft, &weighted(&d, &r))?;
    answer(&b, &jv, &pull)
}
