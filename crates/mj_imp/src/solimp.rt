// The impedance of a constraint.
ghost use Rattle.std.specs.Prelude.{◌≡◌, ◌^◌, ◌<◌, ◌≤◌, ℕ, pos, ◌+ℤ◌, ◌-ℤ◌, ◌<ℤ◌, ◌≤ℤ◌, unsigned_abs};
ghost use Rattle.std.specs.Int.{int_min};
ghost use Rattle.fx_whole.specs.Nearest.{nearest as nearest_of};
ghost use Rattle.mj_types.specs.Lawful.{IsImpedance, IsSoft};
ghost use Rattle.mj_imp.specs.Impedance as spec;

use fx_num::Fix;
use fx_whole::{narrow, nearest, nearest_shift, product, scale_up};
use mj_types::Soft;

// 1 at scale 32.
const ONE: i64 = 1 << 32;

// `n` rounded to scale 32.
pub(crate) fn settled(n: &i128) -> Fix<32>
    requires { unsigned_abs n.now ≤ 2 ^ 94 }
    ensures { result.mid ≡ nearest_of n.now spec.one }
{
    Fix::from_raw(narrow(nearest_shift(*n, 32)))
}

// `a / b`, from 0 to 1.
fn share(a: &Fix<32>, b: &Fix<32>) -> Fix<32>
    requires positive { pos 0 <ℤ b.now.mid }
    requires low { pos 0 ≤ℤ a.now.mid }
    requires high { a.now.mid ≤ℤ b.now.mid }
    ensures value { result.mid ≡ spec.over a.now.mid b.now.mid }
    ensures low { pos 0 ≤ℤ result.mid }
    ensures high { result.mid ≤ℤ spec.one }
{
    Fix::from_raw(narrow(nearest(scale_up(a.mid, 32), i128::from(b.mid))))
}

// The share `q` of `a`, which is at most 1.
fn part(a: &Fix<32>, q: &Fix<32>) -> Fix<32>
    requires some { pos 0 ≤ℤ a.now.mid }
    requires small { a.now.mid ≤ℤ spec.one }
    requires low { pos 0 ≤ℤ q.now.mid }
    requires high { q.now.mid ≤ℤ spec.one }
    ensures value { result.mid ≡ spec.times a.now.mid q.now.mid }
    ensures low { pos 0 ≤ℤ result.mid }
    ensures high { result.mid ≤ℤ a.now.mid }
{
    settled(&product(a.mid, q.mid))
}

#[tactic(auto, using(crate::proofs::ShareLaws::pw_one, crate::proofs::ShareLaws::pw_more))]
// `q` to the power `k`.
fn power(q: &Fix<32>, k: u32) -> Fix<32>
    requires some { 1 ≤ k }
    requires low { pos 0 ≤ℤ q.now.mid }
    requires high { q.now.mid ≤ℤ spec.one }
    ensures value { result.mid ≡ spec.pw q.now.mid k }
    ensures low { pos 0 ≤ℤ result.mid }
    ensures high { result.mid ≤ℤ spec.one }
{
    let mut result = *q;
    for i in 1..k {
        result = part(&result, q);
    }
    result
}

// `1 - x`.
fn rest(x: &Fix<32>) -> Fix<32>
    requires low { pos 0 ≤ℤ x.now.mid }
    requires high { x.now.mid ≤ℤ spec.one }
    ensures { result.mid ≡ spec.one -ℤ x.now.mid }
{
    Fix::from_raw(ONE - x.mid)
}

// `|x|`.
fn size(x: &Fix<32>) -> Fix<32>
    requires { unsigned_abs x.now.mid ≤ 2 ^ 56 }
    ensures value { result.mid ≡ pos (unsigned_abs x.now.mid) }
{
    Fix::from_raw(x.mid.abs())
}

// `n`, or 1 where it is more.
fn at_most_one(n: &i128) -> Fix<32>
    requires { pos 0 ≤ℤ n.now }
    ensures value { result.mid ≡ int_min spec.one n.now }
    ensures low { pos 0 ≤ℤ result.mid }
    ensures high { result.mid ≤ℤ spec.one }
{
    if *n < i128::from(ONE) {
        Fix::from_raw(narrow(*n))
    } else {
        Fix::from_raw(ONE)
    }
}

// How far into the width a violation of `r` is, from 0 to 1.
fn depth(width: &Fix<32>, r: &Fix<32>) -> Fix<32>
    requires width { pos 0 <ℤ width.now.mid }
    requires r { unsigned_abs r.now.mid ≤ 2 ^ 56 }
    ensures value { result.mid ≡ spec.depth width.now.mid r.now.mid }
    ensures low { pos 0 ≤ℤ result.mid }
    ensures high { result.mid ≤ℤ spec.one }
{
    at_most_one(&nearest(scale_up(size(r).mid, 32), i128::from(width.mid)))
}

// The sigmoid below the midpoint.
fn to_midpoint(mid: &Fix<32>, k: u32, x: &Fix<32>) -> Fix<32>
    requires some { 1 ≤ k }
    requires midpoint { IsImpedance mid.now }
    requires low { pos 0 ≤ℤ x.now.mid }
    requires high { x.now.mid ≤ℤ mid.now.mid }
    ensures value { result.mid ≡ spec.to_midpoint mid.now.mid k x.now.mid }
    ensures low { pos 0 ≤ℤ result.mid }
    ensures high { result.mid ≤ℤ spec.one }
{
    part(mid, &power(&share(x, mid), k))
}

// The sigmoid above the midpoint.
fn past_midpoint(mid: &Fix<32>, k: u32, x: &Fix<32>) -> Fix<32>
    requires some { 1 ≤ k }
    requires midpoint { IsImpedance mid.now }
    requires low { mid.now.mid ≤ℤ x.now.mid }
    requires high { x.now.mid ≤ℤ spec.one }
    ensures value { result.mid ≡ spec.past_midpoint mid.now.mid k x.now.mid }
    ensures low { pos 0 ≤ℤ result.mid }
    ensures high { result.mid ≤ℤ spec.one }
{
    let upper = rest(mid);
    rest(&part(&upper, &power(&share(&rest(x), &upper), k)))
}

// The sigmoid from 0 to 1.
fn sigmoid(mid: &Fix<32>, k: u32, x: &Fix<32>) -> Fix<32>
    requires some { 1 ≤ k }
    requires midpoint { IsImpedance mid.now }
    requires low { pos 0 ≤ℤ x.now.mid }
    requires high { x.now.mid ≤ℤ spec.one }
    ensures value { result.mid ≡ spec.sigmoid mid.now.mid k x.now.mid }
    ensures low { pos 0 ≤ℤ result.mid }
    ensures high { result.mid ≤ℤ spec.one }
{
    if x.mid <= mid.mid {
        to_midpoint(mid, k, x)
    } else {
        past_midpoint(mid, k, x)
    }
}

// `b - a`.
fn gap(a: &Fix<32>, b: &Fix<32>) -> Fix<32>
    requires a { IsImpedance a.now }
    requires b { IsImpedance b.now }
    ensures { result.mid ≡ b.now.mid -ℤ a.now.mid }
{
    Fix::from_raw(b.mid - a.mid)
}

// The share `y` of the step from `a` to `b`.
fn step(a: &Fix<32>, b: &Fix<32>, y: &Fix<32>) -> Fix<32>
    requires a { IsImpedance a.now }
    requires b { IsImpedance b.now }
    requires low { pos 0 ≤ℤ y.now.mid }
    requires high { y.now.mid ≤ℤ spec.one }
    ensures value { result.mid ≡ spec.times y.now.mid (b.now.mid -ℤ a.now.mid) }
    ensures size { unsigned_abs result.mid ≤ unsigned_abs (b.now.mid -ℤ a.now.mid) }
{
    settled(&product(y.mid, gap(a, b).mid))
}

// The number that is the share `y` of the way from `a` to `b`.
fn between(a: &Fix<32>, b: &Fix<32>, y: &Fix<32>) -> Fix<32>
    requires a { IsImpedance a.now }
    requires b { IsImpedance b.now }
    requires low { pos 0 ≤ℤ y.now.mid }
    requires high { y.now.mid ≤ℤ spec.one }
    ensures value { result.mid ≡ a.now.mid +ℤ spec.times y.now.mid (b.now.mid -ℤ a.now.mid) }
    ensures between { spec.LiesBetween a.now.mid b.now.mid result.mid }
{
    Fix::from_raw(a.mid + step(a, b, y).mid)
}

/// The impedance of a constraint that is violated by `r`, at scale 32: solimp's sigmoid (MuJoCo
/// documentation, Computation, solver parameters), each product and quotient rounded once. It lies
/// between dmin and dmax, and so between 0 and 1.
pub fn impedance(soft: &Soft, r: Fix<32>) -> Fix<32>
    requires soft { IsSoft soft.now }
    requires r { unsigned_abs r.mid ≤ 2 ^ 56 }
    ensures value { result.mid ≡ spec.impedance soft.now r.mid }
    ensures between { spec.LiesBetween soft.now.dmin.mid soft.now.dmax.mid result.mid }
    ensures some { pos 0 <ℤ result.mid }
    ensures below_one { result.mid <ℤ spec.one }
{
    let x = depth(&soft.width, &r);
    let y = sigmoid(&soft.mid, soft.power, &x);
    between(&soft.dmin, &soft.dmax, &y)
}
