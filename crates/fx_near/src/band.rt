// The kind of number that carries a radius.
ghost use Rattle.std.specs.Prelude.{IsTrue, ◌≡◌, ◌+◌, ◌-◌, ◌*◌, ◌^◌, ◌<◌, ◌≤◌, min, unsigned_abs, IfOk};
ghost use Rattle.fx_whole.specs.Least.{ceil_div};
ghost use Rattle.fx_num.specs.Radii.{radius_limit};
ghost use Rattle.fx_num.specs.Refusals.{past};
ghost use Rattle.fx_whole.specs.First.{refusal_of};
ghost use Rattle.fx_near.specs.Covers.{Covers};
ghost use Rattle.fx_near.specs.Widths.{settled_radius};

use fx_num::{Carry, Fix, Num, Number, Over};
use num_traits::ToPrimitive;

// The greatest radius that a number may have.
const RADIUS_LIMIT: u128 = 1 << 40;

/// The kind of number that carries a radius, in units of its scale: the exact number lies within that
/// of the midpoint.
#[derive(Clone, Copy, Debug, PartialEq, Eq)]
pub struct Band;

/// A number at scale `F` that covers each exact number within `rad / 2^F` of `mid / 2^F`.
pub type Near<const F: u32> = Num<Band, F>;

impl Carry for Band {
    type Rad = u64;

    type Wide = u128;

    ghost width = { λ r. r };

    ghost wide_width = { λ w. w };

    ghost settled = { settled_radius };

    fn none() -> u64 {
        0
    }

    fn wide_none() -> u128 {
        0
    }

    fn product(a: i64, ra: u64, b: i128, rb: u64) -> u128 {
        stretched(a, rb) + spread(b.unsigned_abs(), ra) + spread(u128::from(ra), rb)
    }

    fn join(a: u128, b: u128) -> u128 {
        a + b
    }

    fn cut(w: u128, lost: i128, shift: u32) -> Result<u64, Over> {
        radius_of(&w, &lost.unsigned_abs(), shift)
    }
}

// `(w + lost) / 2^shift` rounded up. `Over::Radius` exactly where it passes 2^40.
fn radius_of(w: &u128, lost: &u128, shift: u32) -> Result<u64, Over>
    requires { shift ≤ 126 }
    ensures rad { IfOk result (λ r. r ≡ settled_radius w.now lost.now shift) }
    ensures small { IfOk result (λ r. r ≤ radius_limit) }
    ensures first { refusal_of result
        ≡ past radius_limit (settled_radius w.now lost.now shift) Over.Radius }
{
    if is_small(w, lost, shift) {
        Ok(small_radius(w, lost, shift))
    } else {
        narrow_radius(&shifted_up(*w, *lost, shift))
    }
}

// Whether the width is less than half of the limit's, so that the sum fits and no limit is passed.
// The loss and the power of two then need no more than 64 bits.
fn is_small(w: &u128, lost: &u128, shift: u32) -> bool
    ensures low { IsTrue result → 24 ≤ shift }
    ensures high { IsTrue result → shift ≤ 62 }
    ensures lost { IsTrue result → lost.now ≤ 2 ^ 63 }
    ensures width { IsTrue result → w.now < 2 ^ (shift + 39) }
{
    24 <= shift && shift <= 62 && *lost <= 1 << 63 && *w >> (shift + 39) == 0
}

// `radius_of` where `is_small` holds: one sum and one shift.
#[tactic(auto, using(crate::proofs::RadiusLaws::radius_small))]
fn small_radius(w: &u128, lost: &u128, shift: u32) -> u64
    requires low { 24 ≤ shift }
    requires high { shift ≤ 62 }
    requires lost { lost.now ≤ 2 ^ 63 }
    requires width { w.now < 2 ^ (shift + 39) }
    ensures value { result ≡ settled_radius w.now lost.now shift }
    ensures small { result ≤ radius_limit }
{
    (small_sum(w, lost, shift) >> shift) as u64
}

// `lost + 2^shift - 1`, in 64 bits.
fn plus_mask(lost: &u128, shift: u32) -> u64
    requires high { shift ≤ 62 }
    requires lost { lost.now ≤ 2 ^ 63 }
    ensures { result ≡ lost.now + (2 ^ shift - 1) }
{
    *lost as u64 + ((1u64 << shift) - 1)
}

// `w + lost + 2^shift - 1`, where `is_small` holds.
#[tactic(auto, using(crate::proofs::RadiusLaws::sum_small))]
fn small_sum(w: &u128, lost: &u128, shift: u32) -> u128
    requires low { 24 ≤ shift }
    requires high { shift ≤ 62 }
    requires lost { lost.now ≤ 2 ^ 63 }
    requires width { w.now < 2 ^ (shift + 39) }
    ensures value { result ≡ w.now + lost.now + (2 ^ shift - 1) }
    ensures small { result < (2 ^ 40 + 1) * 2 ^ shift }
{
    *w + u128::from(plus_mask(lost, shift))
}

// `size * radius`, where the caller shows that it fits.
fn spread(size: u128, radius: u64) -> u128
    requires { size * radius < 2 ^ 128 }
    ensures { result ≡ size * radius }
{
    size * u128::from(radius)
}

/// `|mid| * radius`, which always fits.
pub(crate) fn stretched(mid: i64, radius: u64) -> u128
    ensures value { result ≡ unsigned_abs mid * radius }
    ensures bound { result < 2 ^ 127 }
{
    u128::from(mid.unsigned_abs()) * u128::from(radius)
}

/// `radius * 2^shift`, which always fits.
pub(crate) fn raised(radius: u64, shift: u32) -> u128
    requires { shift ≤ 40 }
    ensures value { result ≡ radius * 2 ^ shift }
    ensures bound { result < 2 ^ 104 }
{
    u128::from(radius) << shift
}

// `(a + b) / 2^shift` rounded up, or the greatest u128 where it is past that. The sum of `a` and `b`
// may not fit, so their high and low parts are added.
fn shifted_up(a: u128, b: u128, shift: u32) -> u128
    requires { shift ≤ 126 }
    ensures { result ≡ min (ceil_div (a + b) (2 ^ shift)) (2 ^ 128 - 1) }
{
    let mask = (1u128 << shift) - 1;
    let low = ((a & mask) + (b & mask) + mask) >> shift;
    (a >> shift).saturating_add(b >> shift).saturating_add(low)
}

/// `radius` in 64 bits. `Over::Radius` exactly where it passes 2^40.
pub(crate) fn narrow_radius(radius: &u128) -> Result<u64, Over>
    ensures rad { IfOk result (λ r. r ≡ radius.now) }
    ensures small { IfOk result (λ r. r ≤ radius_limit) }
    ensures first { refusal_of result ≡ past radius_limit radius.now Over.Radius }
{
    // the limit is tested first, so that the compiler drops the test inside of `to_u64`
    if *radius <= RADIUS_LIMIT {
        radius.to_u64().ok_or(Over::Radius)
    } else {
        Err(Over::Radius)
    }
}

/// The number `x`, known exactly: radius 0.
pub fn exact<const F: u32>(x: Fix<F>) -> Near<F>
    ensures mid { result.mid ≡ x.entry.mid }
    ensures rad { result.rad ≡ 0 }
    ensures covers { Covers result.mid result.rad F x.entry.mid (2 ^ F) }
{
    Number { mid: x.mid, rad: 0 }
}
