// Quotients of numbers that carry a radius.
ghost use Rattle.std.specs.Prelude.{◌≡◌, ◌+◌, ◌-◌, ◌*◌, ◌^◌, ◌<◌, ◌≤◌, ℕ, ℤ, pos, ◌-ℤ◌, ◌*ℤ◌, ◌<ℤ◌, ◌≤ℤ◌, unsigned_abs, IfOk, Err};
ghost use Rattle.fx_whole.specs.Least.{ceil_div};
ghost use Rattle.fx_num.specs.Radii.{radius_limit};
ghost use Rattle.fx_whole.specs.First.{refusal_of};
ghost use Rattle.fx_num.specs.Settled.{over};
ghost use Rattle.fx_near.specs.Covers.{Covers, CoversQuotient};
ghost use Rattle.fx_near.specs.Widths as spec;

use crate::band::{Near, narrow_radius, raised, stretched};
use fx_num::{Number, Over, narrow_within};
use fx_whole::{difference, nearest, product, scale_up};

/// How far `mid` may be off from `whole / b`, where the numerator `whole` may be off by `ra 2^shift` and
/// `b` by `rb`: `(ra 2^shift + |mid| rb + |whole - mid b|) / (b - rb)` rounded up.
pub(crate) fn radius_over(whole: i128, ra: u64, mid: i64, b: i64, rb: u64, shift: u32) -> u128
    requires in_width { shift ≤ 40 }
    requires small { unsigned_abs whole ≤ 2 ^ 103 }
    requires divisor { pos rb <ℤ b }
    ensures { result ≡ ceil_div
        (ra * 2 ^ shift + unsigned_abs mid * rb + unsigned_abs (whole -ℤ mid *ℤ b))
        (unsigned_abs b - rb) }
{
    let rest = difference(whole, product(mid, b)).unsigned_abs();
    let error = raised(ra, shift) + stretched(mid, rb) + rest;
    error.div_ceil(u128::from(b.unsigned_abs() - rb))
}

/// `a 2^F`, which always fits.
pub(crate) fn widen<const F: u32>(a: &Near<F>) -> i128
    requires { F ≤ 40 }
    ensures value { result ≡ a.now.mid *ℤ pos (2 ^ F) }
    ensures size { unsigned_abs result ≤ 2 ^ 103 }
{
    scale_up(a.mid, F)
}

/// `a / b` rounded to the nearest number, a tie to the one nearer to zero, for `b` above zero in all
/// that it covers. `Over::Value` exactly where the midpoint passes `limit` in size, which it does
/// where `limit` is below 0, else `Over::Radius` exactly where the radius passes 2^40.
pub fn div_near<const F: u32>(a: Near<F>, b: Near<F>, limit: i64) -> Result<Near<F>, Over>
    requires divisor { pos b.rad <ℤ b.mid }
    requires in_width { F ≤ 40 }
    ensures mid { IfOk result (λ r. r.mid ≡ spec.quotient_mid F a.entry.mid b.entry.mid) }
    ensures within { IfOk result (λ r. unsigned_abs r.mid ≤ unsigned_abs limit) }
    ensures rad { IfOk result (λ r. r.rad
        ≡ spec.quotient_radius F a.entry.mid a.entry.rad b.entry.mid b.entry.rad) }
    ensures small { IfOk result (λ r. r.rad ≤ radius_limit) }
    ensures negative { limit <ℤ pos 0 → result ≡ Err Over.Value }
    ensures first { pos 0 ≤ℤ limit → refusal_of result ≡ over (unsigned_abs limit)
        (spec.quotient_mid F a.entry.mid b.entry.mid)
        (spec.quotient_radius F a.entry.mid a.entry.rad b.entry.mid b.entry.rad) }
    ensures covers { IfOk result (λ r. (n m : ℤ) (d e : ℕ)
        → Covers a.entry.mid a.entry.rad F n d → Covers b.entry.mid b.entry.rad F m e
        → CoversQuotient r.mid r.rad F n d m e) }
{
    if limit < 0 {
        return Err(Over::Value);
    }
    let whole = widen(&a);
    let value = nearest(whole, i128::from(b.mid));
    match narrow_within(&value, limit) {
        Ok(mid) => match narrow_radius(&radius_over(whole, a.rad, mid, b.mid, b.rad, F)) {
            Ok(rad) => Ok(Number { mid, rad }),
            Err(over) => Err(over),
        },
        Err(over) => Err(over),
    }
}
