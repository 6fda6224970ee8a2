// Square roots of numbers that carry a radius.
ghost use Rattle.std.specs.Prelude.{◌≡◌, ◌≤◌, ℕ, ℤ, pos, ◌<ℤ◌, ◌≤ℤ◌, unsigned_abs, IfOk, Err};
ghost use Rattle.fx_num.specs.Radii.{radius_limit};
ghost use Rattle.fx_whole.specs.First.{refusal_of};
ghost use Rattle.fx_num.specs.Settled.{over};
ghost use Rattle.fx_near.specs.Covers.{Covers, CoversRoot};
ghost use Rattle.fx_near.specs.Widths as spec;

use crate::band::{Near, narrow_radius};
use crate::quotient::{radius_over, widen};
use fx_num::{Number, Over, narrow_within};
use fx_whole::isqrt;

/// How far the root `mid` of `a` may be off: with the root as an exact divisor, this is the radius of
/// a quotient.
fn root_radius<const F: u32>(a: &Near<F>, mid: &i64) -> u128
    requires operand { pos a.now.rad <ℤ a.now.mid }
    requires in_width { F ≤ 40 }
    requires root { mid.now ≡ spec.root_mid F a.now.mid }
    ensures { result ≡ spec.root_radius F a.now.mid a.now.rad }
{
    radius_over(widen(a), a.rad, *mid, *mid, 0, F)
}

/// The square root of `a`, rounded down, for `a` above zero in all that it covers. `Over::Value` exactly
/// where the midpoint passes `limit`, else `Over::Radius` exactly where the radius passes 2^40.
pub fn root_near<const F: u32>(a: Near<F>, limit: i64) -> Result<Near<F>, Over>
    requires operand { pos a.rad <ℤ a.mid }
    requires in_width { F ≤ 40 }
    ensures mid { IfOk result (λ r. r.mid ≡ spec.root_mid F a.entry.mid) }
    ensures within { IfOk result (λ r. unsigned_abs r.mid ≤ unsigned_abs limit) }
    ensures rad { IfOk result (λ r. r.rad ≡ spec.root_radius F a.entry.mid a.entry.rad) }
    ensures small { IfOk result (λ r. r.rad ≤ radius_limit) }
    ensures negative { limit <ℤ pos 0 → result ≡ Err Over.Value }
    ensures first { pos 0 ≤ℤ limit → refusal_of result ≡ over (unsigned_abs limit)
        (spec.root_mid F a.entry.mid)
        (spec.root_radius F a.entry.mid a.entry.rad) }
    ensures covers { IfOk result (λ r. (n : ℤ) (d : ℕ)
        → Covers a.entry.mid a.entry.rad F n d → CoversRoot r.mid r.rad F n d) }
{
    if limit < 0 {
        return Err(Over::Value);
    }
    match narrow_within(&isqrt(widen(&a)), limit) {
        Ok(mid) => match narrow_radius(&root_radius(&a, &mid)) {
            Ok(rad) => Ok(Number { mid, rad }),
            Err(over) => Err(over),
        },
        Err(over) => Err(over),
    }
}
