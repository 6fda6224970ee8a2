// How far a row alone could lower the cost.
ghost use Rattle.std.specs.Prelude.{◌≡◌, ◌-◌, ◌*◌, ◌+◌, ◌/◌, ◌^◌, ◌<◌, ◌≤◌, ◌+ℤ◌, ◌-ℤ◌, ◌*ℤ◌, ◌<ℤ◌, ◌≤ℤ◌, pos, length, unsigned_abs, IfSome, IfNone, SomeIff, option_map, ℕ, suc, slice_set, IfOk, Some, None};
ghost use Rattle.fx_whole.specs.Least as least;
ghost use Rattle.fx_whole.specs.First.{first_to, refusal_of};
ghost use Rattle.mj_optimum.specs.Limits.{shortfall_limit, shortfall_to};
ghost use Rattle.mj_optimum.specs.Shortfall as spec;
ghost use Rattle.mj_optimum.specs.Cost.{gradient};
ghost use Rattle.mj_types.specs.Problems as duals;
ghost use Rattle.mj_types.specs.Solved.{IsSolved};
ghost use Rattle.mj_types.specs.Duals.{bound, wide_at};
ghost use Rattle.mj_types.specs.Ranges.{limited};
ghost use Rattle.mj_cert.specs.Certificate as certificate;

use crate::exact::plus;
use crate::room::room_of;
use crate::slope::slope_of;
use fx_list::Array;
use fx_num::Wide;
use mj_types::{Dual, Forces, OutOfRange, Quantity};

/// `a * b`, where that is at most 2^124.
fn limited_product(a: u128, b: u128) -> Option<u128>
    ensures { SomeIff result (a * b ≤ 2 ^ 124) (a * b) }
{
    if a == 0 {
        return Some(0);
    }
    match a.checked_mul(b) {
        Some(product) if product <= 1 << 124 => Some(product),
        _ => None,
    }
}

/// `a / r`, rounded up.
fn ceil_quotient(a: u128, r: u128) -> u128
    requires a { a ≤ 2 ^ 123 }
    requires positive { 0 < r }
    requires r { r ≤ 2 ^ 72 }
    ensures { result ≡ least.ceil_div a r }
{
    (a + (r - 1)) / r
}

/// How far a parabola of slope `a` and width `r` falls, or further, where that is at most 2^124.
fn depth(a: u128, r: u128) -> Option<u128>
    requires a { a ≤ 2 ^ 123 }
    requires positive { 0 < r }
    requires r { r ≤ 2 ^ 72 }
    ensures { SomeIff result (a * least.ceil_div a r ≤ 2 ^ 124) (a * least.ceil_div a r) }
{
    if a == 0 {
        Some(0)
    } else {
        limited_product(a, ceil_quotient(a, r))
    }
}

/// How far it falls within the room `t`, where that is at most 2^124.
fn fall(a: u128, r: u128, t: u64) -> Option<u128>
    requires a { a ≤ 2 ^ 123 }
    requires positive { 0 < r }
    requires r { r ≤ 2 ^ 72 }
    requires t { t ≤ 2 ^ 51 }
    ensures { SomeIff result
        (spec.fall a (pos r) (Some (pos t)) ≤ℤ pos (2 ^ 124))
        (unsigned_abs (spec.fall a (pos r) (Some (pos t)))) }
{
    let bend = r * u128::from(t);
    if bend <= a {
        limited_product(u128::from(t), 2 * a - bend)
    } else {
        depth(a, r)
    }
}

/// `n` with a sign.
fn widen(n: u128) -> Wide<88>
    requires { n ≤ 2 ^ 124 }
    ensures { result.raw ≡ pos n }
{
    Wide {
        raw: n.cast_signed(),
    }
}

/// How far the parabola of a row falls within its room, where that is at most 2^124.
fn fall_within(g: &Wide<68>, r: &Wide<48>, room: Option<u64>) -> Option<Wide<88>>
    requires g { unsigned_abs g.now.raw ≤ 2 ^ 123 }
    requires positive { pos 0 <ℤ r.now.raw }
    requires r { r.now.raw ≤ℤ pos (2 ^ 72) }
    requires room { IfSome room (λ t. t ≤ 2 ^ 51) }
    ensures { SomeIff result
        (spec.fall (unsigned_abs g.now.raw) r.now.raw (option_map pos room) ≤ℤ pos (2 ^ 124))
        (record { raw = spec.fall (unsigned_abs g.now.raw) r.now.raw (option_map pos room) }) }
{
    let a = g.raw.unsigned_abs();
    let r = r.raw.unsigned_abs();
    let fall = match room {
        None => depth(a, r)?,
        Some(t) => fall(a, r, t)?,
    };
    Some(widen(fall))
}

/// The shortfall of row `i`, where that is at most 2^124.
fn shortfall_of(dual: &Dual, forces: &Forces, i: usize, slope: &Wide<68>) -> Option<Wide<88>>
    requires row { i < dual.now.m }
    requires f_room { dual.now.m ≤ length forces.now.f }
    requires solved { IsSolved dual.now forces.now }
    requires slope { slope.now.raw ≡ gradient (duals.problem dual.now) (duals.forces forces.now) i }
    ensures { SomeIff result
        (spec.shortfall (duals.problem dual.now) (duals.forces forces.now) i ≤ℤ pos (2 ^ 124))
        (record { raw = spec.shortfall (duals.problem dual.now) (duals.forces forces.now) i }) }
{
    let f = forces.f.at(i);
    let room = room_of(dual.low.at(i), dual.high.at(i), &f, slope);
    fall_within(slope, &dual.r.at(i), room)
}

/// `total + e`, where that is at most 2^124.
fn add_shortfall(total: &Wide<88>, e: &Wide<88>, place: usize) -> Result<Wide<88>, OutOfRange>
    requires total { pos 0 ≤ℤ total.now.raw }
    requires limit { total.now.raw ≤ℤ pos (2 ^ 124) }
    requires e { pos 0 ≤ℤ e.now.raw }
    requires small { e.now.raw ≤ℤ pos (2 ^ 124) }
    ensures first { refusal_of result
        ≡ limited Quantity.Shortfall place shortfall_limit (total.now.raw +ℤ e.now.raw) }
    ensures sum { IfOk result (λ t. t.raw ≡ total.now.raw +ℤ e.now.raw) }
    ensures limit { IfOk result (λ t. t.raw ≤ℤ pos (2 ^ 124)) }
{
    let sum = plus(total, e);
    OutOfRange::unless(sum.raw <= 1 << 124, Quantity::Shortfall, place)?;
    Ok(sum)
}

/// Writes the slope and the shortfall of row `i`, and gives the sum of the shortfalls so far.
fn fill_row(
    dual: &Dual,
    forces: &Forces,
    total: &Wide<88>,
    i: usize,
    slope: &mut Array<Wide<68>>,
    depth: &mut Array<Wide<88>>,
) -> Result<Wide<88>, OutOfRange>
    requires row { i < dual.now.m }
    requires f_room { dual.now.m ≤ length forces.now.f }
    requires u_room { dual.now.nv ≤ length forces.now.u }
    requires slope_room { dual.now.m ≤ length slope.old }
    requires depth_room { dual.now.m ≤ length depth.old }
    requires solved { IsSolved dual.now forces.now }
    requires total { total.now.raw
        ≡ shortfall_to (duals.problem dual.now) (duals.forces forces.now) i }
    requires limit { total.now.raw ≤ℤ pos (2 ^ 124) }
    ensures slope_len { length slope.new ≡ length slope.old }
    ensures depth_len { length depth.new ≡ length depth.old }
    ensures first { refusal_of result ≡ certificate.shortfall_out dual.now forces.now i }
    ensures total { IfOk result (λ t. t.raw
        ≡ shortfall_to (duals.problem dual.now) (duals.forces forces.now) (suc i)) }
    ensures limit { IfOk result (λ t. t.raw ≤ℤ pos (2 ^ 124)) }
    ensures slope { IfOk result (λ _. slope.new ≡ slice_set slope.old i
        (record { raw = gradient (duals.problem dual.now) (duals.forces forces.now) i })) }
    ensures depth { IfOk result (λ _. depth.new ≡ slice_set depth.old i
        (record { raw = spec.shortfall (duals.problem dual.now) (duals.forces forces.now) i })) }
{
    let g = slope_of(dual, forces, i);
    slope.put(i, g);
    let place = dual.place.at(i);
    let e = match shortfall_of(dual, forces, i, &g) {
        Some(e) => e,
        None => {
            return Err(OutOfRange {
                kind: Quantity::Shortfall,
                index: place,
            });
        }
    };
    depth.put(i, e);
    add_shortfall(total, &e, place)
}

/// Writes the slope and the shortfall of each row, and gives the total shortfall.
pub fn fill_shortfalls(
    dual: &Dual,
    forces: &Forces,
    slope: &mut Array<Wide<68>>,
    depth: &mut Array<Wide<88>>,
) -> Result<Wide<88>, OutOfRange>
    requires f_room { dual.now.m ≤ length forces.now.f }
    requires u_room { dual.now.nv ≤ length forces.now.u }
    requires slope_room { dual.now.m ≤ length slope.old }
    requires depth_room { dual.now.m ≤ length depth.old }
    requires solved { IsSolved dual.now forces.now }
    ensures slope_len { length slope.new ≡ length slope.old }
    ensures depth_len { length depth.new ≡ length depth.old }
    ensures first { refusal_of result
        ≡ first_to dual.now.m (certificate.shortfall_out dual.now forces.now) }
    ensures total { IfOk result (λ t. t.raw
        ≡ spec.total_shortfall (duals.problem dual.now) (duals.forces forces.now)) }
    ensures limit { IfOk result (λ t. t.raw ≤ℤ pos (2 ^ 124)) }
    ensures slope { IfOk result (λ _. (k : ℕ) → k < dual.now.m
        → wide_at slope.new k ≡ gradient (duals.problem dual.now) (duals.forces forces.now) k) }
    ensures depth { IfOk result (λ _. (k : ℕ) → k < dual.now.m
        → wide_at depth.new k
        ≡ spec.shortfall (duals.problem dual.now) (duals.forces forces.now) k) }
{
    let mut total = Wide { raw: 0 };
    for i in 0..dual.m {
        total = fill_row(dual, forces, &total, i, slope, depth)?;
    }
    Ok(total)
}
