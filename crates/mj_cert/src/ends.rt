// The ends of the box at each row.
ghost use Rattle.std.specs.Prelude.{◌≡◌, ℕ, ◌^◌, ◌<◌, ◌≤◌, ◌+ℤ◌, ◌-ℤ◌, ◌<ℤ◌, ◌≤ℤ◌, pos, neg_ℤ, length, unsigned_abs, IfOk, IsTrue};
ghost use Rattle.fx_whole.specs.First.{or_first, first_to, refusal_of};
ghost use Rattle.mj_optimum.specs.Box as spec;
ghost use Rattle.mj_optimum.specs.Cost.{gradient};
ghost use Rattle.mj_optimum.specs.Feasible.{IsAbove, IsBelow};
ghost use Rattle.mj_optimum.specs.Limits.{box_limit, where_open};
ghost use Rattle.mj_optimum.specs.Shortfall.{shortfall, total_shortfall};
ghost use Rattle.mj_optimum.specs.Sweep.{at_least, at_most};
ghost use Rattle.mj_types.specs.Duals.{bound, is_in_range, wide_at};
ghost use Rattle.mj_types.specs.Parts.{number_at};
ghost use Rattle.mj_types.specs.Problems as duals;
ghost use Rattle.mj_types.specs.Ranges.{limited};
ghost use Rattle.mj_types.specs.Solved.{IsSolved};
ghost use Rattle.mj_cert.specs.Certificate as certificate;

use crate::curve::Curve;
use crate::exact::minus;
use crate::room::distance;
use fx_list::Array;
use fx_num::{Fix, Number, Wide};
use mj_types::{Dual, Forces, OutOfRange, Quantity};

/// Between which forces the box is at a row.
#[derive(Clone, Copy)]
struct Ends {
    low: Fix<20>,
    high: Fix<20>,
}

/// `f + p`.
fn add_step(f: &Fix<20>, p: u64) -> Fix<20>
    requires f { unsigned_abs f.now.mid ≤ 2 ^ 50 }
    requires p { p ≤ 2 ^ 52 }
    ensures { result.mid ≡ f.now.mid +ℤ pos p }
{
    Number {
        mid: f.mid + p as i64,
        rad: (),
    }
}

/// `f - p`.
fn subtract_step(f: &Fix<20>, p: u64) -> Fix<20>
    requires f { unsigned_abs f.now.mid ≤ 2 ^ 50 }
    requires p { p ≤ 2 ^ 52 }
    ensures { result.mid ≡ f.now.mid -ℤ pos p }
{
    Number {
        mid: f.mid - p as i64,
        rad: (),
    }
}

/// A number that the box has no end for.
fn no_end(place: usize) -> OutOfRange
    ensures { result ≡ record { kind = Quantity.Box; index = place } }
{
    OutOfRange {
        kind: Quantity::Box,
        index: place,
    }
}

/// The end above the force `f`: as far as its parabola allows, or the bound.
fn high_end(
    curve: &Curve,
    f: &Fix<20>,
    high: Option<Fix<20>>,
    place: usize,
) -> Result<Fix<20>, OutOfRange>
    requires f { unsigned_abs f.now.mid ≤ 2 ^ 50 }
    requires below { IsBelow (bound high) f.now.mid (pos 1) }
    requires small { IsTrue (is_in_range (bound high)) }
    ensures first { refusal_of result ≡ limited Quantity.Box place box_limit
        (pos (where_open (bound high) (spec.rise curve.now.g curve.now.r curve.now.height))) }
    ensures value { IfOk result (λ x. x.mid ≡ at_most (bound high)
        (f.now.mid +ℤ pos (spec.rise curve.now.g curve.now.r curve.now.height))) }
{
    match high {
        None => match curve.rise(1 << 50) {
            Some(p) => Ok(add_step(f, p)),
            None => Err(no_end(place)),
        },
        Some(high) => match curve.rise(distance(f, &high)) {
            Some(p) => Ok(add_step(f, p)),
            None => Ok(high),
        },
    }
}

/// The end below the force `f`, where the curve is seen downwards.
fn low_end(
    curve: &Curve,
    f: &Fix<20>,
    low: Option<Fix<20>>,
    place: usize,
) -> Result<Fix<20>, OutOfRange>
    requires f { unsigned_abs f.now.mid ≤ 2 ^ 50 }
    requires above { IsAbove (bound low) f.now.mid (pos 1) }
    requires small { IsTrue (is_in_range (bound low)) }
    ensures first { refusal_of result ≡ limited Quantity.Box place box_limit
        (pos (where_open (bound low) (spec.rise curve.now.g curve.now.r curve.now.height))) }
    ensures value { IfOk result (λ x. x.mid ≡ at_least (bound low)
        (f.now.mid -ℤ pos (spec.rise curve.now.g curve.now.r curve.now.height))) }
{
    match low {
        None => match curve.rise(1 << 50) {
            Some(p) => Ok(subtract_step(f, p)),
            None => Err(no_end(place)),
        },
        Some(low) => match curve.rise(distance(&low, f)) {
            Some(p) => Ok(subtract_step(f, p)),
            None => Ok(low),
        },
    }
}

/// The same parabola seen the other way.
fn mirror(curve: &Curve) -> Curve
    ensures g { result.g ≡ neg_ℤ curve.now.g }
    ensures r { result.r ≡ curve.now.r }
    ensures height { result.height ≡ curve.now.height }
{
    Curve {
        g: -curve.g,
        r: curve.r,
        height: curve.height,
    }
}

/// The parabola of a row, and what the other rows fall short by.
fn curve_of(g: &Wide<68>, r: &Wide<48>, total: &Wide<88>, depth: &Wide<88>) -> Curve
    requires g { unsigned_abs g.now.raw ≤ 2 ^ 123 }
    requires positive { pos 0 <ℤ r.now.raw }
    requires r { r.now.raw ≤ℤ pos (2 ^ 72) }
    requires depth { pos 0 ≤ℤ depth.now.raw }
    requires others { pos 0 ≤ℤ (total.now.raw -ℤ depth.now.raw) }
    requires limit { total.now.raw ≤ℤ pos (2 ^ 124) }
    ensures g { result.g ≡ g.now.raw }
    ensures r { result.r ≡ r.now.raw }
    ensures height { result.height ≡ total.now.raw -ℤ depth.now.raw }
{
    Curve {
        g: g.raw,
        r: r.raw,
        height: minus(total, depth).raw,
    }
}

/// The ends around the force `f`.
fn ends_within(
    up: &Curve,
    f: &Fix<20>,
    low: Option<Fix<20>>,
    high: Option<Fix<20>>,
    place: usize,
) -> Result<Ends, OutOfRange>
    requires f { unsigned_abs f.now.mid ≤ 2 ^ 50 }
    requires above { IsAbove (bound low) f.now.mid (pos 1) }
    requires below { IsBelow (bound high) f.now.mid (pos 1) }
    requires low_small { IsTrue (is_in_range (bound low)) }
    requires high_small { IsTrue (is_in_range (bound high)) }
    ensures first { refusal_of result ≡ or_first
        (limited Quantity.Box place box_limit
        (pos (where_open (bound high) (spec.rise up.now.g up.now.r up.now.height))))
        (limited Quantity.Box place box_limit
        (pos (where_open (bound low) (spec.rise (neg_ℤ up.now.g) up.now.r up.now.height)))) }
    ensures low { IfOk result (λ e. e.low.mid ≡ at_least (bound low)
        (f.now.mid -ℤ pos (spec.rise (neg_ℤ up.now.g) up.now.r up.now.height))) }
    ensures high { IfOk result (λ e. e.high.mid ≡ at_most (bound high)
        (f.now.mid +ℤ pos (spec.rise up.now.g up.now.r up.now.height))) }
{
    let high = high_end(up, f, high, place)?;
    let low = low_end(&mirror(up), f, low, place)?;
    Ok(Ends { low, high })
}

/// The ends at row `i`, from its slope, its shortfall and the total one.
fn ends_of(
    dual: &Dual,
    forces: &Forces,
    i: usize,
    slope: &Wide<68>,
    depth: &Wide<88>,
    total: &Wide<88>,
) -> Result<Ends, OutOfRange>
    requires row { i < dual.now.m }
    requires f_room { dual.now.m ≤ length forces.now.f }
    requires solved { IsSolved dual.now forces.now }
    requires slope { slope.now.raw ≡ gradient (duals.problem dual.now) (duals.forces forces.now) i }
    requires depth { depth.now.raw
        ≡ shortfall (duals.problem dual.now) (duals.forces forces.now) i }
    requires total { total.now.raw
        ≡ total_shortfall (duals.problem dual.now) (duals.forces forces.now) }
    requires limit { total.now.raw ≤ℤ pos (2 ^ 124) }
    ensures first { refusal_of result ≡ certificate.box_out dual.now forces.now i }
    ensures low { IfOk result (λ e. e.low.mid
        ≡ spec.lo (duals.problem dual.now) (duals.forces forces.now) i) }
    ensures high { IfOk result (λ e. e.high.mid
        ≡ spec.hi (duals.problem dual.now) (duals.forces forces.now) i) }
{
    let up = curve_of(slope, &dual.r.at(i), total, depth);
    let f = forces.f.at(i);
    ends_within(&up, &f, dual.low.at(i), dual.high.at(i), dual.place.at(i))
}

/// Writes the ends of each row.
pub fn fill_box(
    dual: &Dual,
    forces: &Forces,
    slope: &Array<Wide<68>>,
    depth: &Array<Wide<88>>,
    total: &Wide<88>,
    lo: &mut Array<Fix<20>>,
    hi: &mut Array<Fix<20>>,
) -> Result<(), OutOfRange>
    requires f_room { dual.now.m ≤ length forces.now.f }
    requires slope_room { dual.now.m ≤ length slope.now }
    requires depth_room { dual.now.m ≤ length depth.now }
    requires lo_room { dual.now.m ≤ length lo.old }
    requires hi_room { dual.now.m ≤ length hi.old }
    requires solved { IsSolved dual.now forces.now }
    requires slopes { (k : ℕ) → k < dual.now.m
        → wide_at slope.now k ≡ gradient (duals.problem dual.now) (duals.forces forces.now) k }
    requires depths { (k : ℕ) → k < dual.now.m
        → wide_at depth.now k ≡ shortfall (duals.problem dual.now) (duals.forces forces.now) k }
    requires total { total.now.raw
        ≡ total_shortfall (duals.problem dual.now) (duals.forces forces.now) }
    requires limit { total.now.raw ≤ℤ pos (2 ^ 124) }
    ensures lo_len { length lo.new ≡ length lo.old }
    ensures hi_len { length hi.new ≡ length hi.old }
    ensures first { refusal_of result
        ≡ first_to dual.now.m (certificate.box_out dual.now forces.now) }
    ensures low { IfOk result (λ _. (k : ℕ) → k < dual.now.m
        → number_at lo.new k ≡ spec.lo (duals.problem dual.now) (duals.forces forces.now) k) }
    ensures high { IfOk result (λ _. (k : ℕ) → k < dual.now.m
        → number_at hi.new k ≡ spec.hi (duals.problem dual.now) (duals.forces forces.now) k) }
{
    for i in 0..dual.m {
        let ends = ends_of(dual, forces, i, &slope.at(i), &depth.at(i), total)?;
        lo.put(i, ends.low);
        hi.put(i, ends.high);
    }
    Ok(())
}
