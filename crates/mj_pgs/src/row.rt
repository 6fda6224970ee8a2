// One row of a sweep: its gradient, its next force, and what the cost changes by.
ghost use Rattle.std.specs.Prelude.{◌≡◌, ◌↔◌, ℕ, ◌+◌, ◌*◌, ◌^◌, ◌<◌, ◌≤◌, pos, ◌+ℤ◌, ◌*ℤ◌, ◌-ℤ◌, neg_ℤ, ◌≤ℤ◌, unsigned_abs, length, Some, IsTrue, IfOk};
ghost use Rattle.std.specs.Int.{int_wrap};
ghost use mir.Syntax.{w128};
ghost use Rattle.fx_whole.specs.First.{first_to, refusal_of};
ghost use Rattle.fx_whole.specs.Nearest.{nearest};
ghost use Rattle.fx_whole.specs.Sums.{sum_to};
ghost use Rattle.mj_optimum.specs.Cost as law;
ghost use Rattle.mj_optimum.specs.Limits.{force_limit, reach_limit};
ghost use Rattle.mj_optimum.specs.Sweep as rule;
ghost use Rattle.mj_types.specs.Duals.{bound, is_low, is_high};
ghost use Rattle.mj_types.specs.Parts.{number_at};
ghost use Rattle.mj_types.specs.Problems as problems;
ghost use Rattle.mj_types.specs.Problems.{problem, forces};
ghost use Rattle.mj_types.specs.Ranges.{limited};
ghost use Rattle.mj_pgs.specs.Answer as spec;
ghost use Rattle.mj_pgs.specs.Holding.{IsHeld, HaveSamePlaces, change_at};

use crate::shift::shift;
use fx_num::{Fix, Number, Wide};
use fx_whole::{
    Divisor, add_product, is_within, narrow, nearest_by, negate, scale_up, sum, wide_product,
};
use mj_types::{Dual, Forces, OutOfRange, Quantity};

// The greatest force.
const FORCE_LIMIT: i64 = 1 << 50;

// The product of the first n numbers of a row with u.
fn dot(row: &[Fix<24>], u: &[Fix<44>], n: usize) -> Wide<68>
    requires few { n ≤ 64 }
    requires in_row { n ≤ length row.now }
    requires in_u { n ≤ length u.now }
    requires row_small { (k : ℕ) → k < n → unsigned_abs (number_at row.now k) ≤ 2 ^ 44 }
    requires u_small { (k : ℕ) → k < n → unsigned_abs (number_at u.now k) ≤ 2 ^ 59 }
    ensures value { result.raw ≡ sum_to n (λ k. number_at row.now k *ℤ number_at u.now k) }
    ensures size { unsigned_abs result.raw ≤ n * 2 ^ 103 }
{
    let mut total = Wide { raw: 0 };
    for k in 0..n {
        total = more(total, row[k], u[k]);
    }
    total
}

// The sum with one product more.
fn more(total: Wide<68>, a: Fix<24>, b: Fix<44>) -> Wide<68>
    requires total { unsigned_abs total.raw ≤ 2 ^ 110 }
    requires a { unsigned_abs a.mid ≤ 2 ^ 44 }
    requires b { unsigned_abs b.mid ≤ 2 ^ 59 }
    ensures value { result.raw ≡ total.raw +ℤ a.mid *ℤ b.mid }
    ensures size { unsigned_abs result.raw ≤ unsigned_abs total.raw + 2 ^ 103 }
{
    Wide {
        raw: add_product(total.raw, a.mid, b.mid),
    }
}

// Whether f is at its low bound, and the cost doesn't fall above it.
fn rests(low: Option<Fix<20>>, f: Fix<20>, slope: Wide<68>) -> bool
    ensures low { IsTrue result → bound low ≡ Some f.mid }
    ensures slope { IsTrue result → pos 0 ≤ℤ slope.raw }
{
    match low {
        Some(bound) => slope.raw >= 0 && bound.mid == f.mid,
        None => false,
    }
}

// The low bound where x is below it.
fn at_least(low: Option<Fix<20>>, x: Wide<20>) -> Wide<20>
    ensures { result.raw ≡ rule.at_least (bound low) x.raw }
{
    match low {
        Some(bound) if x.raw < i128::from(bound.mid) => widened(bound),
        _ => x,
    }
}

// The high bound where x is above it.
fn at_most(high: Option<Fix<20>>, x: Wide<20>) -> Wide<20>
    ensures { result.raw ≡ rule.at_most (bound high) x.raw }
{
    match high {
        Some(bound) if i128::from(bound.mid) < x.raw => widened(bound),
        _ => x,
    }
}

// f in 128 bits.
fn widened(f: Fix<20>) -> Wide<20>
    ensures { result.raw ≡ f.mid }
{
    Wide {
        raw: i128::from(f.mid),
    }
}

// The nearest step from f down the slope.
fn stepped(f: Fix<20>, slope: Wide<68>, by: &Divisor) -> Wide<20>
    requires { unsigned_abs slope.raw ≤ 2 ^ 123 }
    ensures { result.raw ≡ f.mid +ℤ nearest (neg_ℤ slope.raw) by.now.d }
{
    Wide {
        raw: sum(i128::from(f.mid), nearest_by(negate(slope.raw), by)),
    }
}

// The next force of a row, before its limit is judged.
fn next_force(
    low: Option<Fix<20>>,
    high: Option<Fix<20>>,
    f: Fix<20>,
    slope: Wide<68>,
    by: &Divisor,
) -> Wide<20>
    requires size { unsigned_abs slope.raw ≤ 2 ^ 123 }
    requires low { IsTrue (is_low (bound low)) }
    requires high { IsTrue (is_high (bound high)) }
    ensures { result.raw ≡ rule.next_force (bound low) (bound high) by.now.d f.mid slope.raw }
{
    if rests(low, f, slope) {
        return widened(f);
    }
    at_most(high, at_least(low, stepped(f, slope, by)))
}

// The force x, unless it is past its limit.
fn force_within(x: Wide<20>, place: usize) -> Result<Fix<20>, OutOfRange>
    ensures first { refusal_of result ≡ limited Quantity.Force place force_limit x.raw }
    ensures value { IfOk result (λ f. f.mid ≡ x.raw) }
    ensures small { IfOk result (λ f. unsigned_abs f.mid ≤ 2 ^ 50) }
{
    OutOfRange::unless(is_within(x.raw, FORCE_LIMIT), Quantity::Force, place)?;
    Ok(Number {
        mid: narrow(x.raw),
        rad: (),
    })
}

// a + b and a b, in 128 bits.
fn plus(a: Wide<88>, b: Wide<88>) -> Wide<88>
    ensures { result.raw ≡ int_wrap w128 (a.raw +ℤ b.raw) }
{
    Wide {
        raw: a.raw.wrapping_add(b.raw),
    }
}

fn times(a: Wide<88>, b: Wide<88>) -> Wide<88>
    ensures { result.raw ≡ int_wrap w128 (a.raw *ℤ b.raw) }
{
    Wide {
        raw: a.raw.wrapping_mul(b.raw),
    }
}

// By how much a step of one force changes the cost, in 128 bits.
fn change(slope: Wide<68>, by: &Divisor, step: Fix<20>) -> Wide<88>
    ensures { result.raw ≡ int_wrap w128 (rule.change slope.raw by.now.d step.mid) }
{
    let c = of_step(step);
    let g = of_slope(slope);
    times(c, plus(plus(g, g), times(of_divisor(by), c)))
}

// The same numbers at the scale of a change.
fn of_step(step: Fix<20>) -> Wide<88>
    ensures { result.raw ≡ step.mid }
{
    Wide {
        raw: i128::from(step.mid),
    }
}

fn of_slope(slope: Wide<68>) -> Wide<88>
    ensures { result.raw ≡ slope.raw }
{
    Wide { raw: slope.raw }
}

fn of_divisor(by: &Divisor) -> Wide<88>
    ensures { result.raw ≡ by.now.d }
{
    Wide { raw: by.d }
}

// What a row's own force adds to its gradient.
fn own(r: Wide<48>, f: Fix<20>) -> Wide<68>
    requires r { unsigned_abs r.raw ≤ 2 ^ 72 }
    requires f { unsigned_abs f.mid ≤ 2 ^ 50 }
    ensures value { result.raw ≡ r.raw *ℤ f.mid }
    ensures size { unsigned_abs result.raw ≤ 2 ^ 122 }
{
    Wide {
        raw: wide_product(r.raw, i128::from(f.mid)),
    }
}

// The right side at the gradient's scale.
fn raised(b: Fix<32>) -> Wide<68>
    requires { unsigned_abs b.mid ≤ 2 ^ 56 }
    ensures value { result.raw ≡ pos (2 ^ 36) *ℤ b.mid }
    ensures size { unsigned_abs result.raw ≤ 2 ^ 92 }
{
    Wide {
        raw: scale_up(b.mid, 36),
    }
}

// The sum of three.
fn added(a: Wide<68>, b: Wide<68>, c: Wide<68>) -> Wide<68>
    requires { unsigned_abs a.raw + unsigned_abs b.raw + unsigned_abs c.raw ≤ 2 ^ 123 }
    ensures value { result.raw ≡ a.raw +ℤ b.raw +ℤ c.raw }
    ensures size { unsigned_abs result.raw ≤ 2 ^ 123 }
{
    Wide {
        raw: sum(sum(a.raw, b.raw), c.raw),
    }
}

// The gradient at row i, whose force is f.
fn gradient(dual: &Dual, i: usize, f: Fix<20>, out: &Forces) -> Wide<68>
    requires row { i < dual.now.m }
    requires held { IsHeld dual.now out.now }
    requires force { f.mid ≡ forces out.now i }
    ensures value { result.raw ≡ law.gradient (problem dual.now) (forces out.now) i }
    ensures size { unsigned_abs result.raw ≤ 2 ^ 123 }
{
    let row = dual.row(i);
    let used = out.used.at(i);
    let along = dot(row, out.u.as_slice(), used);
    let own = own(dual.r.at(i), f);
    let right = raised(dual.b.at(i));
    added(along, own, right)
}

// The next force of row i along its gradient.
fn next(
    dual: &Dual,
    i: usize,
    f: Fix<20>,
    slope: Wide<68>,
    out: &Forces,
) -> Result<Fix<20>, OutOfRange>
    requires row { i < dual.now.m }
    requires held { IsHeld dual.now out.now }
    requires force { f.mid ≡ forces out.now i }
    requires slope { slope.raw ≡ law.gradient (problem dual.now) (forces out.now) i }
    requires size { unsigned_abs slope.raw ≤ 2 ^ 123 }
    ensures first { refusal_of result
        ≡ limited Quantity.Force (problems.place dual.now i) force_limit
        (rule.update (problem dual.now) (forces out.now) i) }
    ensures value { IfOk result (λ x. x.mid ≡ rule.update (problem dual.now) (forces out.now) i) }
    ensures small { IfOk result (λ x. unsigned_abs x.mid ≤ 2 ^ 50) }
{
    let next = next_force(
        dual.low.at(i),
        dual.high.at(i),
        f,
        slope,
        out.divisor.entry(i),
    );
    force_within(next, dual.place.at(i))
}

// The step from f to a force.
fn step(f: Fix<20>, next: Fix<20>) -> Fix<20>
    requires f { unsigned_abs f.mid ≤ 2 ^ 50 }
    requires next { unsigned_abs next.mid ≤ 2 ^ 50 }
    ensures value { result.mid ≡ next.mid -ℤ f.mid }
    ensures size { unsigned_abs result.mid ≤ 2 ^ 51 }
{
    Number {
        mid: next.mid - f.mid,
        rad: (),
    }
}

fn is_same(x: Fix<20>, f: Fix<20>) -> bool
    ensures { IsTrue result ↔ (x.mid ≡ f.mid) }
{
    x.mid == f.mid
}

// Moves u by the step of row i's force to x, and puts that force in place.
fn put(dual: &Dual, i: usize, f: Fix<20>, x: Fix<20>, out: &mut Forces) -> Result<(), OutOfRange>
    requires row { i < dual.now.m }
    requires held { IsHeld dual.now out.old }
    requires force { f.mid ≡ forces out.old i }
    requires small { unsigned_abs x.mid ≤ 2 ^ 50 }
    ensures places { HaveSamePlaces out.old out.new }
    ensures first { refusal_of result ≡ first_to dual.now.nv (λ k.
        limited Quantity.Reach (k + 1) reach_limit
        (law.reach (problem dual.now) (rule.put_at (forces out.old) i x.mid) k)) }
    ensures held { IfOk result (λ _. IsHeld dual.now out.new) }
    ensures forces { IfOk result (λ _. forces out.new ≡ rule.put_at (forces out.old) i x.mid) }
{
    shift(dual.row(i), out.used.at(i), step(f, x), &mut out.u)?;
    out.f.put(i, x);
    Ok(())
}

/// Updates row i: its force takes the nearest step to the least cost, within its bounds, and u follows.
/// Gives what the cost changes by, in 128 bits. A force that stays moves nothing.
pub(crate) fn update(dual: &Dual, i: usize, out: &mut Forces) -> Result<Wide<88>, OutOfRange>
    requires row { i < dual.now.m }
    requires held { IsHeld dual.now out.old }
    ensures places { HaveSamePlaces out.old out.new }
    ensures first { refusal_of result
        ≡ spec.row_fault (problem dual.now) (problems.place dual.now) (forces out.old) i }
    ensures held { IfOk result (λ _. IsHeld dual.now out.new) }
    ensures forces { IfOk result (λ _.
        forces out.new ≡ rule.after_update (problem dual.now) (forces out.old) i) }
    ensures change { IfOk result (λ x.
        x.raw ≡ int_wrap w128 (change_at (problem dual.now) (forces out.old) i)) }
{
    let f = out.f.at(i);
    let slope = gradient(dual, i, f, out);
    let x = next(dual, i, f, slope, out)?;
    if is_same(x, f) {
        return Ok(Wide { raw: 0 });
    }
    put(dual, i, f, x, out)?;
    Ok(change(slope, out.divisor.entry(i), step(f, x)))
}
