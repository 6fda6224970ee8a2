// Judging the numbers of a block.
ghost use Rattle.std.specs.Prelude.{◌≡◌, ◌≤◌, ◌<◌, ◌+◌, ◌^◌, ◌*ℤ◌, ◌+ℤ◌, ◌*◌, pos, ℕ, length, unsigned_abs, None, slice_index_or, IfOk, IsTrue};
ghost use Rattle.mj_optimum.specs.Limits.{reach_limit};
ghost use Rattle.mj_types.specs.Ranges.{is_within};
ghost use Rattle.mj_cert.specs.Certificate.{IsCertificate};
ghost use Rattle.fx_whole.specs.First.{first_to, or_first, refusal_of};
ghost use Rattle.fx_whole.specs.Sums.{sum_to};
ghost use Rattle.mj_optimum.specs.Cost.{reach};
ghost use Rattle.mj_optimum.specs.Feasible.{IsFeasible};
ghost use Rattle.mj_types.specs.Duals.{bound};
ghost use Rattle.mj_types.specs.Parts.{number_at};
ghost use Rattle.mj_types.specs.Problems as problems;
ghost use Rattle.mj_types.specs.Problems.{problem, forces};
ghost use Rattle.mj_check.specs.Numbers as spec;
ghost use Rattle.mj_check.specs.Stated.{printed_of};

use crate::numbers::Pair;
use crate::rejection::Rejection;
use crate::rows::ActiveRow;
use fx_list::{Array, Listing};
use fx_num::{Fix, Number, Wide};
use fx_whole::add_product;
use mj_cert::certify;
use mj_types::{Cert, Dual, Forces, OutOfRange, Quantity, Reason};

// A line is rejected for a reason, unless a test holds.
fn unless(good: bool, line: usize, reason: Reason) -> Result<(), Rejection>
    ensures { refusal_of result ≡ spec.unless good line reason }
{
    if good {
        Ok(())
    } else {
        Err(Rejection { line, reason })
    }
}

// Whether a force is at least its low bound.
fn is_above(low: Option<Fix<20>>, f: &Fix<20>) -> bool
    ensures { result ≡ spec.is_above (bound low) f.now.mid }
{
    match low {
        Some(low) => low.mid <= f.mid,
        None => true,
    }
}

// Whether a force is at most its high bound.
fn is_below(high: Option<Fix<20>>, f: &Fix<20>) -> bool
    ensures { result ≡ spec.is_below (bound high) f.now.mid }
{
    match high {
        Some(high) => f.mid <= high.mid,
        None => true,
    }
}

// Whether the force of row i is within its bounds.
fn is_feasible(dual: &Dual, forces: &Forces, i: usize) -> bool
    requires row { i < dual.now.m }
    requires room { dual.now.m ≤ length forces.now.f }
    ensures { result ≡ spec.is_feasible (problem dual.now) (problems.forces forces.now) i }
{
    let f = forces.f.at(i);
    is_above(dual.low.at(i), &f) && is_below(dual.high.at(i), &f)
}

// The line of row i.
fn line_of(dual: &Dual, first: usize, i: usize) -> usize
    requires row { i < dual.now.m }
    requires lines { spec.HaveLines dual.now.m first (problems.place dual.now) }
    ensures { result ≡ spec.row_line first (problems.place dual.now) i }
{
    first + dual.place.at(i)
}

// The force of row i is judged.
fn judge_force(dual: &Dual, forces: &Forces, first: usize, i: usize) -> Result<(), Rejection>
    requires row { i < dual.now.m }
    requires room { dual.now.m ≤ length forces.now.f }
    requires lines { spec.HaveLines dual.now.m first (problems.place dual.now) }
    ensures { refusal_of result ≡ spec.force_fault (problem dual.now)
        (problems.forces forces.now) (spec.row_line first (problems.place dual.now)) i }
{
    unless(
        is_feasible(dual, forces, i),
        line_of(dual, first, i),
        Reason::Feasible,
    )
}

// The forces are judged, row by row.
fn judge_forces(dual: &Dual, forces: &Forces, first: usize) -> Result<(), Rejection>
    requires room { dual.now.m ≤ length forces.now.f }
    requires lines { spec.HaveLines dual.now.m first (problems.place dual.now) }
    ensures { refusal_of result ≡ first_to dual.now.m (spec.force_fault (problem dual.now)
        (problems.forces forces.now) (spec.row_line first (problems.place dual.now))) }
{
    for i in 0..dual.m {
        judge_force(dual, forces, first, i)?;
    }
    Ok(())
}

// `total + g f`.
fn plus_product(total: &Wide<44>, g: &Fix<24>, f: &Fix<20>) -> Wide<44>
    requires { unsigned_abs total.now.raw + unsigned_abs g.now.mid * unsigned_abs f.now.mid
        < 2 ^ 127 }
    ensures { result.raw ≡ total.now.raw +ℤ g.now.mid *ℤ f.now.mid }
{
    Wide {
        raw: add_product(total.raw, g.mid, f.mid),
    }
}

// `u = G^T f` at dof k.
fn reach_at(dual: &Dual, f: &Array<Fix<20>>, k: usize) -> Wide<44>
    requires dof { k < dual.now.nv }
    requires room { dual.now.m ≤ length f.now }
    requires small { (i : ℕ) → i < dual.now.m → unsigned_abs (number_at f.now i) ≤ 2 ^ 50 }
    ensures { result.raw ≡ reach (problem dual.now) (number_at f.now) k }
{
    let g = dual.g.as_slice();
    let f = f.as_slice();
    let mut total = Wide { raw: 0 };
    for i in 0..dual.m {
        total = plus_product(&total, &g[i * dual.nv + k], &f[i]);
    }
    total
}

// Whether a number of u is within its limit.
fn is_near(u: &Wide<44>) -> bool
    ensures value { result ≡ is_within reach_limit u.now.raw }
    ensures size { IsTrue result → unsigned_abs u.now.raw ≤ 2 ^ 59 }
{
    u.raw.unsigned_abs() <= 1 << 59
}

// A number of u that is within its limit.
fn narrow(u: &Wide<44>) -> Fix<44>
    requires { unsigned_abs u.now.raw ≤ 2 ^ 59 }
    ensures { result.mid ≡ u.now.raw }
{
    Number {
        mid: u.raw as i64,
        rad: (),
    }
}

// u at dof k, judged.
fn judge_reach(dual: &Dual, f: &Array<Fix<20>>, k: usize) -> Result<Fix<44>, OutOfRange>
    requires dof { k < dual.now.nv }
    requires room { dual.now.m ≤ length f.now }
    requires small { (i : ℕ) → i < dual.now.m → unsigned_abs (number_at f.now i) ≤ 2 ^ 50 }
    ensures first { refusal_of result
        ≡ spec.reach_fault (problem dual.now) (number_at f.now) k }
    ensures value { IfOk result (λ u. u.mid ≡ reach (problem dual.now) (number_at f.now) k) }
    ensures near { IfOk result (λ u. unsigned_abs u.mid ≤ 2 ^ 59) }
{
    let u = reach_at(dual, f, k);
    if is_near(&u) {
        Ok(narrow(&u))
    } else {
        Err(OutOfRange {
            kind: Quantity::Reach,
            index: k + 1,
        })
    }
}

// u, judged dof by dof.
fn fill_reach(dual: &Dual, f: &Array<Fix<20>>, u: &mut Array<Fix<44>>) -> Result<(), OutOfRange>
    requires room { dual.now.m ≤ length f.now }
    requires u_room { dual.now.nv ≤ length u.old }
    requires small { (i : ℕ) → i < dual.now.m → unsigned_abs (number_at f.now i) ≤ 2 ^ 50 }
    ensures len { length u.new ≡ length u.old }
    ensures first { refusal_of result ≡ first_to dual.now.nv
        (spec.reach_fault (problem dual.now) (number_at f.now)) }
    ensures value { IfOk result (λ _. (k : ℕ) → k < dual.now.nv
        → number_at u.new k ≡ reach (problem dual.now) (number_at f.now) k) }
    ensures near { IfOk result (λ _. (k : ℕ) → k < dual.now.nv
        → unsigned_abs (number_at u.new k) ≤ 2 ^ 59) }
{
    for k in 0..dual.nv {
        u.put(k, judge_reach(dual, f, k)?);
    }
    Ok(())
}

// All numbers that have a limit are judged, and the certificate is made.
fn measure(dual: &Dual, forces: &mut Forces, cert: &mut Cert) -> Result<(), OutOfRange>
    requires f_room { dual.now.m ≤ length forces.old.f }
    requires u_room { dual.now.nv ≤ length forces.old.u }
    requires lo_room { dual.now.m ≤ length cert.old.lo }
    requires hi_room { dual.now.m ≤ length cert.old.hi }
    requires slope_room { dual.now.m ≤ length cert.old.slope }
    requires depth_room { dual.now.m ≤ length cert.old.depth }
    requires small { (i : ℕ) → i < dual.now.m
        → unsigned_abs (problems.forces forces.old i) ≤ 2 ^ 50 }
    requires feasible { IsFeasible (problem dual.now) (problems.forces forces.old) (pos 1) }
    ensures f { forces.new.f ≡ forces.old.f }
    ensures u_len { length forces.new.u ≡ length forces.old.u }
    ensures lo_len { length cert.new.lo ≡ length cert.old.lo }
    ensures hi_len { length cert.new.hi ≡ length cert.old.hi }
    ensures slope_len { length cert.new.slope ≡ length cert.old.slope }
    ensures depth_len { length cert.new.depth ≡ length cert.old.depth }
    ensures first { refusal_of result ≡ spec.numbers_out (problem dual.now)
        (problems.place dual.now) (problems.forces forces.old) }
    ensures numbers { IfOk result (λ _. IsCertificate dual.now forces.new cert.new) }
{
    fill_reach(dual, &forces.f, &mut forces.u)?;
    mj_cost::judge(dual, forces)?;
    certify(dual, forces, cert)?;
    Ok(())
}

// The forces are within their bounds, as what was judged means.
fn judge_feasible(dual: &Dual, forces: &Forces, first: usize) -> Result<(), Rejection>
    requires room { dual.now.m ≤ length forces.now.f }
    requires lines { spec.HaveLines dual.now.m first (problems.place dual.now) }
    ensures first { refusal_of result ≡ first_to dual.now.m (spec.force_fault (problem dual.now)
        (problems.forces forces.now) (spec.row_line first (problems.place dual.now))) }
    ensures feasible { IfOk result (λ _.
        IsFeasible (problem dual.now) (problems.forces forces.now) (pos 1)) }
{
    judge_forces(dual, forces, first)?;
    Ok(())
}

// Whether an end of a box is the certificate's.
fn is_same_end(told: &Wide<0>, end: &Fix<20>) -> bool
    ensures { result ≡ spec.is_same told.now.raw end.now.mid }
{
    told.raw <= i128::from(end.mid) && i128::from(end.mid) <= told.raw
}

// Whether a cost is the certificate's.
fn is_same_cost(told: &Wide<0>, cost: &i128) -> bool
    ensures { result ≡ spec.is_same told.now.raw cost.now }
{
    told.raw <= *cost && *cost <= told.raw
}

// Whether the box of row i is the certificate's.
fn is_boxed(
    dual: &Dual,
    forces: &Forces,
    cert: &Cert,
    rows: &Listing<ActiveRow>,
    told: &Pair,
    i: usize,
) -> bool
    requires row { i < dual.now.m }
    requires rows { dual.now.m ≤ length rows.now.list }
    requires lo_room { dual.now.m ≤ length cert.now.lo }
    requires hi_room { dual.now.m ≤ length cert.now.hi }
    requires numbers { IsCertificate dual.now forces.now cert.now }
    ensures { result ≡ spec.is_boxed (problem dual.now)
        (printed_of (problems.forces forces.now) rows.now.list told.now) i }
{
    let row = rows.entry(i);
    is_same_end(&row.told.lo, cert.lo.entry(i)) && is_same_end(&row.told.hi, cert.hi.entry(i))
}

// The box of row i is judged.
fn judge_box(
    dual: &Dual,
    forces: &Forces,
    cert: &Cert,
    rows: &Listing<ActiveRow>,
    told: &Pair,
    first: usize,
    i: usize,
) -> Result<(), Rejection>
    requires row { i < dual.now.m }
    requires lines { spec.HaveLines dual.now.m first (problems.place dual.now) }
    requires rows { dual.now.m ≤ length rows.now.list }
    requires lo_room { dual.now.m ≤ length cert.now.lo }
    requires hi_room { dual.now.m ≤ length cert.now.hi }
    requires numbers { IsCertificate dual.now forces.now cert.now }
    ensures { refusal_of result ≡ spec.box_fault (problem dual.now)
        (printed_of (problems.forces forces.now) rows.now.list told.now)
        (spec.row_line first (problems.place dual.now)) i }
{
    unless(
        is_boxed(dual, forces, cert, rows, told, i),
        line_of(dual, first, i),
        Reason::Box,
    )
}

// The boxes are judged, row by row.
fn judge_boxes(
    dual: &Dual,
    forces: &Forces,
    cert: &Cert,
    rows: &Listing<ActiveRow>,
    told: &Pair,
    first: usize,
) -> Result<(), Rejection>
    requires lines { spec.HaveLines dual.now.m first (problems.place dual.now) }
    requires rows { dual.now.m ≤ length rows.now.list }
    requires lo_room { dual.now.m ≤ length cert.now.lo }
    requires hi_room { dual.now.m ≤ length cert.now.hi }
    requires numbers { IsCertificate dual.now forces.now cert.now }
    ensures { refusal_of result ≡ first_to dual.now.m (spec.box_fault (problem dual.now)
        (printed_of (problems.forces forces.now) rows.now.list told.now)
        (spec.row_line first (problems.place dual.now))) }
{
    for i in 0..dual.m {
        judge_box(dual, forces, cert, rows, told, first, i)?;
    }
    Ok(())
}

// The cost is judged.
fn judge_cost(
    dual: &Dual,
    forces: &Forces,
    cert: &Cert,
    rows: &Listing<ActiveRow>,
    told: &Pair,
    line: usize,
) -> Result<(), Rejection>
    requires numbers { IsCertificate dual.now forces.now cert.now }
    ensures { refusal_of result ≡ spec.cost_told_fault (problem dual.now)
        (printed_of (problems.forces forces.now) rows.now.list told.now) line }
{
    unless(is_same_cost(&told.first, &cert.cost2), line, Reason::Cost)
}

// The bound is judged.
fn judge_bound(
    dual: &Dual,
    forces: &Forces,
    cert: &Cert,
    rows: &Listing<ActiveRow>,
    told: &Pair,
    line: usize,
) -> Result<(), Rejection>
    requires numbers { IsCertificate dual.now forces.now cert.now }
    ensures { refusal_of result ≡ spec.bound_told_fault (problem dual.now)
        (printed_of (problems.forces forces.now) rows.now.list told.now) line }
{
    unless(
        is_same_cost(&told.second, &cert.bound2),
        line,
        Reason::Bound,
    )
}

// What is printed beside the forces is judged against a certificate.
fn judge_printed(
    dual: &Dual,
    forces: &Forces,
    cert: &Cert,
    rows: &Listing<ActiveRow>,
    told: &Pair,
    first: usize,
    cost_line: usize,
) -> Result<(), Rejection>
    requires lines { spec.HaveLines dual.now.m first (problems.place dual.now) }
    requires rows { dual.now.m ≤ length rows.now.list }
    requires lo_room { dual.now.m ≤ length cert.now.lo }
    requires hi_room { dual.now.m ≤ length cert.now.hi }
    requires numbers { IsCertificate dual.now forces.now cert.now }
    ensures { refusal_of result ≡ spec.printed_fault (problem dual.now)
        (printed_of (problems.forces forces.now) rows.now.list told.now)
        (spec.row_line first (problems.place dual.now)) cost_line }
{
    judge_cost(dual, forces, cert, rows, told, cost_line)?;
    judge_bound(dual, forces, cert, rows, told, cost_line)?;
    judge_boxes(dual, forces, cert, rows, told, first)?;
    Ok(())
}

// The limits are judged, at the line of the cost, and the certificate is made.
fn judge_limits(
    dual: &Dual,
    forces: &mut Forces,
    cert: &mut Cert,
    cost_line: usize,
) -> Result<(), Rejection>
    requires f_room { dual.now.m ≤ length forces.old.f }
    requires u_room { dual.now.nv ≤ length forces.old.u }
    requires lo_room { dual.now.m ≤ length cert.old.lo }
    requires hi_room { dual.now.m ≤ length cert.old.hi }
    requires slope_room { dual.now.m ≤ length cert.old.slope }
    requires depth_room { dual.now.m ≤ length cert.old.depth }
    requires small { (i : ℕ) → i < dual.now.m
        → unsigned_abs (problems.forces forces.old i) ≤ 2 ^ 50 }
    requires feasible { IsFeasible (problem dual.now) (problems.forces forces.old) (pos 1) }
    ensures f { forces.new.f ≡ forces.old.f }
    ensures u_len { length forces.new.u ≡ length forces.old.u }
    ensures lo_len { length cert.new.lo ≡ length cert.old.lo }
    ensures hi_len { length cert.new.hi ≡ length cert.old.hi }
    ensures slope_len { length cert.new.slope ≡ length cert.old.slope }
    ensures depth_len { length cert.new.depth ≡ length cert.old.depth }
    ensures first { refusal_of result ≡ spec.limits_fault (problem dual.now)
        (problems.place dual.now) (problems.forces forces.old) cost_line }
    ensures numbers { IfOk result (λ _. IsCertificate dual.now forces.new cert.new) }
{
    match measure(dual, forces, cert) {
        Ok(()) => Ok(()),
        Err(_) => Err(Rejection {
            line: cost_line,
            reason: Reason::Limit,
        }),
    }
}

/// Judges the numbers of a block, whose row `n` stands on the line `first + n`.
pub(crate) fn judge(
    dual: &Dual,
    forces: &mut Forces,
    cert: &mut Cert,
    rows: &Listing<ActiveRow>,
    told: &Pair,
    first: usize,
    cost_line: usize,
) -> Result<(), Rejection>
    requires lines { spec.HaveLines dual.now.m first (problems.place dual.now) }
    requires rows { dual.now.m ≤ length rows.now.list }
    requires f_room { dual.now.m ≤ length forces.old.f }
    requires u_room { dual.now.nv ≤ length forces.old.u }
    requires lo_room { dual.now.m ≤ length cert.old.lo }
    requires hi_room { dual.now.m ≤ length cert.old.hi }
    requires slope_room { dual.now.m ≤ length cert.old.slope }
    requires depth_room { dual.now.m ≤ length cert.old.depth }
    requires small { (i : ℕ) → i < dual.now.m
        → unsigned_abs (problems.forces forces.old i) ≤ 2 ^ 50 }
    ensures f { forces.new.f ≡ forces.old.f }
    ensures u_len { length forces.new.u ≡ length forces.old.u }
    ensures lo_len { length cert.new.lo ≡ length cert.old.lo }
    ensures hi_len { length cert.new.hi ≡ length cert.old.hi }
    ensures slope_len { length cert.new.slope ≡ length cert.old.slope }
    ensures depth_len { length cert.new.depth ≡ length cert.old.depth }
    ensures first { refusal_of result ≡ spec.numbers_fault (problem dual.now)
        (problems.place dual.now)
        (printed_of (problems.forces forces.old) rows.now.list told.now) first cost_line }
{
    judge_feasible(dual, forces, first)?;
    judge_limits(dual, forces, cert, cost_line)?;
    judge_printed(dual, forces, cert, rows, told, first, cost_line)?;
    Ok(())
}
