// The forces of all rows, one by one.
ghost use Rattle.std.specs.Prelude.{◌≡◌, ℕ, length, ◌-◌, ◌*◌, ◌^◌, ◌<◌, ◌≤◌, ◌-ℤ◌, unsigned_abs, IfOk, OnOk};
ghost use Rattle.fx_whole.specs.First.{refusal_of, first_to};
ghost use Rattle.mj_factor.specs.Residuals.{greatest_to};
ghost use Rattle.mj_types.specs.Duals.{entry_at, wide_at, bound, bound_at};
ghost use Rattle.mj_types.specs.Parts.{number_at};
ghost use Rattle.mj_types.specs.Problems.{place, forces};
ghost use Rattle.mj_inverse.specs.Carriers.{CanSeparate, motion_of, row_of};
ghost use Rattle.mj_inverse.specs.Rows as spec;

use crate::rows::separate;
use fx_list::Array;
use fx_num::Fix;
use mj_types::{Dual, DualRow, Forces, OutOfRange, Rows};

// Row `at`, from 1, of the Jacobians.
fn jacobian_row(nv: usize, rows: &Rows, at: usize) -> &[Fix<32>]
    requires few { nv ≤ 64 }
    requires some { 1 ≤ at }
    requires there { at * nv ≤ length rows.now.jac.list }
    ensures width { length result.now ≡ nv }
    ensures numbers { (i : ℕ) → i < nv
        → number_at result.now i ≡ entry_at nv rows.now.jac.list (at - 1) i }
{
    &rows.jac.as_slice()[(at - 1) * nv..at * nv]
}

// What a dual holds of row `k` beside its numbers of `G`.
fn held_row(dual: &Dual, k: usize) -> DualRow
    requires { k < dual.now.m }
    ensures place { result.place ≡ place dual.now k }
    ensures r { result.r.raw ≡ wide_at dual.now.r k }
    ensures b { result.b.mid ≡ number_at dual.now.b k }
    ensures low { bound result.low ≡ bound_at dual.now.low k }
    ensures high { bound result.high ≡ bound_at dual.now.high k }
{
    DualRow {
        place: dual.place.at(k),
        diag: dual.diag.at(k),
        r: dual.r.at(k),
        b: dual.b.at(k),
        low: dual.low.at(k),
        high: dual.high.at(k),
    }
}

// The force of row `k` by itself.
fn separate_at(
    dual: &Dual,
    rows: &Rows,
    smooth: &[Fix<32>],
    accel: &[Fix<32>],
    k: usize,
) -> Result<Fix<20>, OutOfRange>
    requires can { CanSeparate rows.now dual.now smooth.now accel.now }
    requires row { k < dual.now.m }
    ensures value { IfOk result (λ x. x.mid ≡ spec.separate (motion_of smooth.now accel.now)
        (row_of (length accel.now) rows.now dual.now k)) }
    ensures small { IfOk result (λ x. unsigned_abs x.mid ≤ 2 ^ 50) }
    ensures first { refusal_of result ≡ spec.row_fault (motion_of smooth.now accel.now)
        (row_of (length accel.now) rows.now dual.now k) }
{
    let row = held_row(dual, k);
    separate(
        jacobian_row(accel.len(), rows, row.place),
        smooth,
        accel,
        &row,
    )
}

// How far `x` is from `f`.
fn away(x: &Fix<20>, f: &Fix<20>) -> u64
    requires x { unsigned_abs x.now.mid ≤ 2 ^ 50 }
    requires f { unsigned_abs f.now.mid ≤ 2 ^ 50 }
    ensures value { result ≡ unsigned_abs (x.now.mid -ℤ f.now.mid) }
    ensures small { result ≤ 2 ^ 51 }
{
    (x.mid - f.mid).unsigned_abs()
}

/// Writes the force of each of the dual's rows by itself. The answer is the largest difference from the
/// step's own forces.
pub(crate) fn fill_forces(
    dual: &Dual,
    rows: &Rows,
    step: &Forces,
    smooth: &[Fix<32>],
    accel: &[Fix<32>],
    out: &mut Array<Fix<20>>,
) -> Result<u64, OutOfRange>
    requires can { CanSeparate rows.now dual.now smooth.now accel.now }
    requires step_room { dual.now.m ≤ length step.now.f }
    requires step_small { (k : ℕ) → k < dual.now.m → unsigned_abs (forces step.now k) ≤ 2 ^ 50 }
    requires room { dual.now.m ≤ length out.old }
    ensures room { length out.new ≡ length out.old }
    ensures values { OnOk result ((k : ℕ) → k < dual.now.m → number_at out.new k
        ≡ spec.separate (motion_of smooth.now accel.now)
        (row_of (length accel.now) rows.now dual.now k)) }
    ensures small { OnOk result ((k : ℕ) → k < dual.now.m
        → unsigned_abs (number_at out.new k) ≤ 2 ^ 50) }
    ensures gap { IfOk result (λ gap. gap ≡ greatest_to dual.now.m (λ k. unsigned_abs
        (spec.separate (motion_of smooth.now accel.now)
        (row_of (length accel.now) rows.now dual.now k) -ℤ forces step.now k))) }
    ensures near { IfOk result (λ gap. gap ≤ 2 ^ 51) }
    ensures first { refusal_of result ≡ first_to dual.now.m (λ k. spec.row_fault
        (motion_of smooth.now accel.now) (row_of (length accel.now) rows.now dual.now k)) }
{
    let mut gap = 0u64;
    for k in 0..dual.m {
        let f = step.f.at(k);
        let x = separate_at(dual, rows, smooth, accel, k)?;
        out.put(k, x);
        gap = gap.max(away(&x, &f));
    }
    Ok(gap)
}
