// What a step of one force adds to u.
ghost use Rattle.std.specs.Prelude.{◌≡◌, ℕ, ◌+◌, ◌^◌, ◌<◌, ◌≤◌, ◌+ℤ◌, ◌*ℤ◌, unsigned_abs, length, IfOk};
ghost use Rattle.fx_whole.specs.First.{refusal_of, first_to};
ghost use Rattle.mj_optimum.specs.Limits.{reach_limit};
ghost use Rattle.mj_types.specs.Parts.{number_at};
ghost use Rattle.mj_types.specs.Ranges.{limited};
ghost use Rattle.mj_pgs.specs.Holding as spec;

use fx_list::Array;
use fx_num::{Fix, Number, Wide};
use fx_whole::{add_product, is_within, narrow};
use mj_types::{OutOfRange, Quantity};

// The greatest number of u.
const REACH_LIMIT: i64 = 1 << 59;

// The greatest step that moves u in 64 bits.
const SMALL_STEP: i64 = 1 << 18;

// A number of u moved by a small step: 64 bits hold it.
fn moved_small(u: Fix<44>, g: Fix<24>, step: Fix<20>) -> Fix<44>
    requires u { unsigned_abs u.mid ≤ 2 ^ 59 }
    requires g { unsigned_abs g.mid ≤ 2 ^ 44 }
    requires step { unsigned_abs step.mid ≤ 2 ^ 18 }
    ensures { result.mid ≡ u.mid +ℤ g.mid *ℤ step.mid }
{
    Number {
        mid: u.mid + g.mid * step.mid,
        rad: (),
    }
}

// A number of u moved by any step.
fn moved(u: Fix<44>, g: Fix<24>, step: Fix<20>) -> Wide<44>
    requires u { unsigned_abs u.mid ≤ 2 ^ 59 }
    requires g { unsigned_abs g.mid ≤ 2 ^ 44 }
    requires step { unsigned_abs step.mid ≤ 2 ^ 51 }
    ensures { result.raw ≡ u.mid +ℤ g.mid *ℤ step.mid }
{
    Wide {
        raw: add_product(i128::from(u.mid), g.mid, step.mid),
    }
}

// The number x of u at dof k, unless it is past its limit.
fn near_small(x: Fix<44>, k: usize) -> Result<Fix<44>, OutOfRange>
    requires { k < 64 }
    ensures first { refusal_of result ≡ limited Quantity.Reach (k + 1) reach_limit x.mid }
    ensures value { IfOk result (λ y. y.mid ≡ x.mid) }
    ensures small { IfOk result (λ y. unsigned_abs y.mid ≤ 2 ^ 59) }
{
    let good = x.mid.unsigned_abs() <= REACH_LIMIT.unsigned_abs();
    OutOfRange::unless(good, Quantity::Reach, k + 1)?;
    Ok(x)
}

fn near(x: Wide<44>, k: usize) -> Result<Fix<44>, OutOfRange>
    requires { k < 64 }
    ensures first { refusal_of result ≡ limited Quantity.Reach (k + 1) reach_limit x.raw }
    ensures value { IfOk result (λ y. y.mid ≡ x.raw) }
    ensures small { IfOk result (λ y. unsigned_abs y.mid ≤ 2 ^ 59) }
{
    OutOfRange::unless(is_within(x.raw, REACH_LIMIT), Quantity::Reach, k + 1)?;
    Ok(Number {
        mid: narrow(x.raw),
        rad: (),
    })
}

// Moves the first n numbers of u by a small step.
fn shift_small(
    row: &[Fix<24>],
    n: usize,
    step: Fix<20>,
    u: &mut Array<Fix<44>>,
) -> Result<(), OutOfRange>
    requires few { n ≤ 64 }
    requires in_row { n ≤ length row.now }
    requires in_u { n ≤ length u.old }
    requires row_small { (k : ℕ) → k < n → unsigned_abs (number_at row.now k) ≤ 2 ^ 44 }
    requires u_small { (k : ℕ) → k < n → unsigned_abs (number_at u.old k) ≤ 2 ^ 59 }
    requires step_small { unsigned_abs step.mid ≤ 2 ^ 18 }
    ensures len { length u.new ≡ length u.old }
    ensures first { refusal_of result ≡ first_to n (spec.shift_fault row.now u.old step.mid) }
    ensures shifted { IfOk result (λ _. spec.IsShifted row.now u.old u.new step.mid n) }
{
    for k in 0..n {
        let x = near_small(moved_small(u.at(k), row[k], step), k)?;
        u.put(k, x);
    }
    Ok(())
}

// Moves them by any step.
fn shift_far(
    row: &[Fix<24>],
    n: usize,
    step: Fix<20>,
    u: &mut Array<Fix<44>>,
) -> Result<(), OutOfRange>
    requires few { n ≤ 64 }
    requires in_row { n ≤ length row.now }
    requires in_u { n ≤ length u.old }
    requires row_small { (k : ℕ) → k < n → unsigned_abs (number_at row.now k) ≤ 2 ^ 44 }
    requires u_small { (k : ℕ) → k < n → unsigned_abs (number_at u.old k) ≤ 2 ^ 59 }
    requires step_small { unsigned_abs step.mid ≤ 2 ^ 51 }
    ensures len { length u.new ≡ length u.old }
    ensures first { refusal_of result ≡ first_to n (spec.shift_fault row.now u.old step.mid) }
    ensures shifted { IfOk result (λ _. spec.IsShifted row.now u.old u.new step.mid n) }
{
    for k in 0..n {
        let x = near(moved(u.at(k), row[k], step), k)?;
        u.put(k, x);
    }
    Ok(())
}

// Moves the first n numbers of u by a step along a row, up to the first that passes its limit.
pub(crate) fn shift(
    row: &[Fix<24>],
    n: usize,
    step: Fix<20>,
    u: &mut Array<Fix<44>>,
) -> Result<(), OutOfRange>
    requires few { n ≤ 64 }
    requires in_row { n ≤ length row.now }
    requires in_u { n ≤ length u.old }
    requires row_small { (k : ℕ) → k < n → unsigned_abs (number_at row.now k) ≤ 2 ^ 44 }
    requires u_small { (k : ℕ) → k < n → unsigned_abs (number_at u.old k) ≤ 2 ^ 59 }
    requires step_small { unsigned_abs step.mid ≤ 2 ^ 51 }
    ensures len { length u.new ≡ length u.old }
    ensures first { refusal_of result ≡ first_to n (spec.shift_fault row.now u.old step.mid) }
    ensures shifted { IfOk result (λ _. spec.IsShifted row.now u.old u.new step.mid n) }
{
    if step.mid.unsigned_abs() <= SMALL_STEP.unsigned_abs() {
        shift_small(row, n, step, u)
    } else {
        shift_far(row, n, step, u)
    }
}
