// The force of one row by itself.
ghost use Rattle.std.specs.Prelude.{◌≡◌, ℕ, pos, length, ◌+◌, ◌^◌, ◌<◌, ◌≤◌, ◌-ℤ◌, ◌*ℤ◌, ◌<ℤ◌, unsigned_abs, IfOk};
ghost use Rattle.fx_whole.specs.First.{refusal_of};
ghost use Rattle.fx_whole.specs.Nearest as whole;
ghost use Rattle.mj_optimum.specs.Sweep as rule;
ghost use Rattle.mj_types.specs.Duals.{bound};
ghost use Rattle.mj_types.specs.Parts.{number_at};
ghost use Rattle.mj_inverse.specs.Carriers.{motion_of, row_problem};
ghost use Rattle.mj_inverse.specs.Rows as spec;

use fx_num::{Fix, Wide};
use fx_whole::{difference, nearest, scale_up_wide};
use mj_dual::{along, limited};
use mj_types::{DualRow, OutOfRange, Quantity};

// `x - y`.
fn less(x: &Wide<32>, y: &Fix<32>) -> Wide<32>
    requires first { unsigned_abs x.now.raw ≤ 2 ^ 80 }
    requires second { unsigned_abs y.now.mid ≤ 2 ^ 56 }
    ensures value { result.raw ≡ x.now.raw -ℤ y.now.mid }
    ensures small { unsigned_abs result.raw ≤ unsigned_abs x.now.raw + 2 ^ 56 }
{
    Wide {
        raw: difference(x.raw, i128::from(y.mid)),
    }
}

// What the row would have without constraints, less its right side and what it has.
fn pull(smooth: &Wide<32>, b: &Fix<32>, rate: &Fix<32>) -> Wide<32>
    requires smooth { unsigned_abs smooth.now.raw ≤ 2 ^ 79 }
    requires b { unsigned_abs b.now.mid ≤ 2 ^ 56 }
    requires rate { unsigned_abs rate.now.mid ≤ 2 ^ 56 }
    ensures value { result.raw ≡ (smooth.now.raw -ℤ b.now.mid) -ℤ rate.now.mid }
    ensures small { unsigned_abs result.raw ≤ 2 ^ 80 }
{
    less(&less(smooth, b), rate)
}

// `f` in 128 bits.
fn widened(f: Fix<20>) -> Wide<20>
    ensures { result.raw ≡ f.mid }
{
    Wide {
        raw: i128::from(f.mid),
    }
}

// The low bound where `x` is below it.
fn at_least(low: Option<Fix<20>>, x: Wide<20>) -> Wide<20>
    ensures { result.raw ≡ rule.at_least (bound low) x.raw }
{
    match low {
        Some(bound) if x.raw < i128::from(bound.mid) => widened(bound),
        _ => x,
    }
}

// The high bound where `x` is above it.
fn at_most(high: Option<Fix<20>>, x: Wide<20>) -> Wide<20>
    ensures { result.raw ≡ rule.at_most (bound high) x.raw }
{
    match high {
        Some(bound) if i128::from(bound.mid) < x.raw => widened(bound),
        _ => x,
    }
}

// `2^36 w / r`, rounded.
fn best(r: &Wide<48>, w: &Wide<32>) -> Wide<20>
    requires r { pos 0 <ℤ r.now.raw }
    requires w { unsigned_abs w.now.raw ≤ 2 ^ 80 }
    ensures { result.raw ≡ whole.nearest (w.now.raw *ℤ pos (2 ^ 36)) r.now.raw }
{
    Wide {
        raw: nearest(scale_up_wide(w.raw, 36), r.raw),
    }
}

/// The force of a row with the Jacobian `j` by itself: that of its least cost, where the acceleration is
/// known. `InverseRate` and `InverseForce` name the row by its place.
pub(crate) fn separate(
    j: &[Fix<32>],
    smooth: &[Fix<32>],
    accel: &[Fix<32>],
    row: &DualRow,
) -> Result<Fix<20>, OutOfRange>
    requires few { length accel.now ≤ 64 }
    requires width { length j.now ≡ length accel.now }
    requires smooth_width { length smooth.now ≡ length accel.now }
    requires jacobian { (k : ℕ) → k < length accel.now
        → unsigned_abs (number_at j.now k) ≤ 2 ^ 48 }
    requires smooth_small { (k : ℕ) → k < length accel.now
        → unsigned_abs (number_at smooth.now k) ≤ 2 ^ 56 }
    requires accel_small { (k : ℕ) → k < length accel.now
        → unsigned_abs (number_at accel.now k) ≤ 2 ^ 56 }
    requires regular { pos 0 <ℤ row.now.r.raw }
    requires b { unsigned_abs row.now.b.mid ≤ 2 ^ 56 }
    ensures value { IfOk result (λ x. x.mid ≡ spec.separate (motion_of smooth.now accel.now)
        (row_problem row.now (number_at j.now))) }
    ensures small { IfOk result (λ x. unsigned_abs x.mid ≤ 2 ^ 50) }
    ensures first { refusal_of result ≡ spec.row_fault (motion_of smooth.now accel.now)
        (row_problem row.now (number_at j.now)) }
{
    let rate = limited(&along(j, accel), 1 << 56, Quantity::InverseRate, row.place)?;
    let w = pull(&along(j, smooth), &row.b, &rate);
    let whole = at_most(row.high, at_least(row.low, best(&row.r, &w)));
    let x = limited(&whole, 1 << 50, Quantity::InverseForce, row.place)?;
    Ok(x)
}
