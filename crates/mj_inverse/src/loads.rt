// The load of each dof with the forces of the rows one by one, and how far the acceleration is from it.
ghost use Rattle.std.specs.Prelude.{◌≡◌, ℕ, length, ◌+◌, ◌^◌, ◌<◌, ◌≤◌, ◌+ℤ◌, ◌-ℤ◌, ◌*ℤ◌, pos, unsigned_abs, IfOk};
ghost use Rattle.fx_whole.specs.First.{refusal_of, first_to};
ghost use Rattle.fx_num.specs.Settled.{settled_mid};
ghost use Rattle.mj_factor.specs.Residuals.{greatest_to, residual_at};
ghost use Rattle.mj_types.specs.Masses.{mass_at};
ghost use Rattle.mj_types.specs.Parts.{number_at};
ghost use Rattle.mj_types.specs.Ranges.{limited as limited_at};
ghost use Rattle.mj_types.specs.declared.range.Quantity.TheVariants as kind;
ghost use Rattle.mj_inverse.specs.Carriers.{AreListed, CanLoad, jacobian_of};
ghost use Rattle.mj_inverse.specs.Separated as spec;

use fx_list::Array;
use fx_num::{Fix, Wide};
use fx_whole::{add_product, difference, nearest_shift, scale_up};
use mj_dual::limited;
use mj_factor::row_times;
use mj_types::{Dual, Mass, OutOfRange, Quantity, Rows};

// `total + j f`.
fn plus_product(total: &Wide<52>, j: &Fix<32>, f: &Fix<20>) -> Wide<52>
    requires total { unsigned_abs total.now.raw ≤ 2 ^ 109 }
    requires j { unsigned_abs j.now.mid ≤ 2 ^ 48 }
    requires f { unsigned_abs f.now.mid ≤ 2 ^ 50 }
    ensures value { result.raw ≡ total.now.raw +ℤ j.now.mid *ℤ f.now.mid }
    ensures size { unsigned_abs result.raw ≤ unsigned_abs total.now.raw + 2 ^ 98 }
{
    Wide {
        raw: add_product(total.raw, j.mid, f.mid),
    }
}

// What the forces push at dof `i`, exact.
fn push(nv: usize, rows: &Rows, dual: &Dual, x: &Array<Fix<20>>, i: usize) -> Wide<52>
    requires dof { i < nv }
    requires listed { AreListed nv rows.now dual.now }
    requires x_room { dual.now.m ≤ length x.now }
    requires x_small { (k : ℕ) → k < dual.now.m → unsigned_abs (number_at x.now k) ≤ 2 ^ 50 }
    ensures value { result.raw
        ≡ spec.push dual.now.m (jacobian_of nv rows.now dual.now) (number_at x.now) i }
    ensures size { unsigned_abs result.raw ≤ 2 ^ 108 }
{
    let jacobians = rows.jac.as_slice();
    let mut total = Wide { raw: 0 };
    for k in 0..dual.m {
        let row = dual.place.at(k) - 1;
        total = plus_product(&total, &jacobians[row * nv + i], x.entry(k));
    }
    total
}

// The load at a dof, of any size.
fn load_of(free: &Fix<32>, push: &Wide<52>) -> Wide<32>
    requires free { unsigned_abs free.now.mid ≤ 2 ^ 54 }
    requires push { unsigned_abs push.now.raw ≤ 2 ^ 108 }
    ensures { result.raw ≡ free.now.mid +ℤ settled_mid push.now.raw 20 }
{
    Wide {
        raw: i128::from(free.mid) + nearest_shift(push.raw, 20),
    }
}

// The load at dof `i`, where it is in its range.
fn within_load(load: &Wide<32>, i: usize) -> Result<Fix<32>, OutOfRange>
    requires { i < 64 }
    ensures value { IfOk result (λ x. x.mid ≡ load.now.raw) }
    ensures small { IfOk result (λ x. unsigned_abs x.mid ≤ 2 ^ 54) }
    ensures first { refusal_of result ≡ limited_at kind.InverseLoad (i + 1) (2 ^ 54) load.now.raw }
{
    limited(load, 1 << 54, Quantity::InverseLoad, i + 1)
}

// How far a row is from a load.
fn miss(row: &Wide<72>, load: &Fix<32>) -> u128
    requires row { unsigned_abs row.now.raw ≤ 2 ^ 122 }
    requires load { unsigned_abs load.now.mid ≤ 2 ^ 54 }
    ensures value { result ≡ unsigned_abs (row.now.raw -ℤ load.now.mid *ℤ pos (2 ^ 40)) }
    ensures small { result < 2 ^ 127 }
{
    difference(row.raw, scale_up(load.mid, 40)).unsigned_abs()
}

// The load at dof `i`, where it is in its range, and how far the acceleration is from it.
fn miss_at(
    rows: &Rows,
    dual: &Dual,
    accel: &[Fix<32>],
    mass: &Mass,
    free: &[Fix<32>],
    x: &Array<Fix<20>>,
    i: usize,
) -> Result<u128, OutOfRange>
    requires dof { i < length accel.now }
    requires listed { AreListed (length accel.now) rows.now dual.now }
    requires loads { CanLoad mass.now accel.now free.now }
    requires x_room { dual.now.m ≤ length x.now }
    requires x_small { (k : ℕ) → k < dual.now.m → unsigned_abs (number_at x.now k) ≤ 2 ^ 50 }
    ensures value { IfOk result (λ y. y ≡ residual_at (length accel.now)
        (mass_at (length accel.now) mass.now.m) (number_at accel.now)
        (spec.load dual.now.m (jacobian_of (length accel.now) rows.now dual.now)
        (number_at free.now) (number_at x.now)) i) }
    ensures small { IfOk result (λ y. y < 2 ^ 127) }
    ensures first { refusal_of result ≡ spec.load_fault
        (spec.load dual.now.m (jacobian_of (length accel.now) rows.now dual.now)
        (number_at free.now) (number_at x.now)) i }
{
    let pushed = push(accel.len(), rows, dual, x, i);
    let load = within_load(&load_of(&free[i], &pushed), i)?;
    Ok(miss(&row_times(mass, accel, i), &load))
}

/// Judges the load of each dof with the forces `x`. The answer is the farthest that the acceleration is
/// from what one asks for.
pub(crate) fn judge_loads(
    rows: &Rows,
    dual: &Dual,
    accel: &[Fix<32>],
    mass: &Mass,
    free: &[Fix<32>],
    x: &Array<Fix<20>>,
) -> Result<u128, OutOfRange>
    requires listed { AreListed (length accel.now) rows.now dual.now }
    requires loads { CanLoad mass.now accel.now free.now }
    requires x_room { dual.now.m ≤ length x.now }
    requires x_small { (k : ℕ) → k < dual.now.m → unsigned_abs (number_at x.now k) ≤ 2 ^ 50 }
    ensures value { IfOk result (λ y. y ≡ greatest_to (length accel.now)
        (residual_at (length accel.now) (mass_at (length accel.now) mass.now.m)
        (number_at accel.now)
        (spec.load dual.now.m (jacobian_of (length accel.now) rows.now dual.now)
        (number_at free.now) (number_at x.now)))) }
    ensures small { IfOk result (λ y. y < 2 ^ 127) }
    ensures first { refusal_of result ≡ first_to (length accel.now) (spec.load_fault
        (spec.load dual.now.m (jacobian_of (length accel.now) rows.now dual.now)
        (number_at free.now) (number_at x.now))) }
{
    let mut greatest = 0u128;
    for i in 0..accel.len() {
        let far = miss_at(rows, dual, accel, mass, free, x, i)?;
        greatest = greatest.max(far);
    }
    Ok(greatest)
}
