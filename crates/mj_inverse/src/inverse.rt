// The separated forces of a step.
ghost use Rattle.std.specs.Prelude.{◌≡◌, ℕ, pos, length, ◌^◌, ◌<◌, ◌≤◌, unsigned_abs, OnOk};
ghost use Rattle.fx_whole.specs.First.{refusal_of};
ghost use Rattle.mj_types.specs.Duals.{bound_at, wide_at};
ghost use Rattle.mj_types.specs.Parts.{number_at};
ghost use Rattle.mj_types.specs.Problems.{forces};
ghost use Rattle.mj_inverse.specs.Carriers.{CanSeparate, CanLoad, given_of, motion_of, row_of};
ghost use Rattle.mj_inverse.specs.Rows.{IsRowOptimum, pull};
ghost use Rattle.mj_inverse.specs.Separated as spec;

use crate::filling::fill_forces;
use crate::loads::judge_loads;
use fx_num::Fix;
use mj_types::{Dual, Forces, Inverse, Mass, OutOfRange, Rows};

/// The force of each of the dual's rows by itself, from a step's acceleration `accel`: where that is known
/// the dual falls apart into its rows (Todorov, Convex and analytically-invertible dynamics with contacts
/// and constraints, 2014). `smooth` is the acceleration without constraints and `free_load` what gives it.
/// `out` takes the forces, the largest difference from the step's own `step`, and how far the acceleration
/// is from what these forces ask for. The first number out of range is named: row by row `InverseRate` and
/// `InverseForce`, with the row's number in the list of rows, and then dof by dof `InverseLoad`. Takes no
/// memory.
pub fn separated(
    dual: &Dual,
    rows: &Rows,
    step: &Forces,
    smooth: &[Fix<32>],
    accel: &[Fix<32>],
    mass: &Mass,
    free_load: &[Fix<32>],
    out: &mut Inverse,
) -> Result<(), OutOfRange>
    requires can { CanSeparate rows.now dual.now smooth.now accel.now }
    requires loads { CanLoad mass.now accel.now free_load.now }
    requires step_room { dual.now.m ≤ length step.now.f }
    requires step_small { (k : ℕ) → k < dual.now.m → unsigned_abs (forces step.now k) ≤ 2 ^ 50 }
    requires room { dual.now.m ≤ length out.old.x }
    ensures room { length out.new.x ≡ length out.old.x }
    ensures values { OnOk result ((k : ℕ) → k < dual.now.m → number_at out.new.x k
        ≡ spec.force_of (given_of dual.now rows.now step.now smooth.now accel.now mass.now
        free_load.now) k) }
    ensures best { OnOk result ((k : ℕ) → k < dual.now.m → IsRowOptimum (bound_at dual.now.low k)
        (bound_at dual.now.high k) (wide_at dual.now.r k) (pull (motion_of smooth.now accel.now)
        (row_of (length accel.now) rows.now dual.now k)) (number_at out.new.x k)) }
    ensures gap { OnOk result (out.new.gap ≡ pos (spec.gap (given_of dual.now rows.now step.now
        smooth.now accel.now mass.now free_load.now))) }
    ensures discrepancy { OnOk result (out.new.discrepancy ≡ pos (spec.discrepancy (given_of
        dual.now rows.now step.now smooth.now accel.now mass.now free_load.now))) }
    ensures first { refusal_of result ≡ spec.inverse_fault (given_of dual.now rows.now step.now
        smooth.now accel.now mass.now free_load.now) }
{
    let gap = fill_forces(dual, rows, step, smooth, accel, &mut out.x)?;
    let far = judge_loads(rows, dual, accel, mass, free_load, &out.x)?;
    out.gap = gap.cast_signed();
    out.discrepancy = far.cast_signed();
    Ok(())
}
