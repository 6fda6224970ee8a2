// What motors add: each control is held within its range and multiplied by the gear.
ghost use Rattle.std.specs.Prelude.{◌≡◌, ℕ, suc, pos, ◌+◌, ◌^◌, ◌<◌, ◌≤◌, ◌+ℤ◌, unsigned_abs, length};
ghost use Rattle.fx_whole.specs.Sums.{sum_to};
ghost use Rattle.mj_types.specs.Duals.{wide_at};
ghost use Rattle.mj_types.specs.Lawful.{HasRange};
ghost use Rattle.mj_types.specs.Parts.{dof};
ghost use Rattle.mj_passive.specs.Forces as spec;

use crate::joints::dof_of;
use crate::numbers::{add_at, plus_product};
use fx_num::{Fix, Wide};
use mj_types::{Drive, Model, Motor, Range};

/// A control held within its range, where there is one.
pub(crate) fn held(range: &Option<Range>, control: &Fix<32>) -> Fix<32>
    requires range { HasRange (2 ^ 52) range.now }
    requires control { unsigned_abs control.now.mid ≤ 2 ^ 52 }
    ensures value { result.mid ≡ spec.held range.now control.now.mid }
    ensures small { unsigned_abs result.mid ≤ 2 ^ 52 }
{
    match range {
        Some(range) => {
            if control.mid < range.least.mid {
                range.least
            } else if range.greatest.mid < control.mid {
                range.greatest
            } else {
                *control
            }
        }
        None => *control,
    }
}

// The force of a motor.
fn force(motor: &Motor, control: &Fix<32>) -> Wide<64>
    requires range { HasRange (2 ^ 52) motor.now.ctrlrange }
    requires gear { unsigned_abs motor.now.gear.mid ≤ 2 ^ 42 }
    requires control { unsigned_abs control.now.mid ≤ 2 ^ 52 }
    ensures value { result.raw ≡ spec.motor_force motor.now control.now.mid }
    ensures small { unsigned_abs result.raw ≤ 2 ^ 94 }
{
    plus_product(
        &Wide { raw: 0 },
        &motor.gear,
        &held(&motor.ctrlrange, control),
    )
}

// Adds the force of motor `k` to the sum of the dof or of the tendon that it drives.
fn push(model: &Model, k: usize, control: &Fix<32>, dofs: &mut [Wide<64>], tendons: &mut [Wide<64>])
    requires motor { k < length model.now.motors }
    requires control { unsigned_abs control.now.mid ≤ 2 ^ 52 }
    requires dof_room { length dofs.old ≡ 64 }
    requires tendon_room { length tendons.old ≡ 64 }
    requires dofs { (d : ℕ) → unsigned_abs (wide_at dofs.old d) ≤ 2 ^ 110 }
    requires tendons { (t : ℕ) → unsigned_abs (wide_at tendons.old t) ≤ 2 ^ 110 }
    ensures dofs { (d : ℕ) → d < model.now.nv → wide_at dofs.new d ≡ wide_at dofs.old d
        +ℤ spec.joint_push model.now k (dof model.now.dofs d).joint control.now.mid }
    ensures tendons { (t : ℕ) → t < length model.now.tendons → wide_at tendons.new t
        ≡ wide_at tendons.old t +ℤ spec.tendon_push model.now k (suc t) control.now.mid }
    ensures dof_sizes { (d : ℕ) → unsigned_abs (wide_at dofs.new d)
        ≤ unsigned_abs (wide_at dofs.old d) + 2 ^ 94 }
    ensures tendon_sizes { (t : ℕ) → unsigned_abs (wide_at tendons.new t)
        ≤ unsigned_abs (wide_at tendons.old t) + 2 ^ 94 }
{
    let motor = model.motors.entry(k);
    let force = force(motor, control);
    match motor.drive {
        Drive::Joint(number) => add_at(dofs, dof_of(model, number), &force),
        Drive::Tendon(number) => add_at(tendons, number - 1, &force),
    }
}

/// Adds the forces of all motors to the sums of the dofs and of the tendons, which are 0.
pub(crate) fn push_all(
    model: &Model,
    controls: &[Fix<32>],
    dofs: &mut [Wide<64>],
    tendons: &mut [Wide<64>],
)
    requires controls { spec.AreControls model.now controls.now }
    requires dof_room { length dofs.old ≡ 64 }
    requires tendon_room { length tendons.old ≡ 64 }
    requires no_dofs { (d : ℕ) → wide_at dofs.old d ≡ pos 0 }
    requires no_tendons { (t : ℕ) → wide_at tendons.old t ≡ pos 0 }
    ensures dofs { (d : ℕ) → d < model.now.nv → wide_at dofs.new d
        ≡ sum_to (length model.now.motors)
        (spec.joint_motor model.now controls.now (dof model.now.dofs d).joint) }
    ensures tendons { (t : ℕ) → t < length model.now.tendons → wide_at tendons.new t
        ≡ sum_to (length model.now.motors) (spec.tendon_motor model.now controls.now (suc t)) }
    ensures dof_sizes { (d : ℕ) → unsigned_abs (wide_at dofs.new d) ≤ 2 ^ 100 }
    ensures tendon_sizes { (t : ℕ) → unsigned_abs (wide_at tendons.new t) ≤ 2 ^ 100 }
{
    for k in 0..model.motors.len() {
        push(model, k, &controls[k], dofs, tendons);
    }
}
