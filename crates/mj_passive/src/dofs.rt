// The forces at the dofs.
ghost use Rattle.std.specs.Prelude.{◌≡◌, ℕ, pos, ◌+◌, ◌-◌, ◌^◌, ◌<◌, ◌≤◌, unsigned_abs, length, IfOk, OnOk};
ghost use Rattle.fx_whole.specs.Entries.{below};
ghost use Rattle.fx_whole.specs.First.{refusal_of, first_to};
ghost use Rattle.fx_whole.specs.Sums.{when};
ghost use Rattle.mj_types.specs.declared.range.Quantity.TheVariants as kind;
ghost use Rattle.mj_types.specs.Applieds.{AreApplied};
ghost use Rattle.mj_types.specs.Duals.{wide_at};
ghost use Rattle.mj_types.specs.Lawful as lawful;
ghost use Rattle.mj_types.specs.Parts.{joint, number_at};
ghost use Rattle.mj_types.specs.Ranges.{limited};
ghost use Rattle.mj_types.specs.Rooms.{AppliedRoom};
ghost use Rattle.mj_types.specs.States.{Fits};
ghost use Rattle.mj_passive.specs.Forces as spec;

use crate::joints::position;
use crate::motors::push_all;
use crate::numbers::{less, minus_product, no_sums, settled};
use crate::tendons::take_tendons;
use fx_num::{Fix, Wide};
use mj_types::{Applied, JointKind, Model, OutOfRange, Quantity, State};

// Whether a joint has one position and one velocity.
fn is_scalar(kind: JointKind) -> bool
    ensures { result ≡ lawful.is_scalar kind }
{
    match kind {
        JointKind::Free => false,
        JointKind::Ball => false,
        JointKind::Hinge => true,
        JointKind::Slide => true,
    }
}

// The force of a joint's spring and what is added to it; 0 for a ball and a free joint.
fn joint_force(model: &Model, state: &State, number: usize, added: &Wide<64>) -> Wide<64>
    requires fits { Fits model.now state.now }
    requires some { 1 ≤ number }
    requires there { number ≤ length model.now.joints }
    requires added { unsigned_abs added.now.raw ≤ 2 ^ 107 }
    ensures value { result.raw
        ≡ when (lawful.is_scalar (joint model.now.joints (number - 1)).kind)
        (spec.joint_force model.now state.now added.now.raw number) }
    ensures small { unsigned_abs result.raw ≤ 2 ^ 108 }
{
    let joint = model.joints.entry(number - 1);
    if is_scalar(joint.kind) {
        let stretch = less(&position(model, state, number), &joint.springref);
        minus_product(added, &joint.stiffness, &stretch)
    } else {
        Wide { raw: 0 }
    }
}

// The force at dof `d`, from what motors and tendons add to it.
fn tau(model: &Model, state: &State, d: usize, added: &Wide<64>) -> Result<Fix<32>, OutOfRange>
    requires fits { Fits model.now state.now }
    requires dof { d < model.now.nv }
    requires added { unsigned_abs added.now.raw ≤ 2 ^ 107 }
    ensures value { IfOk result (λ x. x.mid
        ≡ spec.tau_of model.now state.now added.now.raw d) }
    ensures first { refusal_of result ≡ limited kind.Applied (d + 1) (2 ^ 52)
        (spec.tau_of model.now state.now added.now.raw d) }
{
    let number = model.dofs.at(d).joint;
    let force = joint_force(model, state, number, added);
    let damping = model.joints.entry(number - 1).damping;
    settled(
        &minus_product(&force, &damping, state.v.entry(d)),
        Quantity::Applied,
        d + 1,
    )
}

// Writes the forces at all dofs.
fn write_dofs(
    model: &Model,
    state: &State,
    dofs: &[Wide<64>],
    out: &mut Applied,
) -> Result<(), OutOfRange>
    requires fits { Fits model.now state.now }
    requires dof_room { length dofs.now ≡ 64 }
    requires dofs { (d : ℕ) → unsigned_abs (wide_at dofs.now d) ≤ 2 ^ 107 }
    requires room { AppliedRoom model.now out.old }
    ensures room { AppliedRoom model.now out.new }
    ensures lengths { out.new.length ≡ out.old.length }
    ensures rates { out.new.rate ≡ out.old.rate }
    ensures tau { OnOk result ((d : ℕ) → d < model.now.nv → number_at out.new.tau d
        ≡ spec.tau_of model.now state.now (wide_at dofs.now d) d) }
    ensures first { refusal_of result ≡ first_to model.now.nv (λ d. limited kind.Applied (d + 1)
        (2 ^ 52) (spec.tau_of model.now state.now (wide_at dofs.now d) d)) }
{
    for d in 0..model.nv {
        let force = tau(model, state, d, &dofs[d])?;
        out.tau.put(d, force);
    }
    Ok(())
}

/// The force that springs, dampers, tendons and motors apply at each dof, and each tendon's length
/// and rate, at scale 32 (MuJoCo documentation, Computation, passive forces and actuation). A
/// tendon's length is the sum of `coef q` over its terms and its rate that of `coef v`; its force
/// is `-stiffness (length - springlength) - damping rate` and gear times control of its motors. At
/// a hinge or a slide the force is `-stiffness (q - springref) - damping v`, gear times control of
/// its motors, and `coef T` of its tendons; at the dofs of a ball or a free joint `-damping v`
/// alone. Controls are held within their motors' ranges. Each is an exact sum rounded once.
/// TendonLength, TendonForce or Applied where one passes 2^52: each tendon's length, rate and
/// force, and then each dof's force.
pub fn applied(
    model: &Model,
    state: &State,
    controls: &[Fix<32>],
    out: &mut Applied,
) -> Result<(), OutOfRange>
    requires fits { Fits model.now state.now }
    requires controls { spec.AreControls model.now controls.now }
    requires room { AppliedRoom model.now out.old }
    ensures room { AppliedRoom model.now out.new }
    ensures first { refusal_of result ≡ spec.applied_fault model.now state.now controls.now }
    ensures tau { OnOk result (number_at out.new.tau
        ≡ below (pos 0) model.now.nv (spec.tau model.now state.now controls.now)) }
    ensures lengths { OnOk result (number_at out.new.length
        ≡ below (pos 0) (length model.now.tendons) (spec.tendon_length model.now state.now)) }
    ensures rates { OnOk result (number_at out.new.rate
        ≡ below (pos 0) (length model.now.tendons) (spec.tendon_rate model.now state.now)) }
    ensures ranges { OnOk result (AreApplied model.now out.new) }
{
    let mut dofs = no_sums();
    let mut motors = no_sums();
    push_all(model, controls, &mut dofs, &mut motors);
    take_tendons(model, state, &motors, &mut dofs, out)?;
    write_dofs(model, state, &dofs, out)?;
    Ok(())
}
