// The new velocities, then the new positions.
ghost use Rattle.std.specs.Prelude.{◌≡◌, ◌^◌, ◌<◌, ◌≤◌, ◌+◌, ℕ, unsigned_abs, length, IfOk};
ghost use Rattle.fx_whole.specs.First.{refusal_of, first_to};
ghost use Rattle.mj_types.specs.Parts.{joint, number_at};
ghost use Rattle.mj_types.specs.Ranges.{limited};
ghost use Rattle.mj_types.specs.States.{Fits};
ghost use Rattle.mj_euler.specs.Advance as spec;
ghost use Rattle.mj_euler.specs.Written as written;

use crate::joints::{move_joint, turn_joint};
use crate::numbers::{after, limited};
use fx_list::Array;
use fx_num::{Fix, Number};
use mj_types::{Model, OutOfRange, Quantity, State};

/// A velocity of 2^12.
const VELOCITY_LIMIT: Fix<32> = Number {
    mid: 1 << 44,
    rad: (),
};

// One dof's velocity after the step.
fn velocity(
    model: &Model,
    state: &State,
    accel: &[Fix<32>],
    d: usize,
) -> Result<Fix<32>, OutOfRange>
    requires fits { Fits model.now state.now }
    requires accel { length accel.now ≡ model.now.nv }
    requires dof { d < model.now.nv }
    ensures value { IfOk result (λ x. x.mid
        ≡ spec.velocity model.now state.now (number_at accel.now) d) }
    ensures within { IfOk result (λ x. unsigned_abs x.mid ≤ 2 ^ 44) }
    ensures first { refusal_of result
        ≡ spec.velocity_fault model.now state.now (number_at accel.now) d }
{
    let new = after(&model.h, state.v.entry(d), &accel[d]);
    limited(&new, &VELOCITY_LIMIT, Quantity::Velocity, d + 1)
}

// All velocities after the step.
#[tactic(auto, using(fx_whole::proofs::FirstLaws::stop_here))]
fn move_velocities(
    model: &Model,
    state: &State,
    accel: &[Fix<32>],
    v: &mut Array<Fix<32>>,
) -> Result<(), OutOfRange>
    requires fits { Fits model.now state.now }
    requires accel { length accel.now ≡ model.now.nv }
    requires room { length v.old ≡ model.now.nv }
    ensures len { length v.new ≡ length v.old }
    ensures value { IfOk result (λ _. (d : ℕ) → d < model.now.nv → number_at v.new d
        ≡ spec.velocity model.now state.now (number_at accel.now) d) }
    ensures within { IfOk result (λ _. (d : ℕ) → d < model.now.nv
        → unsigned_abs (number_at v.new d) ≤ 2 ^ 44) }
    ensures first { refusal_of result ≡ first_to model.now.nv
        (spec.velocity_fault model.now state.now (number_at accel.now)) }
{
    for d in 0..model.nv {
        let x = velocity(model, state, accel, d)?;
        v.put(d, x);
    }
    Ok(())
}

// All lengths and angles after the step.
#[tactic(auto, using(fx_whole::proofs::FirstLaws::stop_here))]
fn move_joints(
    model: &Model,
    state: &State,
    v: &Array<Fix<32>>,
    q: &mut Array<Fix<32>>,
) -> Result<(), OutOfRange>
    requires fits { Fits model.now state.now }
    requires v { length v.now ≡ model.now.nv }
    requires room { length q.old ≡ model.now.nq }
    ensures len { length q.new ≡ length q.old }
    ensures moved { IfOk result (λ _. written.AreAllMoved model.now state.now (number_at v.now)
        (length model.now.joints) q.new) }
    ensures first { refusal_of result ≡ first_to (length model.now.joints)
        (λ j. spec.position_fault model.now state.now (number_at v.now)
        (joint model.now.joints j)) }
{
    for j in 0..model.joints.len() {
        move_joint(model, state, v, j, q)?;
    }
    Ok(())
}

// All quaternions after the step. Lengths and angles stay.
#[tactic(auto, using(fx_whole::proofs::FirstLaws::stop_here))]
fn turn_joints(
    model: &Model,
    state: &State,
    v: &Array<Fix<32>>,
    q: &mut Array<Fix<32>>,
) -> Result<(), OutOfRange>
    requires fits { Fits model.now state.now }
    requires v { length v.now ≡ model.now.nv }
    requires small { (d : ℕ) → d < model.now.nv → unsigned_abs (number_at v.now d) ≤ 2 ^ 44 }
    requires room { length q.old ≡ model.now.nq }
    requires moved { written.AreAllMoved model.now state.now (number_at v.now)
        (length model.now.joints) q.old }
    ensures len { length q.new ≡ length q.old }
    ensures moved { written.AreAllMoved model.now state.now (number_at v.now)
        (length model.now.joints) q.new }
    ensures turned { IfOk result (λ _. written.AreAllTurned model.now state.now (number_at v.now)
        (length model.now.joints) q.new) }
    ensures first { refusal_of result ≡ first_to (length model.now.joints)
        (λ j. spec.norm_fault model.now state.now (number_at v.now) (joint model.now.joints j)) }
{
    for j in 0..model.joints.len() {
        turn_joint(model, state, v, j, q)?;
    }
    Ok(())
}

/// The state after a step of the time `h` with this acceleration, by semi-implicit Euler (MuJoCo
/// documentation, Computation): the new velocities are `v + h a`, and positions move with them.
///
/// In this order: Velocity where a velocity passes 2^12 in size (the dof's number); Position where an
/// angle passes 2^20 or a length 2^12 (the number of the place in `q`); QuatNorm where the length of a
/// turned quaternion is out of 1/2 to 2 (the body's number). After a refusal `out` keeps its lengths.
pub fn integrate(
    model: &Model,
    state: &State,
    accel: &[Fix<32>],
    out: &mut State,
) -> Result<(), OutOfRange>
    requires fits { Fits model.now state.now }
    requires accel { length accel.now ≡ model.now.nv }
    requires room { written.StateRoom model.now out.old }
    ensures room { written.StateRoom model.now out.new }
    ensures first { refusal_of result
        ≡ spec.state_fault model.now state.now (number_at accel.now) }
    ensures value { IfOk result (λ _. out.new
        ≡ spec.next_state model.now state.now (number_at accel.now)) }
    ensures fits { IfOk result (λ _. Fits model.now out.new) }
{
    move_velocities(model, state, accel, &mut out.v)?;
    move_joints(model, state, &out.v, &mut out.q)?;
    turn_joints(model, state, &out.v, &mut out.q)?;
    Ok(())
}
