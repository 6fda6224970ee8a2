// The positions of one joint after the step.
ghost use Rattle.std.specs.Prelude.{◌≡◌, ◌≢◌, ◌+◌, ◌^◌, ◌<◌, ◌≤◌, ◌⊎◌, ℕ, pos, ◌≤ℤ◌, unsigned_abs, length, IfOk};
ghost use Rattle.fx_whole.specs.First.{refusal_of};
ghost use Rattle.fx_vec.specs.Quaternions.{quaternion, WithinQuaternion};
ghost use Rattle.fx_vec.specs.Sizes.{Within};
ghost use Rattle.fx_vec.specs.Views.{mids};
ghost use Rattle.mj_quat.specs.Rotation.{advance, advance_out};
ghost use Rattle.mj_types.specs.Parts.{joint, number_at, position_count};
ghost use Rattle.mj_types.specs.Lawful.{position_limit};
ghost use Rattle.mj_types.specs.Ranges.{limited, named};
ghost use Rattle.mj_types.specs.States.{Fits};
ghost use Rattle.mj_euler.specs.Advance as spec;
ghost use Rattle.mj_euler.specs.Written as written;

use crate::numbers::{after, limited, put_quaternion, quaternion_from, triple_from};
use fx_list::Array;
use fx_num::{Fix, Number, Plain};
use fx_vec::{Q4, V3};
use mj_types::{JointKind, Model, OutOfRange, Quantity, State};

/// A length of 2^12.
const LENGTH_LIMIT: Fix<32> = Number {
    mid: 1 << 44,
    rad: (),
};

/// An angle of 2^20.
const ANGLE_LIMIT: Fix<32> = Number {
    mid: 1 << 52,
    rad: (),
};

// One position that grows with a velocity: at place `p` and dof `d`.
fn place(
    model: &Model,
    state: &State,
    v: &Array<Fix<32>>,
    p: usize,
    d: usize,
    limit: &Fix<32>,
) -> Result<Fix<32>, OutOfRange>
    requires p { p < length state.now.q }
    requires d { d < length v.now }
    requires small { unsigned_abs (number_at state.now.q p) ≤ 2 ^ 52 }
    requires limit { pos 0 ≤ℤ limit.now.mid }
    requires few { p < 2 ^ 32 }
    ensures value { IfOk result (λ x. x.mid
        ≡ spec.after model.now.h.mid (number_at state.now.q p) (number_at v.now d)) }
    ensures within { IfOk result (λ x. unsigned_abs x.mid
        ≤ unsigned_abs limit.now.mid) }
    ensures first { refusal_of result ≡ limited Quantity.Position (p + 1)
        (unsigned_abs limit.now.mid)
        (spec.after model.now.h.mid (number_at state.now.q p) (number_at v.now d)) }
{
    let moved = after(&model.h, state.q.entry(p), v.entry(d));
    limited(&moved, limit, Quantity::Position, p + 1)
}

// One position that grows with a velocity is written.
fn move_place(
    model: &Model,
    state: &State,
    v: &Array<Fix<32>>,
    q: &mut Array<Fix<32>>,
    p: usize,
    d: usize,
    limit: &Fix<32>,
) -> Result<(), OutOfRange>
    requires p { p < length state.now.q }
    requires room { p < length q.old }
    requires d { d < length v.now }
    requires small { unsigned_abs (number_at state.now.q p) ≤ 2 ^ 52 }
    requires limit { pos 0 ≤ℤ limit.now.mid }
    requires few { p < 2 ^ 32 }
    ensures len { length q.new ≡ length q.old }
    ensures value { IfOk result (λ _. number_at q.new p
        ≡ spec.after model.now.h.mid (number_at state.now.q p) (number_at v.now d)) }
    ensures within { IfOk result (λ _. unsigned_abs (number_at q.new p)
        ≤ unsigned_abs limit.now.mid) }
    ensures others { (k : ℕ) → k ≢ p → number_at q.new k ≡ number_at q.old k }
    ensures first { refusal_of result ≡ limited Quantity.Position (p + 1)
        (unsigned_abs limit.now.mid)
        (spec.after model.now.h.mid (number_at state.now.q p) (number_at v.now d)) }
{
    let x = place(model, state, v, p, d, limit)?;
    q.put(p, x);
    Ok(())
}

// How many positions of a joint are lengths and angles.
fn place_count(kind: JointKind) -> usize
    ensures value { result ≡ spec.place_count kind }
    ensures few { result ≤ 3 }
{
    match kind {
        JointKind::Free => 3,
        JointKind::Ball => 0,
        JointKind::Hinge | JointKind::Slide => 1,
    }
}

// The greatest size of each of them.
fn place_limit(kind: JointKind) -> Fix<32>
    ensures value { (i : ℕ) → i < spec.place_count kind
        → unsigned_abs result.mid ≡ position_limit kind i }
    ensures positive { pos 0 ≤ℤ result.mid }
{
    match kind {
        JointKind::Hinge => ANGLE_LIMIT,
        JointKind::Free | JointKind::Ball | JointKind::Slide => LENGTH_LIMIT,
    }
}

// Whether the other positions of a joint are a quaternion.
fn has_quaternion(kind: JointKind) -> bool
    ensures { result ≡ spec.has_quaternion kind }
{
    match kind {
        JointKind::Free | JointKind::Ball => true,
        JointKind::Hinge | JointKind::Slide => false,
    }
}

// The lengths and angles of a joint after the step.
#[tactic(auto, using(fx_whole::proofs::FirstLaws::stop_here))]
pub(crate) fn move_joint(
    model: &Model,
    state: &State,
    v: &Array<Fix<32>>,
    j: usize,
    q: &mut Array<Fix<32>>,
) -> Result<(), OutOfRange>
    requires fits { Fits model.now state.now }
    requires joint { j < length model.now.joints }
    requires v { length v.now ≡ model.now.nv }
    requires room { length q.old ≡ model.now.nq }
    ensures len { length q.new ≡ length q.old }
    ensures moved { IfOk result (λ _. written.AreMoved model.now state.now (number_at v.now)
        (joint model.now.joints j) q.new) }
    ensures others { (k : ℕ) → (k < (joint model.now.joints j).qadr)
        ⊎ ((joint model.now.joints j).qadr
        + spec.place_count (joint model.now.joints j).kind ≤ k)
        → number_at q.new k ≡ number_at q.old k }
    ensures first { refusal_of result ≡ spec.position_fault model.now state.now (number_at v.now)
        (joint model.now.joints j) }
{
    let x = model.joints.entry(j);
    for i in 0..place_count(x.kind) {
        move_place(
            model,
            state,
            v,
            q,
            x.qadr + i,
            x.dadr + i,
            &place_limit(x.kind),
        )?;
    }
    Ok(())
}

// A quaternion turned by an angular velocity is written: at place `p`, with the velocities from `d`.
fn turn_place(
    model: &Model,
    state: &State,
    v: &Array<Fix<32>>,
    q: &mut Array<Fix<32>>,
    p: usize,
    d: usize,
    body: usize,
) -> Result<(), OutOfRange>
    requires p { p + 4 ≤ length state.now.q }
    requires room { p + 4 ≤ length q.old }
    requires d { d + 3 ≤ length v.now }
    requires q { WithinQuaternion (spec.quaternion_from state.now.q p) (2 ^ 32) }
    requires v { Within (spec.triple_from (number_at v.now) d) (2 ^ 44) }
    ensures len { length q.new ≡ length q.old }
    ensures value { IfOk result (λ _. spec.quaternion_from q.new p
        ≡ advance (spec.quaternion_from state.now.q p) (spec.triple_from (number_at v.now) d)
        model.now.h.mid) }
    ensures within { IfOk result (λ _. WithinQuaternion (spec.quaternion_from q.new p) (2 ^ 32)) }
    ensures others { (k : ℕ) → k ≢ p → k ≢ p + 1 → k ≢ p + 2 → k ≢ p + 3
        → number_at q.new k ≡ number_at q.old k }
    ensures first { refusal_of result ≡ named Quantity.QuatNorm body
        (advance_out (spec.quaternion_from state.now.q p) (spec.triple_from (number_at v.now) d)
        model.now.h.mid) }
{
    let old = quaternion_from(&state.q, p);
    let spin = triple_from(v, d);
    let new = turn(&old, &spin, model, body)?;
    put_quaternion(q, p, &new);
    Ok(())
}

// A quaternion turned by an angular velocity in the model's time step.
fn turn(q: &Q4, w: &V3<Plain, 32>, model: &Model, body: usize) -> Result<Q4, OutOfRange>
    requires q { WithinQuaternion (quaternion q.now) (2 ^ 32) }
    requires w { Within (mids w.now) (2 ^ 44) }
    ensures value { IfOk result (λ r. quaternion r
        ≡ advance (quaternion q.now) (mids w.now) model.now.h.mid) }
    ensures within { IfOk result (λ r. WithinQuaternion (quaternion r) (2 ^ 32)) }
    ensures first { refusal_of result ≡ named Quantity.QuatNorm body
        (advance_out (quaternion q.now) (mids w.now) model.now.h.mid) }
{
    match mj_quat::advance(q, w, model.h) {
        Ok(r) => Ok(r),
        Err(_) => Err(OutOfRange {
            kind: Quantity::QuatNorm,
            index: body,
        }),
    }
}

// The quaternion of a joint after the step, where it has one.
pub(crate) fn turn_joint(
    model: &Model,
    state: &State,
    v: &Array<Fix<32>>,
    j: usize,
    q: &mut Array<Fix<32>>,
) -> Result<(), OutOfRange>
    requires fits { Fits model.now state.now }
    requires joint { j < length model.now.joints }
    requires v { length v.now ≡ model.now.nv }
    requires small { (d : ℕ) → d < model.now.nv → unsigned_abs (number_at v.now d) ≤ 2 ^ 44 }
    requires room { length q.old ≡ model.now.nq }
    ensures len { length q.new ≡ length q.old }
    ensures turned { IfOk result (λ _. written.IsTurned model.now state.now (number_at v.now)
        (joint model.now.joints j) q.new) }
    ensures others { (k : ℕ) → (k < (joint model.now.joints j).qadr
        + spec.place_count (joint model.now.joints j).kind)
        ⊎ ((joint model.now.joints j).qadr
        + position_count (joint model.now.joints j).kind ≤ k)
        → number_at q.new k ≡ number_at q.old k }
    ensures first { refusal_of result ≡ spec.norm_fault model.now state.now (number_at v.now)
        (joint model.now.joints j) }
{
    let x = model.joints.entry(j);
    if has_quaternion(x.kind) {
        let first = place_count(x.kind);
        turn_place(model, state, v, q, x.qadr + first, x.dadr + first, x.body)?;
    }
    Ok(())
}
