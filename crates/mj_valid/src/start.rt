// Where a run starts.
ghost use Rattle.std.specs.Prelude.{◌≡◌, ◌&&◌, ◌-◌, ◌+◌, ◌++◌, ◌^◌, ◌<◌, ◌≤◌, ℕ, length, codes, OnOk, IfOk, is_ok, Some, None};
ghost use Rattle.mj_types.specs.Parts.{body, joint};
ghost use Rattle.mj_form.specs.Reading.{Reads};
ghost use Rattle.mj_form.specs.Steps.{Step};
ghost use Rattle.mj_valid.specs.Start as spec;

use fx_list::Array;
use fx_num::{Fix, Number};
use fx_vec::Q4;
use mj_form::{Refusal, Walker, under_key};
use mj_judge::vectors::is_small_quaternion;
use mj_judge::{entry, judge, turned, unless, unturned};
use mj_read::RawKeyframe;
use mj_types::{Body, Joint, JointKind, ModelCode, ModelFault};
use std::alloc::{AllocError, Global};

/// The unit in a quaternion's direction, if its numbers are at most 1024 in size and it isn't too short.
#[tactic(auto, unfolding(crate::specs::Start::unit_of))]
fn unit_of(q: &Q4) -> Result<Q4, ModelCode>
    ensures { result ≡ spec.unit_of q.now }
{
    if is_small_quaternion(q, 1 << 42) {
        turned(q)
    } else {
        Err(ModelCode::LimitPassed)
    }
}

/// The quaternion from a place on. A list has few numbers.
fn quaternion_at(xs: &Array<Fix<32>>, i: usize) -> Q4
    requires { i ≤ 2 ^ 60 }
    ensures { result ≡ spec.quaternion_at xs.now i }
{
    Q4 {
        w: entry(xs, i),
        x: entry(xs, i + 1),
        y: entry(xs, i + 2),
        z: entry(xs, i + 3),
    }
}

#[tactic(auto, unfolding(crate::specs::Start::settled))]
fn settled(xs: &Array<Fix<32>>, i: usize) -> Q4
    requires { i ≤ 2 ^ 60 }
    ensures { result ≡ spec.settled xs.now i }
{
    let q = quaternion_at(xs, i);
    match unit_of(&q) {
        Ok(r) => r,
        Err(_) => q,
    }
}

fn is_small_at(xs: &Array<Fix<32>>, i: usize, limit: u64) -> bool
    ensures { result ≡ spec.is_small limit (spec.entry xs.now i).mid }
{
    entry(xs, i).mid.unsigned_abs() <= limit
}

fn is_near(xs: &Array<Fix<32>>, i: usize) -> bool
    requires { i ≤ 2 ^ 60 }
    ensures { result ≡ spec.is_near xs.now i }
{
    is_small_at(xs, i, 1 << 44)
        && (is_small_at(xs, i + 1, 1 << 44) && is_small_at(xs, i + 2, 1 << 44))
}

fn in_limits(xs: &Array<Fix<32>>, i: usize, kind: JointKind) -> bool
    requires { i ≤ 512 }
    ensures { result ≡ spec.in_limits xs.now i kind }
{
    match kind {
        JointKind::Free => {
            is_near(xs, i) && is_small_quaternion(&quaternion_at(xs, i + 3), 1 << 42)
        }
        JointKind::Ball => is_small_quaternion(&quaternion_at(xs, i), 1 << 42),
        JointKind::Hinge => is_small_at(xs, i, 1 << 52),
        JointKind::Slide => is_small_at(xs, i, 1 << 44),
    }
}

fn is_turned(xs: &Array<Fix<32>>, i: usize, kind: JointKind) -> bool
    requires { i ≤ 512 }
    ensures { result ≡ spec.is_turned xs.now i kind }
{
    match kind {
        JointKind::Free => unit_of(&quaternion_at(xs, i + 3)).is_ok(),
        JointKind::Ball => unit_of(&quaternion_at(xs, i)).is_ok(),
        _ => true,
    }
}

fn both(a: bool, b: bool) -> bool
    ensures { result ≡ (a && b) }
{
    a && b
}

fn joint_in_limits(joints: &Array<Joint>, xs: &Array<Fix<32>>, j: usize) -> bool
    requires there { j < length joints.now }
    requires small { (joint joints.now j).qadr ≤ 512 }
    ensures { result ≡ spec.in_limits xs.now (joint joints.now j).qadr
        (joint joints.now j).kind }
{
    let x = joints.entry(j);
    in_limits(xs, x.qadr, x.kind)
}

fn joint_is_turned(joints: &Array<Joint>, xs: &Array<Fix<32>>, j: usize) -> bool
    requires there { j < length joints.now }
    requires small { (joint joints.now j).qadr ≤ 512 }
    ensures { result ≡ spec.is_turned xs.now (joint joints.now j).qadr
        (joint joints.now j).kind }
{
    let x = joints.entry(j);
    is_turned(xs, x.qadr, x.kind)
}

fn are_in_limits(joints: &Array<Joint>, xs: &Array<Fix<32>>) -> bool
    requires { (j : ℕ) → j < length joints.now → (joint joints.now j).qadr ≤ 512 }
    ensures { result ≡ spec.are_in_limits joints.now xs.now }
{
    let mut all = true;
    for j in 0..joints.len() {
        all = both(all, joint_in_limits(joints, xs, j));
    }
    all
}

fn are_turned(joints: &Array<Joint>, xs: &Array<Fix<32>>) -> bool
    requires { (j : ℕ) → j < length joints.now → (joint joints.now j).qadr ≤ 512 }
    ensures { result ≡ spec.are_turned joints.now xs.now }
{
    let mut all = true;
    for j in 0..joints.len() {
        all = both(all, joint_is_turned(joints, xs, j));
    }
    all
}

fn are_small(xs: &Array<Fix<32>>, n: usize) -> bool
    ensures { result ≡ spec.all_to n (λ d. spec.is_small (2 ^ 44) (spec.entry xs.now d).mid) }
{
    let mut all = true;
    for d in 0..n {
        all = both(all, is_small_at(xs, d, 1 << 44));
    }
    all
}

/// Judges the keyframe's positions: `BadRange` unless there is one for each, then `LimitPassed`, then
/// `NotUnit`.
#[tactic(auto, unfolding(crate::specs::Start::qpos))]
fn qpos(joints: &Array<Joint>, nq: usize, xs: &Array<Fix<32>>) -> Result<(), ModelCode>
    requires { (j : ℕ) → j < length joints.now → (joint joints.now j).qadr ≤ 512 }
    ensures { result ≡ spec.qpos joints.now nq xs.now }
{
    unless(xs.len() == nq, ModelCode::BadRange)?;
    unless(are_in_limits(joints, xs), ModelCode::LimitPassed)?;
    unless(are_turned(joints, xs), ModelCode::NotUnit)
}

/// Judges the keyframe's velocities: `BadRange` unless there is one for each, then `LimitPassed`.
#[tactic(auto, unfolding(crate::specs::Start::qvel))]
fn qvel(nv: usize, xs: &Array<Fix<32>>) -> Result<(), ModelCode>
    ensures { result ≡ spec.qvel nv xs.now }
{
    unless(xs.len() == nv, ModelCode::BadRange)?;
    unless(are_small(xs, nv), ModelCode::LimitPassed)
}

fn given_qpos(
    joints: &Array<Joint>,
    nq: usize,
    xs: &Option<Array<Fix<32>>>,
) -> Result<(), ModelCode>
    requires { (j : ℕ) → j < length joints.now → (joint joints.now j).qadr ≤ 512 }
    ensures { result ≡ spec.if_given (spec.qpos joints.now nq) xs.now }
{
    match xs {
        None => Ok(()),
        Some(list) => qpos(joints, nq, list),
    }
}

fn given_qvel(nv: usize, xs: &Option<Array<Fix<32>>>) -> Result<(), ModelCode>
    ensures { result ≡ spec.if_given (spec.qvel nv) xs.now }
{
    match xs {
        None => Ok(()),
        Some(list) => qvel(nv, list),
    }
}

fn walk_keyframe(w: &mut Walker, joints: &Array<Joint>, nq: usize, nv: usize, k: &RawKeyframe)
    requires { (j : ℕ) → j < length joints.now → (joint joints.now j).qadr ≤ 512 }
    ensures { Step w.old.refusal w.new.refusal tt (spec.keyframe joints.now nq nv k.now) }
{
    judge(w, "qpos", given_qpos(joints, nq, &k.qpos), ());
    judge(w, "qvel", given_qvel(nv, &k.qvel), ());
}

fn judge_keyframe(
    alloc: Global,
    joints: &Array<Joint>,
    nq: usize,
    nv: usize,
    k: &RawKeyframe,
) -> Result<(), Refusal<ModelFault>>
    requires { (j : ℕ) → j < length joints.now → (joint joints.now j).qadr ≤ 512 }
    ensures { Reads result (spec.keyframe joints.now nq nv k.now) }
{
    let mut w = Walker::new(alloc);
    walk_keyframe(&mut w, joints, nq, nv, k);
    w.end(())
}

/// Judges the keyframe, if there is one.
pub(crate) fn judge_start(
    alloc: Global,
    joints: &Array<Joint>,
    nq: usize,
    nv: usize,
    k: &Option<RawKeyframe>,
) -> Result<(), Refusal<ModelFault>>
    requires { (j : ℕ) → j < length joints.now → (joint joints.now j).qadr ≤ 512 }
    ensures { Reads result (spec.start joints.now nq nv k.now) }
{
    match k {
        None => Ok(()),
        Some(table) => under_key(
            alloc,
            "keyframe",
            judge_keyframe(alloc, joints, nq, nv, table),
        ),
    }
}

fn add_quaternion(out: &mut Vec<Fix<32>>, q: &Q4) -> Result<(), AllocError>
    ensures { OnOk result (out.new.items ≡ out.old.items ++ spec.numbers_of q.now) }
{
    out.extend_from_slice(&[q.w, q.x, q.y, q.z])
}

/// Adds where a joint is at rest.
fn add_rest(out: &mut Vec<Fix<32>>, b: &Body, kind: JointKind) -> Result<(), AllocError>
    ensures { OnOk result (out.new.items ≡ out.old.items ++ spec.rest_positions b.now kind) }
{
    match kind {
        JointKind::Free => out.extend_from_slice(&[
            b.pos.x, b.pos.y, b.pos.z, b.quat.w, b.quat.x, b.quat.y, b.quat.z,
        ]),
        JointKind::Ball => add_quaternion(out, &unturned()),
        JointKind::Hinge => out.extend_from_slice(&[Number::from_raw(0)]),
        JointKind::Slide => out.extend_from_slice(&[Number::from_raw(0)]),
    }
}

/// Adds where the keyframe places a joint.
fn add_given(
    out: &mut Vec<Fix<32>>,
    xs: &Array<Fix<32>>,
    i: usize,
    kind: JointKind,
) -> Result<(), AllocError>
    requires { i ≤ 512 }
    ensures { OnOk result (out.new.items ≡ out.old.items
        ++ spec.given_positions xs.now i kind) }
{
    match kind {
        JointKind::Free => {
            let q = settled(xs, i + 3);
            out.extend_from_slice(&[
                entry(xs, i),
                entry(xs, i + 1),
                entry(xs, i + 2),
                q.w,
                q.x,
                q.y,
                q.z,
            ])
        }
        JointKind::Ball => add_quaternion(out, &settled(xs, i)),
        JointKind::Hinge => out.extend_from_slice(&[entry(xs, i)]),
        JointKind::Slide => out.extend_from_slice(&[entry(xs, i)]),
    }
}

/// Adds where joint `j` is at rest.
fn add_rest_at(
    out: &mut Vec<Fix<32>>,
    bodies: &Array<Body>,
    joints: &Array<Joint>,
    j: usize,
) -> Result<(), AllocError>
    requires there { j < length joints.now }
    requires some { 1 ≤ (joint joints.now j).body }
    requires on_body { (joint joints.now j).body ≤ length bodies.now }
    ensures { OnOk result (out.new.items ≡ out.old.items
        ++ spec.rest_at bodies.now joints.now j) }
{
    let x = joints.entry(j);
    add_rest(out, bodies.entry(x.body - 1), x.kind)
}

/// Adds where the keyframe places joint `j`.
fn add_given_at(
    out: &mut Vec<Fix<32>>,
    xs: &Array<Fix<32>>,
    joints: &Array<Joint>,
    j: usize,
) -> Result<(), AllocError>
    requires there { j < length joints.now }
    requires small { (joint joints.now j).qadr ≤ 512 }
    ensures { OnOk result (out.new.items ≡ out.old.items ++ spec.given_at xs.now joints.now j) }
{
    let x = joints.entry(j);
    add_given(out, xs, x.qadr, x.kind)
}

/// Where the joints are at rest.
#[tactic(auto, unfolding(crate::specs::Start::first_positions))]
fn rest_positions(
    alloc: Global,
    bodies: &Array<Body>,
    joints: &Array<Joint>,
) -> Result<Array<Fix<32>>, AllocError>
    requires some { (j : ℕ) → j < length joints.now → 1 ≤ (joint joints.now j).body }
    requires on_body { (j : ℕ) → j < length joints.now
        → (joint joints.now j).body ≤ length bodies.now }
    ensures { IfOk result (λ a. a ≡ spec.first_positions bodies.now joints.now None) }
{
    let mut out = Vec::new(alloc);
    for j in 0..joints.len() {
        add_rest_at(&mut out, bodies, joints, j)?;
    }
    Ok(Array::from_vec(out))
}

/// Where the keyframe places the joints.
#[tactic(auto, unfolding(crate::specs::Start::first_positions))]
fn given_positions(
    alloc: Global,
    bodies: &Array<Body>,
    joints: &Array<Joint>,
    xs: &Array<Fix<32>>,
) -> Result<Array<Fix<32>>, AllocError>
    requires { (j : ℕ) → j < length joints.now → (joint joints.now j).qadr ≤ 512 }
    ensures { IfOk result (λ a. a ≡ spec.first_positions bodies.now joints.now (Some xs.now)) }
{
    let mut out = Vec::new(alloc);
    for j in 0..joints.len() {
        add_given_at(&mut out, xs, joints, j)?;
    }
    Ok(Array::from_vec(out))
}

/// The first positions.
pub(crate) fn first_positions(
    alloc: Global,
    bodies: &Array<Body>,
    joints: &Array<Joint>,
    k: &Option<RawKeyframe>,
) -> Result<Array<Fix<32>>, AllocError>
    requires some { (j : ℕ) → j < length joints.now → 1 ≤ (joint joints.now j).body }
    requires on_body { (j : ℕ) → j < length joints.now
        → (joint joints.now j).body ≤ length bodies.now }
    requires small { (j : ℕ) → j < length joints.now → (joint joints.now j).qadr ≤ 512 }
    ensures { IfOk result (λ a. a ≡ spec.first_positions bodies.now joints.now
        (spec.given_qpos k.now)) }
{
    match k {
        None => rest_positions(alloc, bodies, joints),
        Some(table) => match &table.qpos {
            None => rest_positions(alloc, bodies, joints),
            Some(xs) => given_positions(alloc, bodies, joints, xs),
        },
    }
}

/// The first velocities.
pub(crate) fn first_velocities(
    alloc: Global,
    nv: usize,
    k: Option<RawKeyframe>,
) -> Result<Array<Fix<32>>, AllocError>
    ensures { IfOk result (λ a. a ≡ spec.first_velocities nv (spec.given_qvel k)) }
{
    match k {
        None => Array::filled(alloc, nv, Number::from_raw(0)),
        Some(table) => {
            let RawKeyframe { qpos: _, qvel } = table;
            match qvel {
                None => Array::filled(alloc, nv, Number::from_raw(0)),
                Some(xs) => Ok(xs),
            }
        }
    }
}
