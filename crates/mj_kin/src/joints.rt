// What the joints of a body do to its frame, in order, and what each leaves for the motion columns.
ghost use Rattle.std.specs.Prelude.{◌≡◌, ℕ, ◌+◌, ◌*◌, ◌^◌, ◌<◌, ◌≤◌, unsigned_abs, false, length, List, IfOk};
ghost use Rattle.fx_whole.specs.First.{refusal_of, first_to};
ghost use Rattle.fx_vec.specs.Quaternions.{quaternion, WithinQuaternion};
ghost use Rattle.fx_vec.specs.Sizes.{Within};
ghost use Rattle.fx_vec.specs.Views.{mids};
ghost use Rattle.mj_quat.specs.Rotation.{IsUnit};
ghost use Rattle.mj_types.specs.Lawful.{is_free, position_limit, IsJoint};
ghost use Rattle.mj_types.specs.Parts.{body, number_at, position_count, velocity_count};
ghost use Rattle.mj_types.specs.States.{Fits};
ghost use Rattle.mj_kin.specs.Poses as spec;
ghost use Rattle.mj_kin.specs.Working.{pose_of, HasPositions, MarksJoint, AreMarked};

use crate::columns::mark;
use crate::frame::Frame;
use crate::leaves::{axis, carried, follow, framed, hung, slid};
use fx_list::Array;
use fx_num::{Fix, Plain};
use fx_vec::{Q4, Sp6, V3, Vector3};
use mj_quat::axis_angle;
use mj_types::{Joint, JointKind, Model, OutOfRange, Quantity, State};

/// Position `i` of a joint.
fn position(state: &State, joint: &Joint, i: usize) -> Fix<32>
    requires positions { HasPositions state.now joint.now }
    requires part { i < position_count joint.now.kind }
    ensures value { result.mid ≡ number_at state.now.q (joint.now.qadr + i) }
    ensures size { unsigned_abs result.mid ≤ position_limit joint.now.kind i }
{
    let _count = state.q.len();
    state.q.at(joint.qadr + i)
}

/// The position of a hinge or a slide.
fn scalar(state: &State, joint: &Joint, limit: u64) -> Fix<32>
    requires positions { HasPositions state.now joint.now }
    requires kind { position_count joint.now.kind ≡ 1 }
    requires limit { position_limit joint.now.kind 0 ≤ limit }
    ensures value { result.mid ≡ number_at state.now.q joint.now.qadr }
    ensures size { unsigned_abs result.mid ≤ limit }
{
    position(state, joint, 0)
}

/// The quaternion in a ball's or a free joint's positions, after the first `from` of them.
fn orientation(state: &State, joint: &Joint, from: usize) -> Q4
    requires positions { HasPositions state.now joint.now }
    requires last { from + 4 ≡ position_count joint.now.kind }
    requires limit { (i : ℕ) → from ≤ i → position_limit joint.now.kind i ≡ 2 ^ 32 }
    ensures value { quaternion result
        ≡ spec.quaternion_from (number_at state.now.q) (joint.now.qadr + from) }
    ensures size { WithinQuaternion (quaternion result) (2 ^ 32) }
{
    Q4 {
        w: position(state, joint, from),
        x: position(state, joint, from + 1),
        y: position(state, joint, from + 2),
        z: position(state, joint, from + 3),
    }
}

/// A ball's orientation.
fn ball_turn(state: &State, joint: &Joint) -> Q4
    requires positions { HasPositions state.now joint.now }
    requires kind { joint.now.kind ≡ JointKind.Ball }
    ensures value { quaternion result
        ≡ spec.turn JointKind.Ball joint.now (number_at state.now.q) }
    ensures size { WithinQuaternion (quaternion result) (2 ^ 32) }
{
    orientation(state, joint, 0)
}

/// A hinge's orientation.
fn hinge_turn(state: &State, joint: &Joint) -> Q4
    requires positions { HasPositions state.now joint.now }
    requires axis { Within (mids joint.now.axis) (2 ^ 32) }
    requires kind { joint.now.kind ≡ JointKind.Hinge }
    ensures value { quaternion result
        ≡ spec.turn JointKind.Hinge joint.now (number_at state.now.q) }
    ensures size { WithinQuaternion (quaternion result) (2 ^ 32) }
{
    axis_angle(&joint.axis, scalar(state, joint, 1 << 52))
}

/// The place in a free joint's positions.
fn free_place(state: &State, joint: &Joint) -> V3<Plain, 32>
    requires positions { HasPositions state.now joint.now }
    requires kind { joint.now.kind ≡ JointKind.Free }
    ensures value { mids result ≡ spec.vector_from (number_at state.now.q) joint.now.qadr }
    ensures size { Within (mids result) (2 ^ 44) }
{
    Vector3 {
        x: position(state, joint, 0),
        y: position(state, joint, 1),
        z: position(state, joint, 2),
    }
}

/// The frame that a free joint sets.
fn free(state: &State, joint: &Joint) -> Frame
    requires positions { HasPositions state.now joint.now }
    requires kind { joint.now.kind ≡ JointKind.Free }
    ensures pose { (p : spec.Pose) → pose_of result
        ≡ spec.moved JointKind.Free joint.now (number_at state.now.q) p }
    ensures size { Within (mids result.pos) (2 ^ 44) }
{
    framed(&free_place(state, joint), &orientation(state, joint, 3))
}

/// The frame turned about the joint's anchor, after what it was turned before.
pub(crate) fn turned(
    frame: &Frame,
    joint: &Joint,
    at: &V3<Plain, 32>,
    by: &Q4,
    index: usize,
) -> Result<Frame, OutOfRange>
    requires joint { Within (mids joint.now.pos) (2 ^ 42) }
    requires at { Within (mids at.now) (2 ^ 54) }
    requires by { WithinQuaternion (quaternion by.now) (2 ^ 32) }
    ensures pose { IfOk result (λ f. pose_of f ≡ spec.hung joint.now (mids at.now)
        (spec.followed (quaternion frame.now.quat) (quaternion by.now))) }
    ensures unit { IfOk result (λ f. IsUnit (quaternion f.quat)) }
    ensures linear { (limit : ℕ) → Within (mids at.now) (limit + 2 ^ 44)
        → IfOk result (λ f. Within (mids f.pos) (limit + 2 ^ 46)) }
    ensures first { refusal_of result ≡ spec.norm_fault Quantity.QuatNorm index
        (quaternion frame.now.quat) (quaternion by.now) }
{
    let quat = follow(&frame.quat, by, Quantity::QuatNorm, index)?;
    Ok(hung(joint, at, &quat))
}

/// The frame after a joint, whose anchor and axis in the world are given.
fn moved(
    state: &State,
    joint: &Joint,
    frame: &Frame,
    at: &V3<Plain, 32>,
    along: &V3<Plain, 32>,
    index: usize,
) -> Result<Frame, OutOfRange>
    requires positions { HasPositions state.now joint.now }
    requires joint { IsJoint joint.now }
    requires frame { Within (mids frame.now.pos) (2 ^ 53) }
    requires at { Within (mids at.now) (2 ^ 54) }
    requires along { Within (mids along.now) (2 ^ 34) }
    requires anchor { mids at.now ≡ spec.anchor joint.now (pose_of frame.now) }
    requires axis { mids along.now ≡ spec.axis joint.now (pose_of frame.now) }
    ensures pose { IfOk result (λ f. pose_of f ≡ spec.moved joint.now.kind joint.now
        (number_at state.now.q) (pose_of frame.now)) }
    ensures unit { is_free joint.now.kind ≡ false
        → IsUnit (quaternion frame.now.quat) → IfOk result (λ f. IsUnit (quaternion f.quat)) }
    ensures linear { (limit : ℕ) → 2 ^ 44 ≤ limit → Within (mids frame.now.pos) limit
        → Within (mids at.now) (limit + 2 ^ 44)
        → IfOk result (λ f. Within (mids f.pos) (limit + 2 ^ 46)) }
    ensures first { refusal_of result ≡ spec.moved_fault index joint.now.kind joint.now
        (number_at state.now.q) (pose_of frame.now) }
{
    match joint.kind {
        JointKind::Free => Ok(free(state, joint)),
        JointKind::Ball => turned(frame, joint, at, &ball_turn(state, joint), index),
        JointKind::Hinge => turned(frame, joint, at, &hinge_turn(state, joint), index),
        JointKind::Slide => Ok(slid(frame, along, &scalar(state, joint, 1 << 44))),
    }
}

/// The frame after joint `j`, whose anchor and directions are written down.
fn move_joint(
    state: &State,
    joint: &Joint,
    j: usize,
    frame: &Frame,
    index: usize,
    anchors: &mut Array<V3<Plain, 32>>,
    directions: &mut Array<Sp6<Plain, 32>>,
) -> Result<Frame, OutOfRange>
    requires positions { HasPositions state.now joint.now }
    requires joint { IsJoint joint.now }
    requires frame { Within (mids frame.now.pos) (2 ^ 53) }
    requires unit { IsUnit (quaternion frame.now.quat) }
    requires anchors { j < length anchors.old }
    requires directions { joint.now.dadr + velocity_count joint.now.kind
        ≤ length directions.old }
    ensures anchors { length anchors.new ≡ length anchors.old }
    ensures directions { length directions.new ≡ length directions.old }
    ensures pose { IfOk result (λ f. pose_of f ≡ spec.moved joint.now.kind joint.now
        (number_at state.now.q) (pose_of frame.now)) }
    ensures unit { is_free joint.now.kind ≡ false → IfOk result (λ f. IsUnit (quaternion f.quat)) }
    ensures linear { (limit : ℕ) → 2 ^ 44 ≤ limit → Within (mids frame.now.pos) limit
        → IfOk result (λ f. Within (mids f.pos) (limit + 2 ^ 46)) }
    ensures marks { IfOk result (λ f. MarksJoint joint.now j (pose_of frame.now) (pose_of f)
        anchors.old anchors.new directions.old directions.new) }
    ensures first { refusal_of result ≡ spec.moved_fault index joint.now.kind joint.now
        (number_at state.now.q) (pose_of frame.now) }
{
    let at = carried(frame, &joint.pos);
    let along = axis(frame, joint);
    let next = moved(state, joint, frame, &at, &along, index)?;
    anchors.put(j, at);
    mark(joint, &along, &next.rows, directions);
    Ok(next)
}

/// How many joints body `b + 1` has.
fn joint_count(model: &Model, b: usize) -> usize
    requires { b < length model.now.bodies }
    ensures { result ≡ (body model.now.bodies b).jntnum }
{
    model.bodies.entry(b).jntnum
}

/// The place of joint `i` of body `b + 1` among all joints.
fn own_place(model: &Model, b: usize, i: usize) -> usize
    requires body { b < length model.now.bodies }
    requires own { i < (body model.now.bodies b).jntnum }
    ensures place { result ≡ (body model.now.bodies b).jntadr + i }
    ensures there { result < length model.now.joints }
{
    let _joints = model.joints.len();
    model.bodies.entry(b).jntadr + i
}

/// That joint.
fn own_joint(model: &Model, b: usize, i: usize) -> &Joint
    requires body { b < length model.now.bodies }
    requires own { i < (body model.now.bodies b).jntnum }
    ensures { result.now ≡ spec.own_joint model.now b i }
{
    model.joints.entry(own_place(model, b, i))
}

/// The frame of body `b + 1` after its joint `i`, from the one before that.
fn move_own(
    model: &Model,
    state: &State,
    b: usize,
    i: usize,
    frame: &Frame,
    anchors: &mut Array<V3<Plain, 32>>,
    directions: &mut Array<Sp6<Plain, 32>>,
) -> Result<Frame, OutOfRange>
    requires fits { Fits model.now state.now }
    requires body { b < length model.now.bodies }
    requires own { i < (body model.now.bodies b).jntnum }
    requires pose { pose_of frame.now ≡ spec.pose_after model.now state.now b i }
    requires unit { IsUnit (quaternion frame.now.quat) }
    requires near { Within (mids frame.now.pos) (2 ^ 47 + i * 2 ^ 46) }
    requires anchors { length anchors.old ≡ length model.now.joints }
    requires directions { length directions.old ≡ model.now.nv }
    requires marked { AreMarked model.now state.now anchors.old directions.old
        ((body model.now.bodies b).jntadr + i) }
    ensures anchors { length anchors.new ≡ length anchors.old }
    ensures directions { length directions.new ≡ length directions.old }
    ensures pose { IfOk result (λ f. pose_of f ≡ spec.pose_after model.now state.now b (i + 1)) }
    ensures unit { i + 1 < (body model.now.bodies b).jntnum
        → IfOk result (λ f. IsUnit (quaternion f.quat)) }
    ensures near { IfOk result (λ f. Within (mids f.pos) (2 ^ 47 + (i + 1) * 2 ^ 46)) }
    ensures marked { IfOk result (λ _. AreMarked model.now state.now anchors.new directions.new
        ((body model.now.bodies b).jntadr + (i + 1))) }
    ensures first { refusal_of result ≡ spec.joint_fault model.now state.now b i }
{
    let place = own_place(model, b, i);
    let joint = own_joint(model, b, i);
    move_joint(state, joint, place, frame, b + 1, anchors, directions)
}

/// The frame of body `b + 1` after its joints, in order, from where it is attached to its parent.
pub(crate) fn move_joints(
    model: &Model,
    state: &State,
    b: usize,
    attached: Frame,
    anchors: &mut Array<V3<Plain, 32>>,
    directions: &mut Array<Sp6<Plain, 32>>,
) -> Result<Frame, OutOfRange>
    requires fits { Fits model.now state.now }
    requires body { b < length model.now.bodies }
    requires pose { pose_of attached ≡ spec.pose_after model.now state.now b 0 }
    requires unit { IsUnit (quaternion attached.quat) }
    requires near { Within (mids attached.pos) (2 ^ 47) }
    requires anchors { length anchors.old ≡ length model.now.joints }
    requires directions { length directions.old ≡ model.now.nv }
    requires marked { AreMarked model.now state.now anchors.old directions.old
        (body model.now.bodies b).jntadr }
    ensures anchors { length anchors.new ≡ length anchors.old }
    ensures directions { length directions.new ≡ length directions.old }
    ensures pose { IfOk result (λ f. pose_of f ≡ spec.pose model.now state.now (b + 1)) }
    ensures near { IfOk result (λ f. Within (mids f.pos) (2 ^ 53)) }
    ensures marked { IfOk result (λ _. AreMarked model.now state.now anchors.new directions.new
        ((body model.now.bodies b).jntadr + (body model.now.bodies b).jntnum)) }
    ensures first { refusal_of result ≡ first_to (body model.now.bodies b).jntnum
        (spec.joint_fault model.now state.now b) }
{
    let mut frame = attached;
    for i in 0..joint_count(model, b) {
        frame = move_own(model, state, b, i, &frame, anchors, directions)?;
    }
    Ok(frame)
}
