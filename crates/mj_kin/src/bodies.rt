// Each body in its place: its pose from its parent's, and then its centre of mass and its inertia.
ghost use Rattle.std.specs.Prelude.{◌≡◌, ℕ, ◌+◌, ◌-◌, ◌^◌, ◌<◌, ◌≤◌, ◌==◌, if◌then◌else◌, length, IfOk};
ghost use Rattle.fx_whole.specs.First.{refusal_of};
ghost use Rattle.fx_vec.specs.Quaternions.{quaternion, WithinQuaternion};
ghost use Rattle.fx_vec.specs.Sizes.{Within};
ghost use Rattle.fx_vec.specs.Vectors.{minus as minus_of};
ghost use Rattle.mj_types.specs.declared.model.Model.{Model};
ghost use Rattle.fx_vec.specs.Views.{mids, inertia};
ghost use Rattle.mj_quat.specs.Rotation as rotation;
ghost use Rattle.mj_types.specs.Lawful.{IsBody};
ghost use Rattle.mj_types.specs.Parts.{body};
ghost use Rattle.mj_types.specs.Placed.{vector_at, inertia_at};
ghost use Rattle.mj_types.specs.Rooms.{FramesRoom};
ghost use Rattle.mj_types.specs.States.{Fits};
ghost use Rattle.mj_kin.specs.Bodies as spec;
ghost use Rattle.mj_kin.specs.Poses as poses;
ghost use Rattle.mj_kin.specs.Working as working;

use crate::frame::Frame;
use crate::inertias::inertia_from;
use crate::joints::move_joints;
use crate::leaves::{attach, carried, follow, frame_of, is_near};
use crate::skipping::matrix_beside;
use fx_list::Array;
use fx_num::Plain;
use fx_vec::{Inertia10, M3, Q4, V3, minus};
use mj_types::{Body, Frames, Model, OutOfRange, Quantity, State};

/// Body `b + 1`.
pub(crate) fn body_at(model: &Model, b: usize) -> &Body
    requires { b < length model.now.bodies }
    ensures value { result.now ≡ body model.now.bodies b }
    ensures lawful { IsBody result.now }
    ensures parent { result.now.parent ≤ b }
    ensures root { 1 ≤ result.now.root }
    ensures above { result.now.root ≤ b + 1 }
{
    model.bodies.entry(b)
}

/// The frame of the parent of body `b + 1`, where `last` is that of body `b` (the world's at 0). In a
/// chain that body is the parent, and no matrix is formed.
fn parent_frame(
    model: &Model,
    state: &State,
    b: usize,
    last: &Frame,
    pos: &Array<V3<Plain, 32>>,
    quat: &Array<Q4>,
) -> Frame
    requires body { b < length model.now.bodies }
    requires positions { length pos.now ≡ length model.now.bodies }
    requires orientations { length quat.now ≡ length model.now.bodies }
    requires posed { working.ArePosed model.now state.now pos.now quat.now b }
    requires last { working.pose_of last.now ≡ poses.pose model.now state.now b }
    requires near_last { Within (mids last.now.pos) (2 ^ 44) }
    ensures pose { working.pose_of result
        ≡ poses.pose model.now state.now (body model.now.bodies b).parent }
    ensures near { Within (mids result.pos) (2 ^ 44) }
{
    let parent = body_at(model, b).parent;
    if parent != b {
        return frame_of(parent, pos, quat);
    }
    Frame {
        pos: last.pos,
        quat: last.quat,
        rows: last.rows,
    }
}

/// The frame of body `b + 1` as it is attached to its parent, before its joints move it.
fn attach_body(
    model: &Model,
    state: &State,
    b: usize,
    last: &Frame,
    pos: &Array<V3<Plain, 32>>,
    quat: &Array<Q4>,
) -> Result<Frame, OutOfRange>
    requires body { b < length model.now.bodies }
    requires positions { length pos.now ≡ length model.now.bodies }
    requires orientations { length quat.now ≡ length model.now.bodies }
    requires posed { working.ArePosed model.now state.now pos.now quat.now b }
    requires last { working.pose_of last.now ≡ poses.pose model.now state.now b }
    requires near_last { Within (mids last.now.pos) (2 ^ 44) }
    ensures pose { IfOk result (λ f. working.pose_of f
        ≡ poses.pose_after model.now state.now b 0) }
    ensures unit { IfOk result (λ f. rotation.IsUnit (quaternion f.quat)) }
    ensures near { IfOk result (λ f. Within (mids f.pos) (2 ^ 47)) }
    ensures first { refusal_of result ≡ poses.attached_fault model.now state.now b }
{
    let body = body_at(model, b);
    let parent = parent_frame(model, state, b, last, pos, quat);
    attach(&parent, &body.pos, &body.quat, Quantity::QuatNorm, b + 1)
}

/// The frame of body `b + 1` after its joints, which leave their anchors and directions.
fn pose_body(
    model: &Model,
    state: &State,
    b: usize,
    last: &Frame,
    out: &mut Frames,
) -> Result<Frame, OutOfRange>
    requires fits { Fits model.now state.now }
    requires room { FramesRoom model.now out.old }
    requires body { b < length model.now.bodies }
    requires placed { working.ArePlaced model.now state.now out.old b }
    requires last { working.pose_of last.now ≡ poses.pose model.now state.now b }
    requires near_last { Within (mids last.now.pos) (2 ^ 44) }
    ensures room { FramesRoom model.now out.new }
    ensures posed { IfOk result (λ _. working.ArePosed model.now state.now
        out.new.pos out.new.quat b) }
    ensures massed { IfOk result (λ _. working.AreMassed model.now state.now
        out.new.com out.new.inertia b) }
    ensures pose { IfOk result (λ f. working.pose_of f
        ≡ poses.pose model.now state.now (b + 1)) }
    ensures near { IfOk result (λ f. Within (mids f.pos) (2 ^ 53)) }
    ensures marked { IfOk result (λ _. working.AreMarked model.now state.now out.new.anchor
        out.new.column (working.joints_before model.now (b + 1))) }
    ensures first { refusal_of result ≡ poses.pose_fault model.now state.now b }
{
    let attached = attach_body(model, state, b, last, &out.pos, &out.quat)?;
    let frame = move_joints(model, state, b, attached, &mut out.anchor, &mut out.column)?;
    Ok(frame)
}

/// The matrix of a body's inertial frame.
#[tactic(auto, unfolding(crate::specs::Bodies::inertial_matrix))]
fn inertial_matrix(frame: &Frame, body: &Body, index: usize) -> Result<M3, OutOfRange>
    requires { IsBody body.now }
    ensures value { IfOk result (λ x. rotation.rows x
        ≡ spec.inertial_matrix body.now (quaternion frame.now.quat)) }
    ensures size { IfOk result (λ x. rotation.WithinRows (rotation.rows x) (2 ^ 33)) }
    ensures first { refusal_of result ≡ poses.norm_fault Quantity.QuatNorm index
        (quaternion frame.now.quat) (quaternion body.now.iquat) }
{
    let turn = follow(&frame.quat, &body.iquat, Quantity::QuatNorm, index)?;
    Ok(matrix_beside(frame, &turn))
}

/// Nothing where a position and a centre of mass are in their range.
fn judge_places(pos: &V3<Plain, 32>, center: &V3<Plain, 32>, index: usize) -> Result<(), OutOfRange>
    ensures position { IfOk result (λ _. Within (mids pos.now) (2 ^ 44)) }
    ensures center { IfOk result (λ _. Within (mids center.now) (2 ^ 44)) }
    ensures first { refusal_of result ≡ spec.place_fault index (mids pos.now) (mids center.now) }
{
    let good = is_near(pos, 1 << 44) && is_near(center, 1 << 44);
    OutOfRange::unless(good, Quantity::FramePos, index)
}

/// Nothing where an arm is in its range.
fn judge_arm(r: &V3<Plain, 32>, index: usize) -> Result<(), OutOfRange>
    ensures within { IfOk result (λ _. Within (mids r.now) (2 ^ 40)) }
    ensures first { refusal_of result ≡ spec.arm_fault index (mids r.now) }
{
    OutOfRange::unless(is_near(r, 1 << 40), Quantity::Arm, index)
}

/// What a body in its place has besides its pose.
#[derive(Drop)]
struct Standing {
    com: V3<Plain, 32>,
    inertia: Inertia10,
}

/// The centre of mass and the inertia of a body in its place, about the reference point of its tree.
#[tactic(auto, unfolding(crate::specs::Bodies::inertia_of))]
fn stand(
    body: &Body,
    frame: &Frame,
    point: &V3<Plain, 32>,
    index: usize,
) -> Result<Standing, OutOfRange>
    requires body { IsBody body.now }
    requires frame { Within (mids frame.now.pos) (2 ^ 53) }
    requires point { Within (mids point.now) (2 ^ 53) }
    ensures near { IfOk result (λ _. Within (mids frame.now.pos) (2 ^ 44)) }
    ensures center { IfOk result (λ x. mids x.com
        ≡ poses.carried (working.pose_of frame.now) (mids body.now.ipos)) }
    ensures inertia { IfOk result (λ x. inertia x.inertia
        ≡ spec.inertia_of body.now (quaternion frame.now.quat) (minus_of
        (poses.carried (working.pose_of frame.now) (mids body.now.ipos)) (mids point.now))) }
    ensures first { refusal_of result ≡ spec.standing_fault index body.now
        (working.pose_of frame.now) (mids point.now) }
{
    let turn = inertial_matrix(frame, body, index)?;
    let com = carried(frame, &body.ipos);
    judge_places(&frame.pos, &com, index)?;
    let r = minus(&com, point);
    judge_arm(&r, index)?;
    let inertia = inertia_from(body, &turn, &r);
    Ok(Standing { com, inertia })
}

/// The reference point of a body's tree: where its root body is, which may be the body itself.
fn reference(model: &Model, b: usize, frame: &Frame, pos: &Array<V3<Plain, 32>>) -> V3<Plain, 32>
    requires body { b < length model.now.bodies }
    requires positions { length pos.now ≡ length model.now.bodies }
    ensures { mids result ≡ (if (body model.now.bodies b).root == b + 1
        then mids frame.now.pos else vector_at pos.now ((body model.now.bodies b).root - 1)) }
{
    let root = body_at(model, b).root;
    if root == b + 1 {
        frame.pos
    } else {
        pos.at(root - 1)
    }
}

/// Writes a body down.
fn write_body(out: &mut Frames, b: usize, frame: &Frame, standing: &Standing)
    requires positions { b < length out.old.pos }
    requires orientations { b < length out.old.quat }
    requires centers { b < length out.old.com }
    requires inertias { b < length out.old.inertia }
    ensures room { (m : Model) → FramesRoom m out.old → FramesRoom m out.new }
    ensures body { working.WritesBody b (working.pose_of frame.now) (mids standing.now.com)
        (inertia standing.now.inertia) out.old out.new }
{
    out.pos.put(b, frame.pos);
    out.quat.put(b, frame.quat);
    out.com.put(b, standing.com);
    out.inertia.put(b, standing.inertia);
}

/// Places body `b + 1` and gives its frame. All before it are placed; `last` is the frame of body `b`.
pub(crate) fn place_body(
    model: &Model,
    state: &State,
    b: usize,
    last: &Frame,
    out: &mut Frames,
) -> Result<Frame, OutOfRange>
    requires fits { Fits model.now state.now }
    requires room { FramesRoom model.now out.old }
    requires body { b < length model.now.bodies }
    requires placed { working.ArePlaced model.now state.now out.old b }
    requires last { working.pose_of last.now ≡ poses.pose model.now state.now b }
    requires near_last { Within (mids last.now.pos) (2 ^ 44) }
    ensures room { FramesRoom model.now out.new }
    ensures placed { IfOk result (λ _. working.ArePlaced model.now state.now out.new (b + 1)) }
    ensures pose { IfOk result (λ f. working.pose_of f
        ≡ poses.pose model.now state.now (b + 1)) }
    ensures near { IfOk result (λ f. Within (mids f.pos) (2 ^ 44)) }
    ensures first { refusal_of result ≡ spec.body_fault model.now state.now b }
{
    let frame = pose_body(model, state, b, last, out)?;
    let point = reference(model, b, &frame, &out.pos);
    let standing = stand(body_at(model, b), &frame, &point, b + 1)?;
    write_body(out, b, &frame, &standing);
    Ok(frame)
}
