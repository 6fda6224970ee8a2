// Frames and what is fixed in them, one rounding at a time.
ghost use Rattle.std.specs.Prelude.{◌≡◌, ℕ, ◌+◌, ◌*◌, ◌^◌, ◌<◌, ◌≤◌, unsigned_abs, length, IfOk};
ghost use Rattle.fx_whole.specs.First.{refusal_of};
ghost use Rattle.fx_vec.specs.Quaternions.{quaternion, WithinQuaternion};
ghost use Rattle.fx_vec.specs.Sizes.{Within};
ghost use Rattle.fx_vec.specs.Views.{mids};
ghost use Rattle.mj_quat.specs.Rotation.{IsUnit};
ghost use Rattle.mj_kin.specs.Bodies.{is_near};
ghost use Rattle.mj_kin.specs.Poses as spec;
ghost use Rattle.mj_types.specs.Placed.{vector_at, quaternion_at};
ghost use Rattle.mj_kin.specs.Working.{pose_of, listed_pose, AreNear};

use crate::frame::Frame;
use crate::skipping::{composed, matrix_beside, rotated};
use fx_list::Array;
use fx_num::{Fix, Number, Plain};
use fx_vec::{Q4, V3, Vector3, minus, plus, stretch};
use mj_quat::{matrix, renorm, rotate_by};
use mj_types::{Joint, OutOfRange, Quantity};

/// The least length of a composed quaternion that is made a unit again: 1/2.
const LEAST_LENGTH: i64 = 1 << 31;

/// The greatest: 2.
const MOST_LENGTH: i64 = 1 << 33;

/// Whether each number of a vector is at most a limit in size.
pub(crate) fn is_near(v: &V3<Plain, 32>, limit: u64) -> bool
    ensures { result ≡ is_near limit (mids v.now) }
{
    v.x.mid.unsigned_abs() <= limit
        && v.y.mid.unsigned_abs() <= limit
        && v.z.mid.unsigned_abs() <= limit
}

/// The frame at a position with an orientation.
pub(crate) fn framed(pos: &V3<Plain, 32>, quat: &Q4) -> Frame
    requires { WithinQuaternion (quaternion quat.now) (2 ^ 32) }
    ensures { pose_of result
        ≡ record { position = mids pos.now; orientation = quaternion quat.now } }
{
    Frame {
        pos: *pos,
        quat: *quat,
        rows: matrix(quat),
    }
}

/// That frame, beside another that mostly has the same orientation.
fn framed_beside(frame: &Frame, pos: &V3<Plain, 32>, quat: &Q4) -> Frame
    requires { WithinQuaternion (quaternion quat.now) (2 ^ 32) }
    ensures { pose_of result
        ≡ record { position = mids pos.now; orientation = quaternion quat.now } }
{
    Frame {
        pos: *pos,
        quat: *quat,
        rows: matrix_beside(frame, quat),
    }
}

/// The world's frame.
pub(crate) fn world() -> Frame
    ensures { pose_of result ≡ spec.world }
{
    let zero = Number { mid: 0, rad: () };
    let one = Number {
        mid: 1 << 32,
        rad: (),
    };
    let pos = Vector3 {
        x: zero,
        y: zero,
        z: zero,
    };
    let quat = Q4 {
        w: one,
        x: zero,
        y: zero,
        z: zero,
    };
    framed(&pos, &quat)
}

/// The rotation `b` and then `a`, made a unit again; its fault where its length is out of range.
#[tactic(auto, unfolding(crate::specs::Poses::followed, crate::specs::Poses::norm_fault))]
pub(crate) fn follow(a: &Q4, b: &Q4, what: Quantity, index: usize) -> Result<Q4, OutOfRange>
    requires a { WithinQuaternion (quaternion a.now) (2 ^ 32) }
    requires b { WithinQuaternion (quaternion b.now) (2 ^ 32) }
    ensures value { IfOk result (λ r. quaternion r
        ≡ spec.followed (quaternion a.now) (quaternion b.now)) }
    ensures size { IfOk result (λ r. WithinQuaternion (quaternion r) (2 ^ 32)) }
    ensures unit { IfOk result (λ r. IsUnit (quaternion r)) }
    ensures first { refusal_of result
        ≡ spec.norm_fault what index (quaternion a.now) (quaternion b.now) }
{
    match renorm(&composed(a, b), LEAST_LENGTH, MOST_LENGTH) {
        Ok(r) => Ok(r),
        Err(_) => Err(OutOfRange { kind: what, index }),
    }
}

/// Where a point of a frame is.
#[tactic(auto, unfolding(crate::specs::Poses::carried))]
pub(crate) fn carried(frame: &Frame, x: &V3<Plain, 32>) -> V3<Plain, 32>
    requires frame { Within (mids frame.now.pos) (2 ^ 53) }
    requires x { Within (mids x.now) (2 ^ 42) }
    ensures value { mids result ≡ spec.carried (pose_of frame.now) (mids x.now) }
    ensures size { Within (mids result) (2 ^ 54) }
    ensures body { Within (mids frame.now.pos) (2 ^ 44) → Within (mids result) (2 ^ 46) }
    ensures linear { (limit : ℕ) → Within (mids frame.now.pos) limit
        → IsUnit (quaternion frame.now.quat) → Within (mids result) (limit + 2 ^ 44) }
{
    plus(&frame.pos, &rotated(&frame.rows, x))
}

/// A direction of a frame, in the world.
#[tactic(auto, unfolding(crate::specs::Poses::axis))]
pub(crate) fn axis(frame: &Frame, joint: &Joint) -> V3<Plain, 32>
    requires frame { IsUnit (quaternion frame.now.quat) }
    requires joint { Within (mids joint.now.axis) (2 ^ 32) }
    ensures value { mids result ≡ spec.axis joint.now (pose_of frame.now) }
    ensures size { Within (mids result) (2 ^ 34) }
{
    rotate_by(&frame.rows, &joint.axis)
}

/// The frame moved along a direction in the world.
#[tactic(auto, unfolding(crate::specs::Poses::slid))]
pub(crate) fn slid(frame: &Frame, along: &V3<Plain, 32>, by: &Fix<32>) -> Frame
    requires frame { Within (mids frame.now.pos) (2 ^ 53) }
    requires along { Within (mids along.now) (2 ^ 34) }
    requires by { unsigned_abs by.now.mid ≤ 2 ^ 44 }
    ensures pose { pose_of result ≡ spec.slid (mids along.now) by.now.mid (pose_of frame.now) }
    ensures quat { result.quat ≡ frame.now.quat }
    ensures linear { (limit : ℕ) → Within (mids frame.now.pos) limit
        → Within (mids result.pos) (limit + 2 ^ 46) }
{
    Frame {
        pos: plus(&frame.pos, &stretch(along, by)),
        quat: frame.quat,
        rows: frame.rows,
    }
}

/// The frame with an orientation in which the joint's point is at its anchor.
#[tactic(auto, unfolding(crate::specs::Poses::hung))]
pub(crate) fn hung(joint: &Joint, at: &V3<Plain, 32>, quat: &Q4) -> Frame
    requires joint { Within (mids joint.now.pos) (2 ^ 42) }
    requires at { Within (mids at.now) (2 ^ 54) }
    requires size { WithinQuaternion (quaternion quat.now) (2 ^ 32) }
    requires unit { IsUnit (quaternion quat.now) }
    ensures pose { pose_of result ≡ spec.hung joint.now (mids at.now) (quaternion quat.now) }
    ensures quat { result.quat ≡ quat.now }
    ensures linear { (limit : ℕ) → Within (mids at.now) limit
        → Within (mids result.pos) (limit + 2 ^ 44) }
{
    let rows = matrix(quat);
    Frame {
        pos: minus(at, &rotated(&rows, &joint.pos)),
        quat: *quat,
        rows,
    }
}

/// The frame of a body by its number, from the lists of those of bodies 1, 2, ..
pub(crate) fn frame_of(k: usize, pos: &Array<V3<Plain, 32>>, quat: &Array<Q4>) -> Frame
    requires positions { k ≤ length pos.now }
    requires orientations { k ≤ length quat.now }
    requires near { AreNear pos.now quat.now k }
    ensures pose { pose_of result ≡ listed_pose pos.now quat.now k }
    ensures near { Within (mids result.pos) (2 ^ 44) }
{
    if k == 0 {
        world()
    } else {
        framed(pos.entry(k - 1), quat.entry(k - 1))
    }
}

/// The frame that is attached to another at a point, turned against it.
pub(crate) fn attach(
    frame: &Frame,
    pos: &V3<Plain, 32>,
    quat: &Q4,
    what: Quantity,
    index: usize,
) -> Result<Frame, OutOfRange>
    requires frame { Within (mids frame.now.pos) (2 ^ 44) }
    requires pos { Within (mids pos.now) (2 ^ 42) }
    requires quat { WithinQuaternion (quaternion quat.now) (2 ^ 32) }
    ensures pose { IfOk result (λ f. pose_of f
        ≡ spec.attached (pose_of frame.now) (mids pos.now) (quaternion quat.now)) }
    ensures unit { IfOk result (λ f. IsUnit (quaternion f.quat)) }
    ensures near { IfOk result (λ f. Within (mids f.pos) (2 ^ 46)) }
    ensures first { refusal_of result ≡ spec.norm_fault what index
        (quaternion frame.now.quat) (quaternion quat.now) }
{
    let turn = follow(&frame.quat, quat, what, index)?;
    Ok(framed_beside(frame, &carried(frame, pos), &turn))
}
