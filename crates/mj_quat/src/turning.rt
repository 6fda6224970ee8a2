// Rotations about an axis, and a quaternion that turns with an angular velocity.
ghost use Rattle.std.specs.Prelude.{◌≡◌, ◌+◌, ◌*◌, ◌^◌, ◌<◌, ◌≤◌, pos, ◌<ℤ◌, ◌≤ℤ◌, unsigned_abs, IfOk};
ghost use Rattle.fx_whole.specs.First.{refusal_of};
ghost use Rattle.fx_vec.specs.Quaternions.{quaternion, WithinQuaternion};
ghost use Rattle.fx_vec.specs.Settling.{stretched};
ghost use Rattle.fx_vec.specs.Sizes.{Within};
ghost use Rattle.fx_vec.specs.Views.{mids};
ghost use Rattle.mj_quat.specs.Rotation as spec;

use crate::hamilton::compose;
use crate::lengths::{renorm, vector_length, vector_over};
use crate::products::round_product;
use crate::sine::sin_cos;
use fx_num::{Fix, Over, Plain};
use fx_vec::{Q4, V3, Vector3};
use fx_whole::{narrow, nearest_shift};

/// The least length of a turned quaternion that is made a unit again: 1/2.
const LEAST_LENGTH: i64 = 1 << 31;

/// The greatest: 2.
const MOST_LENGTH: i64 = 1 << 33;

/// Half of an angle, rounded.
fn half(angle: &Fix<32>) -> Fix<32>
    ensures value { result.mid ≡ spec.half angle.now.mid }
    ensures size { unsigned_abs result.mid ≤ unsigned_abs angle.now.mid }
{
    Fix::from_raw(narrow(nearest_shift(i128::from(angle.mid), 1)))
}

/// The rotation about `axis` by `angle`: the cosine of half of the angle, and the axis times its
/// sine, each number rounded once. The axis is at most 1, so each number is too.
#[tactic(auto, unfolding(crate::specs::Rotation::axis_angle))]
pub fn axis_angle(axis: &V3<Plain, 32>, angle: Fix<32>) -> Q4
    requires axis { Within (mids axis.now) (2 ^ 32) }
    requires angle { unsigned_abs angle.mid ≤ 2 ^ 52 }
    ensures value { quaternion result ≡ spec.axis_angle (mids axis.now) angle.mid }
    ensures size { WithinQuaternion (quaternion result) (2 ^ 32) }
{
    let (sine, cosine) = sin_cos(half(&angle));
    Q4 {
        w: cosine,
        x: round_product(&axis.x, &sine),
        y: round_product(&axis.y, &sine),
        z: round_product(&axis.z, &sine),
    }
}

/// The rotation vector of the angular velocity `w` over the time `h`.
fn rotation_vector(w: &V3<Plain, 32>, h: &Fix<32>) -> V3<Plain, 32>
    requires w { Within (mids w.now) (2 ^ 44) }
    requires h { unsigned_abs h.now.mid ≤ 2 ^ 32 }
    ensures value { mids result ≡ stretched (mids w.now) h.now.mid }
    ensures size { Within (mids result) (2 ^ 44) }
{
    Vector3 {
        x: round_product(&w.x, h),
        y: round_product(&w.y, h),
        z: round_product(&w.z, h),
    }
}

/// `q` times the rotation by a vector of that length.
fn turn(q: &Q4, by: &V3<Plain, 32>, length: &Fix<32>) -> Q4
    requires q { WithinQuaternion (quaternion q.now) (2 ^ 32) }
    requires by { Within (mids by.now) (2 ^ 44) }
    requires length { length.now.mid ≡ spec.vector_length (mids by.now) }
    requires positive { pos 0 <ℤ length.now.mid }
    requires covers { Within (mids by.now) (unsigned_abs length.now.mid) }
    requires bound { unsigned_abs length.now.mid ≤ 2 ^ 45 }
    ensures value { quaternion result ≡ spec.turn (quaternion q.now) (mids by.now) }
    ensures size { WithinQuaternion (quaternion result) (2 ^ 35) }
{
    let axis = vector_over(by, length);
    compose(q, &axis_angle(&axis, *length))
}

/// `q` after the time `h` at the angular velocity `w`, which turns with the body: `q` times the
/// rotation about `w` by `|w| h`, made a unit again. A velocity that turns it by less than half of
/// a unit of each number leaves `q` as it is. `Over::Value` exactly where the length of the
/// product is out of 1/2 to 2.
pub fn advance(q: &Q4, w: &V3<Plain, 32>, h: Fix<32>) -> Result<Q4, Over>
    requires q { WithinQuaternion (quaternion q.now) (2 ^ 32) }
    requires w { Within (mids w.now) (2 ^ 44) }
    requires positive { pos 0 <ℤ h.mid }
    requires h { h.mid ≤ℤ pos (2 ^ 32) }
    ensures value { IfOk result (λ r. quaternion r
        ≡ spec.advance (quaternion q.now) (mids w.now) h.mid) }
    ensures size { IfOk result (λ r. WithinQuaternion (quaternion r) (2 ^ 32)) }
    ensures unit { spec.IsUnit (quaternion q.now)
        → IfOk result (λ r. spec.IsUnit (quaternion r)) }
    ensures first { refusal_of result
        ≡ spec.advance_out (quaternion q.now) (mids w.now) h.mid }
{
    let by = rotation_vector(w, &h);
    let length = vector_length(&by);
    if length.mid > 0 {
        renorm(&turn(q, &by, &length), LEAST_LENGTH, MOST_LENGTH)
    } else {
        Ok(*q)
    }
}
