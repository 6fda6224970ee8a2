// Turns by nothing, vectors of nothing and matrices at hand, as most models have them: what changes
// nothing isn't computed.
ghost use Rattle.std.specs.Prelude.{◌≡◌, ℕ, ◌+◌, ◌*◌, ◌^◌, IsTrue};
ghost use Rattle.fx_vec.specs.Quaternions.{quaternion, WithinQuaternion};
ghost use Rattle.fx_vec.specs.Sizes.{Within};
ghost use Rattle.fx_vec.specs.Vectors.{no_vector};
ghost use Rattle.fx_vec.specs.Views.{mids};
ghost use Rattle.mj_quat.specs.Rotation as rotation;
ghost use Rattle.mj_kin.specs.Poses as spec;

use crate::frame::Frame;
use fx_num::Plain;
use fx_vec::{M3, Q4, V3};
use mj_quat::{compose, matrix, rotate_by};

/// Whether a quaternion turns nothing.
fn is_unturned(q: &Q4) -> bool
    ensures { IsTrue result → quaternion q.now ≡ spec.world.orientation }
{
    q.w.mid == 1 << 32 && q.x.mid == 0 && q.y.mid == 0 && q.z.mid == 0
}

/// Whether a vector is 0.
fn is_nothing(v: &V3<Plain, 32>) -> bool
    ensures { IsTrue result → mids v.now ≡ no_vector }
{
    v.x.mid == 0 && v.y.mid == 0 && v.z.mid == 0
}

/// Whether two quaternions are the same, number by number.
fn is_same(a: &Q4, b: &Q4) -> bool
    ensures { IsTrue result → quaternion a.now ≡ quaternion b.now }
{
    a.w.mid == b.w.mid && a.x.mid == b.x.mid && a.y.mid == b.y.mid && a.z.mid == b.z.mid
}

/// The Hamilton product `a b`: `a` itself where `b` turns nothing.
pub(crate) fn composed(a: &Q4, b: &Q4) -> Q4
    requires a { WithinQuaternion (quaternion a.now) (2 ^ 32) }
    requires b { WithinQuaternion (quaternion b.now) (2 ^ 32) }
    ensures value { quaternion result ≡ rotation.product (quaternion a.now) (quaternion b.now) }
    ensures size { WithinQuaternion (quaternion result) (2 ^ 35) }
{
    if is_unturned(b) { *a } else { compose(a, b) }
}

/// A matrix times `x`, each number rounded once: 0 where `x` is.
pub(crate) fn rotated(rows: &M3, x: &V3<Plain, 32>) -> V3<Plain, 32>
    requires rows { rotation.WithinRows (rotation.rows rows.now) (2 ^ 35) }
    requires x { Within (mids x.now) (2 ^ 46) }
    ensures value { mids result ≡ rotation.rotate_by (rotation.rows rows.now) (mids x.now) }
    ensures size { (limit : ℕ) → Within (mids x.now) limit → Within (mids result) (24 * limit) }
    ensures near { rotation.WithinRows (rotation.rows rows.now) (2 ^ 32 + 16)
        → Within (mids x.now) (2 ^ 42) → Within (mids result) (2 ^ 44) }
{
    if is_nothing(x) {
        *x
    } else {
        rotate_by(rows, x)
    }
}

/// The matrix of a quaternion. A frame has that of its own, and what is attached to it mostly has its
/// orientation.
pub(crate) fn matrix_beside(frame: &Frame, quat: &Q4) -> M3
    requires { WithinQuaternion (quaternion quat.now) (2 ^ 32) }
    ensures value { rotation.rows result ≡ rotation.matrix (quaternion quat.now) }
    ensures wide { rotation.WithinRows (rotation.rows result) (2 ^ 35) }
    ensures sharp { rotation.IsUnit (quaternion quat.now)
        → rotation.WithinRows (rotation.rows result) (2 ^ 32 + 16) }
{
    if is_same(quat, &frame.quat) {
        frame.rows
    } else {
        matrix(quat)
    }
}
