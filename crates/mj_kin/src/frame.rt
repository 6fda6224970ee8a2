// A position and an orientation.
ghost use Rattle.std.specs.Prelude.{◌≡◌, ◌+◌, ◌^◌};
ghost use Rattle.fx_vec.specs.Quaternions.{quaternion, WithinQuaternion};
ghost use Rattle.mj_quat.specs.Rotation as rotation;

use fx_num::Plain;
use fx_vec::{M3, Q4, V3};

/// A position and an orientation: its quaternion, and the matrix of that, which is formed once.
#[derive(Drop)]
pub(crate) struct Frame {
    pub(crate) pos: V3<Plain, 32>,
    pub(crate) quat: Q4,
    pub(crate) rows: M3,
    pub(crate) ghost formed: { rotation.rows rows ≡ rotation.matrix (quaternion quat) },
    pub(crate) ghost small: { WithinQuaternion (quaternion quat) (2 ^ 32) },
    pub(crate) ghost wide: { rotation.WithinRows (rotation.rows rows) (2 ^ 35) },
    pub(crate) ghost sharp: { rotation.IsUnit (quaternion quat)
        → rotation.WithinRows (rotation.rows rows) (2 ^ 32 + 16) },
}
