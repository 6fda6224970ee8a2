// The matrix of a rotation, and a vector rotated by it.
ghost use Rattle.std.specs.Prelude.{◌≡◌, ℕ, ◌+◌, ◌*◌, ◌^◌, ◌≤◌, pos, ◌-ℤ◌, ◌*ℤ◌, unsigned_abs};
ghost use Rattle.fx_vec.specs.Quaternions.{quaternion, WithinQuaternion};
ghost use Rattle.fx_vec.specs.Sizes.{Within};
ghost use Rattle.fx_vec.specs.Views.{mids};
ghost use Rattle.mj_quat.specs.Rotation as spec;

use crate::products::{pair_difference, pair_sum, round_dot};
use fx_num::{Fix, Plain, rounded_difference, rounded_sum};
use fx_vec::{M3, Q4, V3, Vector3};

/// `2 n`, rounded.
fn twice(n: &i128) -> Fix<32>
    requires { unsigned_abs n.now ≤ 2 ^ 65 }
    ensures value { result.mid ≡ spec.round (pos 2 *ℤ n.now) }
    ensures size { unsigned_abs result.mid ≤ 2 ^ 35 }
{
    rounded_sum(n, n)
}

/// `1 - 2 n`, rounded.
fn one_less_twice(n: &i128) -> Fix<32>
    requires { unsigned_abs n.now ≤ 2 ^ 65 }
    ensures value { result.mid ≡ spec.round (pos (2 ^ 64) -ℤ pos 2 *ℤ n.now) }
    ensures size { unsigned_abs result.mid ≤ 2 ^ 35 }
{
    let one = 1i128 << 64;
    rounded_difference(&one, &(2 * *n))
}

/// The first row of a rotation's matrix.
#[tactic(auto, unfolding(crate::specs::Rotation::row_x))]
fn row_x(q: &Q4) -> V3<Plain, 32>
    requires { WithinQuaternion (quaternion q.now) (2 ^ 32) }
    ensures value { mids result ≡ spec.row_x (quaternion q.now) }
    ensures size { Within (mids result) (2 ^ 35) }
{
    Vector3 {
        x: one_less_twice(&pair_sum(&q.y, &q.y, &q.z, &q.z)),
        y: twice(&pair_difference(&q.x, &q.y, &q.w, &q.z)),
        z: twice(&pair_sum(&q.x, &q.z, &q.w, &q.y)),
    }
}

/// The second row.
#[tactic(auto, unfolding(crate::specs::Rotation::row_y))]
fn row_y(q: &Q4) -> V3<Plain, 32>
    requires { WithinQuaternion (quaternion q.now) (2 ^ 32) }
    ensures value { mids result ≡ spec.row_y (quaternion q.now) }
    ensures size { Within (mids result) (2 ^ 35) }
{
    Vector3 {
        x: twice(&pair_sum(&q.x, &q.y, &q.w, &q.z)),
        y: one_less_twice(&pair_sum(&q.x, &q.x, &q.z, &q.z)),
        z: twice(&pair_difference(&q.y, &q.z, &q.w, &q.x)),
    }
}

/// The third row.
#[tactic(auto, unfolding(crate::specs::Rotation::row_z))]
fn row_z(q: &Q4) -> V3<Plain, 32>
    requires { WithinQuaternion (quaternion q.now) (2 ^ 32) }
    ensures value { mids result ≡ spec.row_z (quaternion q.now) }
    ensures size { Within (mids result) (2 ^ 35) }
{
    Vector3 {
        x: twice(&pair_difference(&q.x, &q.z, &q.w, &q.y)),
        y: twice(&pair_sum(&q.y, &q.z, &q.w, &q.x)),
        z: one_less_twice(&pair_sum(&q.x, &q.x, &q.y, &q.y)),
    }
}

/// The matrix of the rotation `q`, each number rounded once. Where `q` is a unit, none of its
/// numbers is more than 16 units past 1.
pub fn matrix(q: &Q4) -> M3
    requires { WithinQuaternion (quaternion q.now) (2 ^ 32) }
    ensures value { spec.rows result ≡ spec.matrix (quaternion q.now) }
    ensures size { spec.WithinRows (spec.rows result) (2 ^ 35) }
    ensures sharp { spec.IsUnit (quaternion q.now)
        → spec.WithinRows (spec.rows result) (2 ^ 32 + 16) }
{
    M3 {
        a: row_x(q),
        b: row_y(q),
        c: row_z(q),
    }
}

/// A matrix times `x`, each number rounded once: for vectors that one rotation turns, whose matrix
/// is then formed once.
pub fn rotate_by(rows: &M3, x: &V3<Plain, 32>) -> V3<Plain, 32>
    requires rows { spec.WithinRows (spec.rows rows.now) (2 ^ 35) }
    requires x { Within (mids x.now) (2 ^ 46) }
    ensures value { mids result ≡ spec.rotate_by (spec.rows rows.now) (mids x.now) }
    ensures size { (limit : ℕ) → Within (mids x.now) limit → Within (mids result) (24 * limit) }
    ensures sharp { (limit : ℕ) → spec.WithinRows (spec.rows rows.now) (2 ^ 32 + 16)
        → Within (mids x.now) limit → Within (mids result) (4 * limit) }
    ensures near { spec.WithinRows (spec.rows rows.now) (2 ^ 32 + 16)
        → Within (mids x.now) (2 ^ 42) → Within (mids result) (2 ^ 44) }
{
    Vector3 {
        x: round_dot(&rows.a, x),
        y: round_dot(&rows.b, x),
        z: round_dot(&rows.c, x),
    }
}

/// `x` rotated by `q`: the matrix, as it was rounded, times `x`, each number rounded once.
pub fn rotate(q: &Q4, x: &V3<Plain, 32>) -> V3<Plain, 32>
    requires q { WithinQuaternion (quaternion q.now) (2 ^ 32) }
    requires x { Within (mids x.now) (2 ^ 46) }
    ensures value { mids result ≡ spec.rotate (quaternion q.now) (mids x.now) }
    ensures size { (limit : ℕ) → Within (mids x.now) limit → Within (mids result) (24 * limit) }
    ensures sharp { (limit : ℕ) → spec.IsUnit (quaternion q.now)
        → Within (mids x.now) limit → Within (mids result) (4 * limit) }
    ensures near { spec.IsUnit (quaternion q.now)
        → Within (mids x.now) (2 ^ 42) → Within (mids result) (2 ^ 44) }
{
    rotate_by(&matrix(q), x)
}
