// The product of two quaternions.
ghost use Rattle.std.specs.Prelude.{◌≡◌, ◌^◌, ◌≤◌, unsigned_abs};
ghost use Rattle.fx_vec.specs.Quaternions.{quaternion, WithinQuaternion};
ghost use Rattle.mj_quat.specs.Rotation as spec;

use crate::products::{pair_difference, pair_sum};
use fx_num::{Fix, rounded_difference, rounded_sum};
use fx_vec::Q4;

/// The real part of `a b`.
fn real_part(a: &Q4, b: &Q4) -> Fix<32>
    requires a { WithinQuaternion (quaternion a.now) (2 ^ 32) }
    requires b { WithinQuaternion (quaternion b.now) (2 ^ 32) }
    ensures value { result.mid ≡ (spec.product (quaternion a.now) (quaternion b.now)).w }
    ensures size { unsigned_abs result.mid ≤ 2 ^ 35 }
{
    let first = pair_difference(&a.w, &b.w, &a.x, &b.x);
    let second = pair_sum(&a.y, &b.y, &a.z, &b.z);
    rounded_difference(&first, &second)
}

/// The first imaginary part of `a b`.
fn x_part(a: &Q4, b: &Q4) -> Fix<32>
    requires a { WithinQuaternion (quaternion a.now) (2 ^ 32) }
    requires b { WithinQuaternion (quaternion b.now) (2 ^ 32) }
    ensures value { result.mid ≡ (spec.product (quaternion a.now) (quaternion b.now)).x }
    ensures size { unsigned_abs result.mid ≤ 2 ^ 35 }
{
    let first = pair_sum(&a.w, &b.x, &a.x, &b.w);
    let second = pair_difference(&a.y, &b.z, &a.z, &b.y);
    rounded_sum(&first, &second)
}

/// The second imaginary part of `a b`.
fn y_part(a: &Q4, b: &Q4) -> Fix<32>
    requires a { WithinQuaternion (quaternion a.now) (2 ^ 32) }
    requires b { WithinQuaternion (quaternion b.now) (2 ^ 32) }
    ensures value { result.mid ≡ (spec.product (quaternion a.now) (quaternion b.now)).y }
    ensures size { unsigned_abs result.mid ≤ 2 ^ 35 }
{
    let first = pair_difference(&a.w, &b.y, &a.x, &b.z);
    let second = pair_sum(&a.y, &b.w, &a.z, &b.x);
    rounded_sum(&first, &second)
}

/// The third imaginary part of `a b`.
fn z_part(a: &Q4, b: &Q4) -> Fix<32>
    requires a { WithinQuaternion (quaternion a.now) (2 ^ 32) }
    requires b { WithinQuaternion (quaternion b.now) (2 ^ 32) }
    ensures value { result.mid ≡ (spec.product (quaternion a.now) (quaternion b.now)).z }
    ensures size { unsigned_abs result.mid ≤ 2 ^ 35 }
{
    let first = pair_sum(&a.w, &b.z, &a.x, &b.y);
    let second = pair_difference(&a.z, &b.w, &a.y, &b.x);
    rounded_sum(&first, &second)
}

/// The Hamilton product `a b`, the rotation `b` and then `a`, each number rounded once. It isn't
/// made a unit again.
pub fn compose(a: &Q4, b: &Q4) -> Q4
    requires a { WithinQuaternion (quaternion a.now) (2 ^ 32) }
    requires b { WithinQuaternion (quaternion b.now) (2 ^ 32) }
    ensures value { quaternion result ≡ spec.product (quaternion a.now) (quaternion b.now) }
    ensures size { WithinQuaternion (quaternion result) (2 ^ 35) }
{
    Q4 {
        w: real_part(a, b),
        x: x_part(a, b),
        y: y_part(a, b),
        z: z_part(a, b),
    }
}
