// Vectors, quaternions and axes.
ghost use Rattle.std.specs.Prelude.{◌≡◌, ℕ, ◌^◌, ◌≤◌, pos, ◌≤ℤ◌, IfOk};
ghost use Rattle.fx_vec.specs.Views.{mids};
ghost use Rattle.fx_vec.specs.Quaternions.{quaternion, WithinQuaternion};
ghost use Rattle.fx_vec.specs.Sizes.{Within};
ghost use Rattle.mj_judge.specs.Vectors as spec;

use crate::numbers::{entry, is_between, is_small};
use fx_list::Array;
use fx_num::{Fix, Plain};
use fx_vec::{Q4, V3, Vector3};
use mj_quat::{renorm, unit};
use mj_types::ModelCode;

/// The first three numbers of a list.
fn three<const F: u32>(xs: &Array<Fix<F>>) -> V3<Plain, F>
    ensures { result ≡ spec.three xs.now }
{
    Vector3 {
        x: entry(xs, 0),
        y: entry(xs, 1),
        z: entry(xs, 2),
    }
}

/// The first four numbers of a list.
fn four(xs: &Array<Fix<32>>) -> Q4
    ensures { result ≡ spec.four_at xs.now 0 1 2 3 }
{
    Q4 {
        w: entry(xs, 0),
        x: entry(xs, 1),
        y: entry(xs, 2),
        z: entry(xs, 3),
    }
}

/// Whether each number of a vector has at most this size.
fn are_small<const F: u32>(v: &V3<Plain, F>, limit: u64) -> bool
    ensures { result ≡ spec.are_small limit v.now }
{
    is_small(limit, &v.x.mid) && (is_small(limit, &v.y.mid) && is_small(limit, &v.z.mid))
}

/// Whether each number of a vector is from the least to the most.
fn are_between<const F: u32>(v: &V3<Plain, F>, least: &i64, most: &i64) -> bool
    ensures { result ≡ spec.are_between least.now most.now v.now }
{
    is_between(least, most, &v.x.mid)
        && (is_between(least, most, &v.y.mid) && is_between(least, most, &v.z.mid))
}

/// Whether each number of a quaternion has at most this size.
pub fn is_small_quaternion(q: &Q4, limit: u64) -> bool
    ensures { result ≡ spec.is_small_quaternion limit q.now }
{
    is_small(limit, &q.w.mid)
        && (is_small(limit, &q.x.mid) && (is_small(limit, &q.y.mid) && is_small(limit, &q.z.mid)))
}

/// The vector of a list's numbers, if each has at most this size, else `LimitPassed`.
#[tactic(auto, unfolding(crate::specs::Vectors::vector))]
pub fn vector(xs: &Array<Fix<32>>, limit: u64) -> Result<V3<Plain, 32>, ModelCode>
    ensures { result ≡ spec.vector limit xs.now }
{
    let v = three(xs);
    if are_small(&v, limit) {
        Ok(v)
    } else {
        Err(ModelCode::LimitPassed)
    }
}

/// The three numbers of a diagonal inertia, if each is from 0 to 8192, else `LimitPassed`.
#[tactic(auto, unfolding(crate::specs::Vectors::diagonal))]
pub fn diagonal(xs: &Array<Fix<40>>) -> Result<V3<Plain, 40>, ModelCode>
    ensures { result ≡ spec.diagonal xs.now }
{
    let v = three(xs);
    if are_between(&v, &0, &(1 << 53)) {
        Ok(v)
    } else {
        Err(ModelCode::LimitPassed)
    }
}

/// The unit in a quaternion's direction, or `NotUnit` where its length is below 2^-10.
#[tactic(auto, unfolding(crate::specs::Vectors::turned))]
pub fn turned(q: &Q4) -> Result<Q4, ModelCode>
    requires { WithinQuaternion (quaternion q.now) (2 ^ 42) }
    ensures { result ≡ spec.turned q.now }
{
    match renorm(q, 1 << 22, 1 << 43) {
        Ok(r) => Ok(r),
        Err(_) => Err(ModelCode::NotUnit),
    }
}

/// The unit in the direction of a list's four numbers. `LimitPassed` where one is above 1024 in size,
/// else `NotUnit` where its length is below 2^-10.
#[tactic(auto, unfolding(crate::specs::Vectors::rotation))]
pub fn rotation(xs: &Array<Fix<32>>) -> Result<Q4, ModelCode>
    ensures { result ≡ spec.rotation xs.now }
{
    let q = four(xs);
    if is_small_quaternion(&q, 1 << 42) {
        turned(&q)
    } else {
        Err(ModelCode::LimitPassed)
    }
}

/// The unit in a vector's direction, or `NotUnit` where its length is below 2^-10.
#[tactic(auto, unfolding(crate::specs::Vectors::direction))]
fn direction(v: &V3<Plain, 32>) -> Result<V3<Plain, 32>, ModelCode>
    requires { Within (mids v.now) (2 ^ 42) }
    ensures { result ≡ spec.direction v.now }
{
    match unit(v, 1 << 22) {
        Ok(r) => Ok(r),
        Err(_) => Err(ModelCode::NotUnit),
    }
}

/// The unit in the direction of a list's three numbers. `LimitPassed` where one is above 1024 in size,
/// else `NotUnit` where its length is below 2^-10.
#[tactic(auto, unfolding(crate::specs::Vectors::axis, crate::specs::Vectors::vector))]
pub fn axis(xs: &Array<Fix<32>>) -> Result<V3<Plain, 32>, ModelCode>
    ensures { result ≡ spec.axis xs.now }
{
    let v = three(xs);
    if are_small(&v, 1 << 42) {
        direction(&v)
    } else {
        Err(ModelCode::LimitPassed)
    }
}
