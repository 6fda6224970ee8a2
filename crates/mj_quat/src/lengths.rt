// Lengths of quaternions and of vectors, and units made of them.
ghost use Rattle.std.specs.Prelude.{◌≡◌, ℕ, ◌+◌, ◌*◌, ◌^◌, ◌<◌, ◌≤◌, pos, ◌+ℤ◌, ◌*ℤ◌, ◌<ℤ◌, ◌≤ℤ◌, unsigned_abs, IfOk};
ghost use Rattle.fx_whole.specs.First.{refusal_of};
ghost use Rattle.fx_whole.specs.Roots as roots;
ghost use Rattle.fx_vec.specs.Quaternions.{quaternion, WithinQuaternion};
ghost use Rattle.fx_vec.specs.Vectors.{dot};
ghost use Rattle.fx_vec.specs.Sizes.{Within};
ghost use Rattle.fx_vec.specs.Views.{mids};
ghost use Rattle.mj_quat.specs.Rotation as spec;

use fx_num::{Fix, Over, Plain, none, ratio_near_one};
use fx_vec::{Q4, V3, Vector3, dot_into};
use fx_whole::{guess_near_one, isqrt_from, narrow, product, sum};

/// `n^2`.
fn square(n: &Fix<32>) -> i128
    requires { unsigned_abs n.now.mid ≤ 2 ^ 44 }
    ensures value { result ≡ n.now.mid *ℤ n.now.mid }
    ensures size { unsigned_abs result ≤ 2 ^ 88 }
{
    product(n.mid, n.mid)
}

/// The sum of a quaternion's squares.
fn square_sum(q: &Q4) -> i128
    requires { WithinQuaternion (quaternion q.now) (2 ^ 44) }
    ensures value { result ≡ spec.square_sum (quaternion q.now) }
    ensures not_negative { pos 0 ≤ℤ result }
    ensures size { unsigned_abs result ≤ 2 ^ 90 }
{
    sum(
        sum(sum(square(&q.w), square(&q.x)), square(&q.y)),
        square(&q.z),
    )
}

/// The root of a sum of squares.
fn root(n: &i128) -> Fix<32>
    requires not_negative { pos 0 ≤ℤ n.now }
    requires size { unsigned_abs n.now < 2 ^ 124 }
    ensures { result.mid ≡ roots.isqrt n.now }
{
    Fix::from_raw(narrow(isqrt_from(n, guess_near_one(n))))
}

/// A quaternion's length, rounded down. None of its numbers is larger.
#[tactic(auto, unfolding(crate::specs::Rotation::quaternion_length))]
fn quaternion_length(q: &Q4) -> Fix<32>
    requires { WithinQuaternion (quaternion q.now) (2 ^ 44) }
    ensures value { result.mid ≡ spec.quaternion_length (quaternion q.now) }
    ensures covers { WithinQuaternion (quaternion q.now) (unsigned_abs result.mid) }
{
    root(&square_sum(q))
}

/// The sum of a vector's squares.
fn vector_square(v: &V3<Plain, 32>) -> i128
    requires { Within (mids v.now) (2 ^ 60) }
    ensures value { result ≡ dot (mids v.now) (mids v.now) }
    ensures not_negative { pos 0 ≤ℤ result }
    ensures size { unsigned_abs result ≤ 3 * 2 ^ 120 }
{
    let mut total = none::<Plain, 64>();
    dot_into::<Plain, 32, 32, 64>(v, v, &mut total);
    total.mid
}

/// A vector's length, rounded down. None of its numbers is larger, and it is at most twice the
/// largest.
#[tactic(auto, unfolding(crate::specs::Rotation::vector_length))]
pub fn vector_length(v: &V3<Plain, 32>) -> Fix<32>
    requires { Within (mids v.now) (2 ^ 60) }
    ensures value { result.mid ≡ spec.vector_length (mids v.now) }
    ensures not_negative { pos 0 ≤ℤ result.mid }
    ensures covers { Within (mids v.now) (unsigned_abs result.mid) }
    ensures bound { (limit : ℕ) → Within (mids v.now) limit
        → unsigned_abs result.mid ≤ 2 * limit }
    ensures near { Within (mids v.now) (2 ^ 47) → unsigned_abs result.mid ≤ 2 ^ 48 }
{
    root(&vector_square(v))
}

/// A quaternion over a length that none of its numbers passes, each number rounded once.
fn quaternion_over(q: &Q4, length: &Fix<32>) -> Q4
    requires positive { pos 0 <ℤ length.now.mid }
    requires covers { WithinQuaternion (quaternion q.now) (unsigned_abs length.now.mid) }
    ensures value { quaternion result ≡ spec.quaternion_over (quaternion q.now) length.now.mid }
    ensures size { WithinQuaternion (quaternion result) (2 ^ 32) }
{
    Q4 {
        w: ratio_near_one(&q.w, length),
        x: ratio_near_one(&q.x, length),
        y: ratio_near_one(&q.y, length),
        z: ratio_near_one(&q.z, length),
    }
}

/// A vector over a length that none of its numbers passes, each number rounded once.
pub fn vector_over(v: &V3<Plain, 32>, length: &Fix<32>) -> V3<Plain, 32>
    requires positive { pos 0 <ℤ length.now.mid }
    requires covers { Within (mids v.now) (unsigned_abs length.now.mid) }
    ensures value { mids result ≡ spec.vector_over (mids v.now) length.now.mid }
    ensures size { Within (mids result) (2 ^ 32) }
{
    Vector3 {
        x: ratio_near_one(&v.x, length),
        y: ratio_near_one(&v.y, length),
        z: ratio_near_one(&v.z, length),
    }
}

/// Whether a length is within its bounds.
fn is_inside(length: &Fix<32>, least: &i64, most: &i64) -> bool
    ensures { result ≡ spec.is_inside least.now most.now length.now.mid }
{
    *least <= length.mid && length.mid <= *most
}

/// `q` over its length, each number rounded once and at most 1. `Over::Value` exactly where its
/// length (rounded down) is below `least` or above `most`. From a length of 1/2 on the answer is a
/// unit.
pub fn renorm(q: &Q4, least: i64, most: i64) -> Result<Q4, Over>
    requires size { WithinQuaternion (quaternion q.now) (2 ^ 44) }
    requires least { pos 1 ≤ℤ least }
    requires most { least ≤ℤ most }
    ensures value { IfOk result (λ r. quaternion r ≡ spec.unit_quaternion (quaternion q.now)) }
    ensures size { IfOk result (λ r. WithinQuaternion (quaternion r) (2 ^ 32)) }
    ensures unit { pos (2 ^ 31) ≤ℤ least → IfOk result (λ r. spec.IsUnit (quaternion r)) }
    ensures first { refusal_of result
        ≡ spec.length_out least most (spec.quaternion_length (quaternion q.now)) }
{
    let length = quaternion_length(q);
    if is_inside(&length, &least, &most) {
        Ok(quaternion_over(q, &length))
    } else {
        Err(Over::Value)
    }
}

/// `x` over its length, each number rounded once and at most 1. `Over::Value` exactly where its
/// length (rounded down) is below `least`.
pub fn unit(x: &V3<Plain, 32>, least: i64) -> Result<V3<Plain, 32>, Over>
    requires size { Within (mids x.now) (2 ^ 60) }
    requires least { pos 1 ≤ℤ least }
    ensures value { IfOk result (λ r. mids r ≡ spec.unit_vector (mids x.now)) }
    ensures size { IfOk result (λ r. Within (mids r) (2 ^ 32)) }
    ensures first { refusal_of result
        ≡ spec.length_below least (spec.vector_length (mids x.now)) }
{
    let length = vector_length(x);
    if least <= length.mid {
        Ok(vector_over(x, &length))
    } else {
        Err(Over::Value)
    }
}
