// The tangents of a contact.
ghost use Rattle.std.specs.Prelude.{◌≡◌, ◌+◌, ◌*◌, ◌^◌, ◌≤◌, pos, unsigned_abs};
ghost use Rattle.fx_num.specs.Settled.{settled_mid};
ghost use Rattle.fx_vec.specs.Sizes.{Within};
ghost use Rattle.fx_vec.specs.Vectors.{cross};
ghost use Rattle.fx_vec.specs.Views.{mids, sums};
ghost use Rattle.mj_quat.specs.Rotation as rotation;
ghost use Rattle.mj_touch.specs.Solids.{IsDirection};
ghost use Rattle.mj_touch.specs.Tangents as spec;

use fx_num::{Fix, Plain, none};
use fx_vec::{Sum3, Total3, V3, Vector3, cross_into};
use fx_whole::{narrow, nearest_shift};
use mj_quat::{vector_length, vector_over};

/// The two tangents of a contact, at scale 32.
#[derive(Clone, Copy, Debug, PartialEq, Eq)]
pub struct TangentPair {
    pub t1: V3<Plain, 32>,
    pub t2: V3<Plain, 32>,
}

/// The vector of these numbers.
pub(crate) fn vector(x: i64, y: i64, z: i64) -> V3<Plain, 32>
    ensures { mids result ≡ record { x = x; y = y; z = z } }
{
    Vector3 {
        x: Fix::from_raw(x),
        y: Fix::from_raw(y),
        z: Fix::from_raw(z),
    }
}

/// Whether the first number of a vector is the least in size.
fn is_x_least(n: &V3<Plain, 32>) -> bool
    ensures { result ≡ spec.is_x_least (mids n.now) }
{
    n.x.mid.unsigned_abs() <= n.y.mid.unsigned_abs()
        && n.x.mid.unsigned_abs() <= n.z.mid.unsigned_abs()
}

/// Whether the second number of a vector is no larger than the third.
fn is_y_less(n: &V3<Plain, 32>) -> bool
    ensures { result ≡ spec.is_y_less (mids n.now) }
{
    n.y.mid.unsigned_abs() <= n.z.mid.unsigned_abs()
}

/// The unit vector of the number that is least in size, the first on a tie.
fn least_unit(n: &V3<Plain, 32>) -> V3<Plain, 32>
    ensures value { mids result ≡ spec.least_unit (mids n.now) }
    ensures size { IsDirection (mids result) }
{
    if is_x_least(n) {
        vector(1 << 32, 0, 0)
    } else if is_y_less(n) {
        vector(0, 1 << 32, 0)
    } else {
        vector(0, 0, 1 << 32)
    }
}

/// Three empty sums.
fn no_sums() -> Sum3<Plain, 64>
    ensures { sums result ≡ record { x = pos 0; y = pos 0; z = pos 0 } }
{
    Total3 {
        x: none::<Plain, 64>(),
        y: none::<Plain, 64>(),
        z: none::<Plain, 64>(),
    }
}

/// `n` at scale 64, rounded to scale 32.
fn rounded(n: &i128) -> Fix<32>
    requires { unsigned_abs n.now ≤ 2 ^ 66 }
    ensures value { result.mid ≡ settled_mid n.now 32 }
    ensures size { unsigned_abs result.mid ≤ 2 ^ 34 }
{
    Fix::from_raw(narrow(nearest_shift(*n, 32)))
}

/// `a x b`, exactly.
fn crossed_exactly(a: &V3<Plain, 32>, b: &V3<Plain, 32>) -> Sum3<Plain, 64>
    requires a { IsDirection (mids a.now) }
    requires b { IsDirection (mids b.now) }
    ensures value { sums result ≡ cross (mids a.now) (mids b.now) }
    ensures size { Within (sums result) (2 ^ 66) }
{
    let mut total = no_sums();
    cross_into::<Plain, 32, 32, 64>(a, b, &mut total);
    total
}

/// `a x b`, each number rounded once.
fn crossed(a: &V3<Plain, 32>, b: &V3<Plain, 32>) -> V3<Plain, 32>
    requires a { IsDirection (mids a.now) }
    requires b { IsDirection (mids b.now) }
    ensures value { mids result ≡ spec.crossed (mids a.now) (mids b.now) }
    ensures size { Within (mids result) (2 ^ 34) }
{
    let total = crossed_exactly(a, b);
    Vector3 {
        x: rounded(&total.x.mid),
        y: rounded(&total.y.mid),
        z: rounded(&total.z.mid),
    }
}

/// `v` over its length, and nothing where it has none.
fn unit(v: &V3<Plain, 32>) -> V3<Plain, 32>
    requires { Within (mids v.now) (2 ^ 34) }
    ensures value { mids result ≡ rotation.unit_vector (mids v.now) }
    ensures size { IsDirection (mids result) }
{
    let length = vector_length(v);
    if 0 < length.mid {
        vector_over(v, &length)
    } else {
        vector(0, 0, 0)
    }
}

/// The first tangent: it is at right angles to the normal and to the axis that is least along it.
#[tactic(auto, unfolding(crate::specs::Tangents::first_tangent))]
fn first_tangent(n: &V3<Plain, 32>) -> V3<Plain, 32>
    requires { IsDirection (mids n.now) }
    ensures value { mids result ≡ spec.first_tangent (mids n.now) }
    ensures size { IsDirection (mids result) }
{
    unit(&crossed(n, &least_unit(n)))
}

/// The second tangent, from the first.
#[tactic(auto, unfolding(crate::specs::Tangents::second_tangent))]
fn second_tangent(n: &V3<Plain, 32>, first: &V3<Plain, 32>) -> V3<Plain, 32>
    requires n { IsDirection (mids n.now) }
    requires first { IsDirection (mids first.now) }
    requires value { mids first.now ≡ spec.first_tangent (mids n.now) }
    ensures value { mids result ≡ spec.second_tangent (mids n.now) }
    ensures size { Within (mids result) (2 ^ 34) }
{
    crossed(n, first)
}

/// The tangents of a contact, by its normal `n`: with e the unit vector of the number of n that is
/// least in size, the first on a tie, `t1` is `n x e` over its length, and `t2` is `n x t1`. Each
/// number is at scale 32 and rounded once. A rule of this project's own.
pub fn tangents(n: &V3<Plain, 32>) -> TangentPair
    requires { IsDirection (mids n.now) }
    ensures t1 { mids result.t1 ≡ spec.first_tangent (mids n.now) }
    ensures t2 { mids result.t2 ≡ spec.second_tangent (mids n.now) }
    ensures first { IsDirection (mids result.t1) }
    ensures second { Within (mids result.t2) (2 ^ 34) }
{
    let t1 = first_tangent(n);
    let t2 = second_tangent(n, &t1);
    TangentPair { t1, t2 }
}
