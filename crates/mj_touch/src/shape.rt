// Geoms in their places.
ghost use Rattle.std.specs.Prelude.{◌≡◌, ℕ, ◌+◌, ◌*◌, ◌^◌, ◌≤◌, pos, ◌+ℤ◌, ◌-ℤ◌, ◌*ℤ◌, unsigned_abs};
ghost use Rattle.fx_vec.specs.Quaternions.{quaternion, WithinQuaternion};
ghost use Rattle.fx_vec.specs.Views.{mids};
ghost use Rattle.mj_quat.specs.Rotation.{round, IsUnit};
ghost use Rattle.mj_types.specs.Lawful as lawful;
ghost use Rattle.mj_touch.specs.Solids as spec;

use fx_num::{Fix, Plain};
use fx_vec::{Q4, V3, Vector3};
use fx_whole::{difference, narrow, nearest_shift, product, sum};
use mj_types::GeomKind;

/// A geom in its place: its centre and its orientation in the world, at scale 32, and of what is round
/// the radius and half the length of its axis. Its axis is its own z axis: a plane's normal, and the
/// line along a capsule.
#[derive(Clone, Copy, Debug, PartialEq, Eq)]
pub struct Shape {
    pub kind: GeomKind,
    pub center: V3<Plain, 32>,
    pub turn: Q4,
    pub radius: Fix<32>,
    pub half: Fix<32>,
}

/// Whether a kind is the plane.
pub fn is_plane(kind: GeomKind) -> bool
    ensures { result ≡ lawful.is_plane kind }
{
    match kind {
        GeomKind::Plane => true,
        GeomKind::Sphere => false,
        GeomKind::Capsule => false,
    }
}

/// `a b` of numbers below 2.
fn small_product(a: &Fix<32>, b: &Fix<32>) -> i128
    requires a { unsigned_abs a.now.mid ≤ 2 ^ 33 }
    requires b { unsigned_abs b.now.mid ≤ 2 ^ 33 }
    ensures value { result ≡ a.now.mid *ℤ b.now.mid }
    ensures size { unsigned_abs result ≤ 2 ^ 66 }
{
    product(a.mid, b.mid)
}

/// `n` at scale 64, rounded to scale 32.
fn rounded(n: &i128) -> Fix<32>
    requires { unsigned_abs n.now ≤ 2 ^ 70 }
    ensures { result.mid ≡ round n.now }
{
    Fix::from_raw(narrow(nearest_shift(*n, 32)))
}

/// `2 n`, rounded.
fn twice(n: &i128) -> Fix<32>
    requires { unsigned_abs n.now ≤ 2 ^ 67 }
    ensures { result.mid ≡ round (pos 2 *ℤ n.now) }
{
    rounded(&sum(*n, *n))
}

/// `1 - 2 n`, rounded.
fn one_less_twice(n: &i128) -> Fix<32>
    requires { unsigned_abs n.now ≤ 2 ^ 67 }
    ensures { result.mid ≡ round (pos (2 ^ 64) -ℤ pos 2 *ℤ n.now) }
{
    rounded(&difference(1 << 64, sum(*n, *n)))
}

/// `a b + c d`.
fn pair_sum(a: &Fix<32>, b: &Fix<32>, c: &Fix<32>, d: &Fix<32>) -> i128
    requires a { unsigned_abs a.now.mid ≤ 2 ^ 33 }
    requires b { unsigned_abs b.now.mid ≤ 2 ^ 33 }
    requires c { unsigned_abs c.now.mid ≤ 2 ^ 33 }
    requires d { unsigned_abs d.now.mid ≤ 2 ^ 33 }
    ensures value { result ≡ a.now.mid *ℤ b.now.mid +ℤ c.now.mid *ℤ d.now.mid }
    ensures size { unsigned_abs result ≤ 2 ^ 67 }
{
    sum(small_product(a, b), small_product(c, d))
}

/// `a b - c d`.
fn pair_difference(a: &Fix<32>, b: &Fix<32>, c: &Fix<32>, d: &Fix<32>) -> i128
    requires a { unsigned_abs a.now.mid ≤ 2 ^ 33 }
    requires b { unsigned_abs b.now.mid ≤ 2 ^ 33 }
    requires c { unsigned_abs c.now.mid ≤ 2 ^ 33 }
    requires d { unsigned_abs d.now.mid ≤ 2 ^ 33 }
    ensures value { result ≡ a.now.mid *ℤ b.now.mid -ℤ c.now.mid *ℤ d.now.mid }
    ensures size { unsigned_abs result ≤ 2 ^ 67 }
{
    difference(small_product(a, b), small_product(c, d))
}

/// The third column of a rotation's matrix.
#[tactic(auto, unfolding(mj_quat::specs::Rotation::row_x, mj_quat::specs::Rotation::row_y, mj_quat::specs::Rotation::row_z))]
fn third_column(q: &Q4) -> V3<Plain, 32>
    requires { WithinQuaternion (quaternion q.now) (2 ^ 33) }
    ensures { mids result ≡ spec.axis (quaternion q.now) }
{
    Vector3 {
        x: twice(&pair_sum(&q.x, &q.z, &q.w, &q.y)),
        y: twice(&pair_difference(&q.y, &q.z, &q.w, &q.x)),
        z: one_less_twice(&pair_sum(&q.x, &q.x, &q.y, &q.y)),
    }
}

/// The own z axis of what is turned by a unit, each number rounded once.
pub(crate) fn axis(turn: &Q4) -> V3<Plain, 32>
    requires { IsUnit (quaternion turn.now) }
    ensures value { mids result ≡ spec.axis (quaternion turn.now) }
    ensures size { spec.IsDirection (mids result) }
{
    third_column(turn)
}
