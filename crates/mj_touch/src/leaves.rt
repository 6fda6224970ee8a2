// Leaf arithmetic of numbers and vectors at scale 32, each with a fixed size.
ghost use Rattle.std.specs.Prelude.{◌≡◌, ◌+◌, ◌^◌, ◌≤◌, pos, ◌+ℤ◌, ◌-ℤ◌, neg_ℤ, ◌≤ℤ◌, unsigned_abs};
ghost use Rattle.fx_vec.specs.Settling.{moved, along};
ghost use Rattle.fx_vec.specs.Sizes.{Within};
ghost use Rattle.fx_vec.specs.Vectors as vectors;
ghost use Rattle.fx_vec.specs.Views.{mids};
ghost use Rattle.mj_quat.specs.Rotation as rotation;
ghost use Rattle.mj_touch.specs.Meetings.{half_of};
ghost use Rattle.mj_touch.specs.Solids.{IsDirection};

use fx_num::{Fix, Plain};
use fx_vec::{V3, minus, move_along, project};
use fx_whole::{narrow, nearest_shift};
use mj_quat::vector_length;

/// `a + b`.
pub(crate) fn sum(a: &Fix<32>, b: &Fix<32>) -> Fix<32>
    requires a { unsigned_abs a.now.mid ≤ 2 ^ 60 }
    requires b { unsigned_abs b.now.mid ≤ 2 ^ 60 }
    ensures value { result.mid ≡ a.now.mid +ℤ b.now.mid }
    ensures size { unsigned_abs result.mid ≤ unsigned_abs a.now.mid + unsigned_abs b.now.mid }
{
    Fix::from_raw(a.mid + b.mid)
}

/// `a - b`.
pub(crate) fn difference(a: &Fix<32>, b: &Fix<32>) -> Fix<32>
    requires a { unsigned_abs a.now.mid ≤ 2 ^ 60 }
    requires b { unsigned_abs b.now.mid ≤ 2 ^ 60 }
    ensures value { result.mid ≡ a.now.mid -ℤ b.now.mid }
    ensures size { unsigned_abs result.mid ≤ unsigned_abs a.now.mid + unsigned_abs b.now.mid }
{
    Fix::from_raw(a.mid - b.mid)
}

/// `-n`.
pub(crate) fn negative(n: &Fix<32>) -> Fix<32>
    requires { unsigned_abs n.now.mid ≤ 2 ^ 60 }
    ensures value { result.mid ≡ neg_ℤ n.now.mid }
    ensures size { unsigned_abs result.mid ≡ unsigned_abs n.now.mid }
{
    Fix::from_raw(-n.mid)
}

/// Half of `n`, rounded.
pub(crate) fn half(n: &Fix<32>) -> Fix<32>
    requires { unsigned_abs n.now.mid ≤ 2 ^ 60 }
    ensures value { result.mid ≡ half_of n.now.mid }
    ensures size { unsigned_abs result.mid ≤ unsigned_abs n.now.mid }
{
    Fix::from_raw(narrow(nearest_shift(i128::from(n.mid), 1)))
}

/// The way from `a` to `b`.
pub(crate) fn offset(a: &V3<Plain, 32>, b: &V3<Plain, 32>) -> V3<Plain, 32>
    requires a { Within (mids a.now) (2 ^ 47) }
    requires b { Within (mids b.now) (2 ^ 47) }
    ensures value { mids result ≡ vectors.minus (mids b.now) (mids a.now) }
    ensures size { Within (mids result) (2 ^ 48) }
{
    minus(b, a)
}

/// A way's length, rounded down.
pub(crate) fn length(d: &V3<Plain, 32>) -> Fix<32>
    requires { Within (mids d.now) (2 ^ 48) }
    ensures value { result.mid ≡ rotation.vector_length (mids d.now) }
    ensures not_negative { pos 0 ≤ℤ result.mid }
    ensures covers { Within (mids d.now) (unsigned_abs result.mid) }
    ensures size { unsigned_abs result.mid ≤ 2 ^ 49 }
{
    vector_length(d)
}

/// How far `d` goes along a direction.
pub(crate) fn component(a: &V3<Plain, 32>, d: &V3<Plain, 32>) -> Fix<32>
    requires a { IsDirection (mids a.now) }
    requires d { Within (mids d.now) (2 ^ 48) }
    ensures value { result.mid ≡ along (mids a.now) (mids d.now) }
    ensures size { unsigned_abs result.mid ≤ 2 ^ 51 }
{
    project(a, d)
}

/// The point of an axis at a place, from its centre.
pub(crate) fn on_axis(c: &V3<Plain, 32>, a: &V3<Plain, 32>, k: &Fix<32>) -> V3<Plain, 32>
    requires c { Within (mids c.now) (2 ^ 46) }
    requires a { IsDirection (mids a.now) }
    requires k { unsigned_abs k.now.mid ≤ 2 ^ 42 }
    ensures value { mids result ≡ moved (mids c.now) (mids a.now) k.now.mid }
    ensures size { Within (mids result) (2 ^ 47) }
{
    move_along(c, a, k)
}

/// The point at a distance along a normal.
pub(crate) fn along_normal(c: &V3<Plain, 32>, n: &V3<Plain, 32>, k: &Fix<32>) -> V3<Plain, 32>
    requires c { Within (mids c.now) (2 ^ 47) }
    requires n { IsDirection (mids n.now) }
    requires k { unsigned_abs k.now.mid ≤ 2 ^ 53 }
    ensures value { mids result ≡ moved (mids c.now) (mids n.now) k.now.mid }
    ensures size { Within (mids result) (2 ^ 55) }
{
    move_along(c, n, k)
}
