// Sums of plain vectors, and points moved along a direction. Each number is exact, or rounded once.
ghost use Rattle.std.specs.Prelude.{◌≡◌, ℕ, ◌+◌, ◌*◌, ◌^◌, ◌≤◌, ◌+ℤ◌, ◌-ℤ◌, ◌*ℤ◌, pos, unsigned_abs};
ghost use Rattle.fx_vec.specs.Vectors as spec;
ghost use Rattle.fx_vec.specs.Settling as settling;
ghost use Rattle.fx_vec.specs.Sizes.{Within};
ghost use Rattle.fx_vec.specs.Views.{mids};

use crate::dot::dot_into;
use crate::vector::{V3, Vector3};
use fx_num::{Fix, Plain, add, none, round, rounded_product, rounded_sum, subtract};
use fx_whole::{product, scale_up};

/// `a + b`, exactly.
pub fn plus<const F: u32>(a: &V3<Plain, F>, b: &V3<Plain, F>) -> V3<Plain, F>
    requires a { Within (mids a.now) (2 ^ 61) }
    requires b { Within (mids b.now) (2 ^ 61) }
    ensures value { mids result ≡ spec.plus (mids a.now) (mids b.now) }
    ensures size { Within (mids result) (2 ^ 62) }
    ensures near { Within (mids a.now) (2 ^ 46) → Within (mids b.now) (2 ^ 46)
        → Within (mids result) (2 ^ 47) }
    ensures linear { (m n : ℕ) → Within (mids a.now) m → Within (mids b.now) n
        → Within (mids result) (m + n) }
{
    Vector3 {
        x: add(&a.x, &b.x),
        y: add(&a.y, &b.y),
        z: add(&a.z, &b.z),
    }
}

/// `a - b`, exactly.
pub fn minus<const F: u32>(a: &V3<Plain, F>, b: &V3<Plain, F>) -> V3<Plain, F>
    requires a { Within (mids a.now) (2 ^ 61) }
    requires b { Within (mids b.now) (2 ^ 61) }
    ensures value { mids result ≡ spec.minus (mids a.now) (mids b.now) }
    ensures size { Within (mids result) (2 ^ 62) }
    ensures near { Within (mids a.now) (2 ^ 46) → Within (mids b.now) (2 ^ 46)
        → Within (mids result) (2 ^ 47) }
    ensures linear { (m n : ℕ) → Within (mids a.now) m → Within (mids b.now) n
        → Within (mids result) (m + n) }
{
    Vector3 {
        x: subtract(&a.x, &b.x),
        y: subtract(&a.y, &b.y),
        z: subtract(&a.z, &b.z),
    }
}

/// `n k`, exactly, for a direction `n`.
fn directed(n: &Fix<32>, k: &Fix<32>) -> i128
    requires n { unsigned_abs n.now.mid ≤ 2 ^ 34 }
    requires k { unsigned_abs k.now.mid ≤ 2 ^ 59 }
    ensures value { result ≡ n.now.mid *ℤ k.now.mid }
    ensures size { unsigned_abs result ≤ 2 ^ 93 }
{
    product(n.mid, k.mid)
}

/// `c` at scale 64.
fn widen(c: &Fix<32>) -> i128
    requires { unsigned_abs c.now.mid ≤ 2 ^ 61 }
    ensures value { result ≡ c.now.mid *ℤ pos (2 ^ 32) }
    ensures size { unsigned_abs result ≤ 2 ^ 93 }
{
    scale_up(c.mid, 32)
}

/// `c + n k`, rounded once.
fn move_one(c: &Fix<32>, n: &Fix<32>, k: &Fix<32>) -> Fix<32>
    requires c { unsigned_abs c.now.mid ≤ 2 ^ 61 }
    requires n { unsigned_abs n.now.mid ≤ 2 ^ 34 }
    requires k { unsigned_abs k.now.mid ≤ 2 ^ 59 }
    ensures { result.mid ≡ settling.moved_one c.now.mid n.now.mid k.now.mid }
{
    rounded_sum(&widen(c), &directed(n, k))
}

/// `k n`: the direction `n` times a length, each number rounded once.
pub fn stretch(n: &V3<Plain, 32>, k: &Fix<32>) -> V3<Plain, 32>
    requires n { Within (mids n.now) (2 ^ 34) }
    requires k { unsigned_abs k.now.mid ≤ 2 ^ 59 }
    ensures value { mids result ≡ settling.stretched (mids n.now) k.now.mid }
    ensures size { Within (mids result) (2 ^ 61) }
    ensures linear { (h : ℕ) → Within (mids n.now) (2 ^ 33) → unsigned_abs k.now.mid ≤ h
        → Within (mids result) (2 * h) }
{
    Vector3 {
        x: rounded_product(&n.x, k),
        y: rounded_product(&n.y, k),
        z: rounded_product(&n.z, k),
    }
}

/// `c + k n`: the point `c` moved by the length `k` along the direction `n`. Each number is one exact
/// sum, rounded once.
pub fn move_along(c: &V3<Plain, 32>, n: &V3<Plain, 32>, k: &Fix<32>) -> V3<Plain, 32>
    requires c { Within (mids c.now) (2 ^ 61) }
    requires n { Within (mids n.now) (2 ^ 34) }
    requires k { unsigned_abs k.now.mid ≤ 2 ^ 59 }
    ensures value { mids result ≡ settling.moved (mids c.now) (mids n.now) k.now.mid }
    ensures size { Within (mids result) (2 ^ 62) }
    ensures near { Within (mids c.now) (2 ^ 45) → Within (mids n.now) (2 ^ 33)
        → unsigned_abs k.now.mid ≤ 2 ^ 44 → Within (mids result) (2 ^ 46) }
    ensures linear { (m h : ℕ) → Within (mids c.now) m → Within (mids n.now) (2 ^ 33)
        → unsigned_abs k.now.mid ≤ h → Within (mids result) (m + 2 * h) }
{
    Vector3 {
        x: move_one(&c.x, &n.x, k),
        y: move_one(&c.y, &n.y, k),
        z: move_one(&c.z, &n.z, k),
    }
}

/// `a . d`, rounded once: how far `d` goes along the direction `a`.
pub fn project(a: &V3<Plain, 32>, d: &V3<Plain, 32>) -> Fix<32>
    requires a { Within (mids a.now) (2 ^ 34) }
    requires d { Within (mids d.now) (2 ^ 58) }
    ensures value { result.mid ≡ settling.along (mids a.now) (mids d.now) }
    ensures size { unsigned_abs result.mid ≤ 2 ^ 62 }
    ensures near { Within (mids a.now) (2 ^ 33) → Within (mids d.now) (2 ^ 47)
        → unsigned_abs result.mid ≤ 2 ^ 50 }
    ensures linear { (h : ℕ) → Within (mids a.now) (2 ^ 33) → Within (mids d.now) h
        → unsigned_abs result.mid ≤ 6 * h }
{
    let mut total = none::<Plain, 64>();
    dot_into::<Plain, 32, 32, 64>(a, d, &mut total);
    round(&total.mid)
}
