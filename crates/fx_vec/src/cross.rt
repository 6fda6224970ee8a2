// Vector products.
ghost use Rattle.std.specs.Prelude.{◌≡◌, ◌+◌, ◌*◌, ◌^◌, ◌<◌, ◌≤◌, ◌+ℤ◌, ◌-ℤ◌, ◌*ℤ◌, unsigned_abs};
ghost use Rattle.fx_num.specs.Radii.{product_width};
ghost use Rattle.fx_vec.specs.Vectors.{cross, plus};
ghost use Rattle.fx_vec.specs.Sizes.{cross_size, plus_size};
ghost use Rattle.fx_vec.specs.Widths.{cross_width};
ghost use Rattle.fx_vec.specs.Views.{mids, radii, sums, widths};
ghost use Rattle.fx_vec.specs.Room.{Fits, Narrow, Grown};

use crate::leaf::{add_product, take_product};
use crate::vector::{Sum3, V3};
use fx_num::{Carry, Num, Sum};

/// Adds `a d - b c` to `out`: one coordinate of a vector product.
fn minor_into<K: Carry, const A: u32, const B: u32, const P: u32>(
    a: &Num<K, A>,
    d: &Num<K, B>,
    b: &Num<K, A>,
    c: &Num<K, B>,
    out: &mut Sum<K, P>,
)
    requires scale { P ≡ A + B }
    requires fits { unsigned_abs out.old.mid
        + (unsigned_abs a.now.mid * unsigned_abs d.now.mid
        + unsigned_abs b.now.mid * unsigned_abs c.now.mid) < 2 ^ 127 }
    requires narrow { K.wide_width out.old.rad
        + (product_width a.now.mid (K.width a.now.rad) d.now.mid (K.width d.now.rad)
        + product_width b.now.mid (K.width b.now.rad) c.now.mid (K.width c.now.rad)) < 2 ^ 128 }
    ensures mid { out.new.mid
        ≡ out.old.mid +ℤ (a.now.mid *ℤ d.now.mid -ℤ b.now.mid *ℤ c.now.mid) }
    ensures size { unsigned_abs out.new.mid ≤ unsigned_abs out.old.mid
        + (unsigned_abs a.now.mid * unsigned_abs d.now.mid
        + unsigned_abs b.now.mid * unsigned_abs c.now.mid) }
    ensures width { K.wide_width out.new.rad ≡ K.wide_width out.old.rad
        + (product_width a.now.mid (K.width a.now.rad) d.now.mid (K.width d.now.rad)
        + product_width b.now.mid (K.width b.now.rad) c.now.mid (K.width c.now.rad)) }
{
    add_product::<K, A, B, P>(a, d, out);
    take_product::<K, A, B, P>(b, c, out);
}

/// Adds `a x b` to `out`, whose scale `P` is `A + B`.
pub fn cross_into<K: Carry, const A: u32, const B: u32, const P: u32>(
    a: &V3<K, A>,
    b: &V3<K, B>,
    out: &mut Sum3<K, P>,
)
    requires scale { P ≡ A + B }
    requires fits { Fits (sums out.old) (cross_size (mids a.now) (mids b.now)) }
    requires narrow { Narrow (widths K.wide_width out.old)
        (cross_width (mids a.now) (radii K.width a.now) (mids b.now) (radii K.width b.now)) }
    ensures mid { sums out.new ≡ plus (sums out.old) (cross (mids a.now) (mids b.now)) }
    ensures size { Grown (sums out.old) (cross_size (mids a.now) (mids b.now)) (sums out.new) }
    ensures width { widths K.wide_width out.new ≡ plus_size (widths K.wide_width out.old)
        (cross_width (mids a.now) (radii K.width a.now) (mids b.now) (radii K.width b.now)) }
{
    minor_into::<K, A, B, P>(&a.y, &b.z, &a.z, &b.y, &mut out.x);
    minor_into::<K, A, B, P>(&a.z, &b.x, &a.x, &b.z, &mut out.y);
    minor_into::<K, A, B, P>(&a.x, &b.y, &a.y, &b.x, &mut out.z);
}
