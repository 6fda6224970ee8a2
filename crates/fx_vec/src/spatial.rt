// Products of spatial vectors (R. Featherstone, Rigid Body Dynamics Algorithms, 2008, chapter 2).
ghost use Rattle.std.specs.Prelude.{◌≡◌, ◌+◌, ◌^◌, ◌<◌, ◌≤◌, ◌+ℤ◌, unsigned_abs};
ghost use Rattle.fx_vec.specs.Vectors.{plus, times};
ghost use Rattle.fx_vec.specs.Spatial as spec;
ghost use Rattle.fx_vec.specs.Sizes.{sizes_of, sizes6_of, times_size, times6_size, motion_cross_size, force_cross_size, plus_size, plus6_size};
ghost use Rattle.fx_vec.specs.Widths.{times_width, times6_width, motion_cross_width, force_cross_width};
ghost use Rattle.fx_vec.specs.Views.{mids, radii, sums, widths, spatial, spatial_radii, spatial_sums, spatial_widths};
ghost use Rattle.fx_vec.specs.Room.{Fits, Narrow, Grown, Fits6, Narrow6, Grown6};

use crate::cross::cross_into;
use crate::leaf::add_product;
use crate::vector::{Sp6, Sum3, Sum6, V3};
use fx_num::{Carry, Num, Sum};
use fx_whole::sum;

/// Adds `v x s`, the rate of a motion `s` that moves with `v`, to `out`, whose scale `P` is `A + B`:
/// `(v.ang x s.ang ; v.lin x s.ang + v.ang x s.lin)`.
pub fn motion_cross_into<K: Carry, const A: u32, const B: u32, const P: u32>(
    v: &Sp6<K, A>,
    s: &Sp6<K, B>,
    out: &mut Sum6<K, P>,
)
    requires scale { P ≡ A + B }
    requires fits { Fits6 (spatial_sums out.old)
        (motion_cross_size (spatial v.now) (spatial s.now)) }
    requires narrow { Narrow6 (spatial_widths K.wide_width out.old)
        (motion_cross_width (spatial v.now) (spatial_radii K.width v.now)
        (spatial s.now) (spatial_radii K.width s.now)) }
    ensures mid { spatial_sums out.new
        ≡ spec.plus6 (spatial_sums out.old) (spec.motion_cross (spatial v.now) (spatial s.now)) }
    ensures size { Grown6 (spatial_sums out.old)
        (motion_cross_size (spatial v.now) (spatial s.now)) (spatial_sums out.new) }
    ensures width { spatial_widths K.wide_width out.new
        ≡ plus6_size (spatial_widths K.wide_width out.old)
        (motion_cross_width (spatial v.now) (spatial_radii K.width v.now)
        (spatial s.now) (spatial_radii K.width s.now)) }
{
    cross_into::<K, A, B, P>(&v.ang, &s.ang, &mut out.ang);
    cross_into::<K, A, B, P>(&v.lin, &s.ang, &mut out.lin);
    cross_into::<K, A, B, P>(&v.ang, &s.lin, &mut out.lin);
}

/// Adds `v x* f`, the rate of a force `f` that moves with `v`, to `out`, whose scale `P` is `A + B`:
/// `(v.ang x f.ang + v.lin x f.lin ; v.ang x f.lin)`.
pub fn force_cross_into<K: Carry, const A: u32, const B: u32, const P: u32>(
    v: &Sp6<K, A>,
    f: &Sp6<K, B>,
    out: &mut Sum6<K, P>,
)
    requires scale { P ≡ A + B }
    requires fits { Fits6 (spatial_sums out.old)
        (force_cross_size (spatial v.now) (spatial f.now)) }
    requires narrow { Narrow6 (spatial_widths K.wide_width out.old)
        (force_cross_width (spatial v.now) (spatial_radii K.width v.now)
        (spatial f.now) (spatial_radii K.width f.now)) }
    ensures mid { spatial_sums out.new
        ≡ spec.plus6 (spatial_sums out.old) (spec.force_cross (spatial v.now) (spatial f.now)) }
    ensures size { Grown6 (spatial_sums out.old)
        (force_cross_size (spatial v.now) (spatial f.now)) (spatial_sums out.new) }
    ensures width { spatial_widths K.wide_width out.new
        ≡ plus6_size (spatial_widths K.wide_width out.old)
        (force_cross_width (spatial v.now) (spatial_radii K.width v.now)
        (spatial f.now) (spatial_radii K.width f.now)) }
{
    cross_into::<K, A, B, P>(&v.ang, &f.ang, &mut out.ang);
    cross_into::<K, A, B, P>(&v.lin, &f.lin, &mut out.ang);
    cross_into::<K, A, B, P>(&v.ang, &f.lin, &mut out.lin);
}

/// Adds `k a` to `out`.
fn times3_into<K: Carry, const A: u32, const B: u32, const P: u32>(
    k: &Num<K, A>,
    a: &V3<K, B>,
    out: &mut Sum3<K, P>,
)
    requires scale { P ≡ A + B }
    requires fits { Fits (sums out.old) (times_size k.now.mid (mids a.now)) }
    requires narrow { Narrow (widths K.wide_width out.old)
        (times_width k.now.mid (K.width k.now.rad) (mids a.now) (radii K.width a.now)) }
    ensures mid { sums out.new ≡ plus (sums out.old) (times k.now.mid (mids a.now)) }
    ensures size { Grown (sums out.old) (times_size k.now.mid (mids a.now)) (sums out.new) }
    ensures width { widths K.wide_width out.new ≡ plus_size (widths K.wide_width out.old)
        (times_width k.now.mid (K.width k.now.rad) (mids a.now) (radii K.width a.now)) }
{
    add_product::<K, A, B, P>(k, &a.x, &mut out.x);
    add_product::<K, A, B, P>(k, &a.y, &mut out.y);
    add_product::<K, A, B, P>(k, &a.z, &mut out.z);
}

/// Adds `k s`, a spatial vector times a number, to `out`, whose scale `P` is `A + B`.
pub fn times6_into<K: Carry, const A: u32, const B: u32, const P: u32>(
    k: &Num<K, A>,
    s: &Sp6<K, B>,
    out: &mut Sum6<K, P>,
)
    requires scale { P ≡ A + B }
    requires fits { Fits6 (spatial_sums out.old) (times6_size k.now.mid (spatial s.now)) }
    requires narrow { Narrow6 (spatial_widths K.wide_width out.old)
        (times6_width k.now.mid (K.width k.now.rad) (spatial s.now) (spatial_radii K.width s.now)) }
    ensures mid { spatial_sums out.new
        ≡ spec.plus6 (spatial_sums out.old) (spec.times6 k.now.mid (spatial s.now)) }
    ensures size { Grown6 (spatial_sums out.old) (times6_size k.now.mid (spatial s.now))
        (spatial_sums out.new) }
    ensures width { spatial_widths K.wide_width out.new
        ≡ plus6_size (spatial_widths K.wide_width out.old)
        (times6_width k.now.mid (K.width k.now.rad) (spatial s.now)
        (spatial_radii K.width s.now)) }
{
    times3_into::<K, A, B, P>(k, &s.ang, &mut out.ang);
    times3_into::<K, A, B, P>(k, &s.lin, &mut out.lin);
}

/// Adds the sum `a` to `out`.
fn add_sum<K: Carry, const P: u32>(a: &Sum<K, P>, out: &mut Sum<K, P>)
    requires fits { unsigned_abs out.old.mid + unsigned_abs a.now.mid < 2 ^ 127 }
    requires narrow { K.wide_width out.old.rad + K.wide_width a.now.rad < 2 ^ 128 }
    ensures mid { out.new.mid ≡ out.old.mid +ℤ a.now.mid }
    ensures size { unsigned_abs out.new.mid ≤ unsigned_abs out.old.mid + unsigned_abs a.now.mid }
    ensures width { K.wide_width out.new.rad ≡ K.wide_width out.old.rad + K.wide_width a.now.rad }
{
    out.mid = sum(out.mid, a.mid);
    out.rad = K::join(out.rad, a.rad);
}

/// Adds the three sums `a` to `out`.
pub fn add3<K: Carry, const P: u32>(a: &Sum3<K, P>, out: &mut Sum3<K, P>)
    requires fits { Fits (sums out.old) (sizes_of (sums a.now)) }
    requires narrow { Narrow (widths K.wide_width out.old) (widths K.wide_width a.now) }
    ensures mid { sums out.new ≡ plus (sums out.old) (sums a.now) }
    ensures size { Grown (sums out.old) (sizes_of (sums a.now)) (sums out.new) }
    ensures width { widths K.wide_width out.new
        ≡ plus_size (widths K.wide_width out.old) (widths K.wide_width a.now) }
{
    add_sum::<K, P>(&a.x, &mut out.x);
    add_sum::<K, P>(&a.y, &mut out.y);
    add_sum::<K, P>(&a.z, &mut out.z);
}

/// Adds the six sums `a` to `out`.
pub fn add6<K: Carry, const P: u32>(a: &Sum6<K, P>, out: &mut Sum6<K, P>)
    requires fits { Fits6 (spatial_sums out.old) (sizes6_of (spatial_sums a.now)) }
    requires narrow { Narrow6 (spatial_widths K.wide_width out.old)
        (spatial_widths K.wide_width a.now) }
    ensures mid { spatial_sums out.new ≡ spec.plus6 (spatial_sums out.old) (spatial_sums a.now) }
    ensures size { Grown6 (spatial_sums out.old) (sizes6_of (spatial_sums a.now))
        (spatial_sums out.new) }
    ensures width { spatial_widths K.wide_width out.new
        ≡ plus6_size (spatial_widths K.wide_width out.old) (spatial_widths K.wide_width a.now) }
{
    add3::<K, P>(&a.ang, &mut out.ang);
    add3::<K, P>(&a.lin, &mut out.lin);
}
