// A rigid body's inertia, and its product with a motion.
ghost use Rattle.std.specs.Prelude.{IsTrue, true, ◌≡◌, ◌+◌, ◌*◌, ◌^◌, ◌<◌, ◌≤◌, ◌+ℤ◌, ◌-ℤ◌, ◌*ℤ◌, unsigned_abs, FitsSigned};
ghost use mir.Syntax.{w128};
ghost use Rattle.fx_vec.specs.Vectors.{cross, times, plus, minus};
ghost use Rattle.fx_vec.specs.Spatial as spec;
ghost use Rattle.fx_vec.specs.Sizes.{cross_size, times_size, turned_size, inertia_size, plus_size, plus6_size};
ghost use Rattle.fx_vec.specs.Widths.{scaled_width, exact_cross_width, exact_times_width, turned_width, inertia_width};
ghost use Rattle.fx_vec.specs.Views.{mids, radii, sums, widths, spatial, spatial_radii, spatial_sums, spatial_widths};
ghost use Rattle.fx_vec.specs.Views as view;
ghost use Rattle.fx_vec.specs.Room.{Fits, Narrow, Grown, Fits6, Narrow6, Grown6};
ghost use Rattle.fx_vec.specs.Inertias.{IsShort, SumFits};

use crate::leaf::{add_scaled, take_scaled};
use crate::vector::{Sp6, Sum3, Sum6, V3};
use fx_num::{Carry, Num, Sum};

/// A rigid body's inertia about the origin, as integers at scale 40: the rotational inertia's six
/// numbers, the first moment of the mass, and the mass. It is exact.
#[derive(Clone, Copy, Debug, PartialEq, Eq)]
pub struct Inertia10 {
    pub xx: i128,
    pub xy: i128,
    pub xz: i128,
    pub yy: i128,
    pub yz: i128,
    pub zz: i128,
    pub mx: i128,
    pub my: i128,
    pub mz: i128,
    pub mass: i128,
}

/// `a + b`, where the caller shows that it fits.
fn total(a: &i128, b: &i128) -> i128
    requires { FitsSigned w128 (a.now +ℤ b.now) }
    ensures { result ≡ a.now +ℤ b.now }
{
    *a + *b
}

/// The inertia of two bodies about one point: the sum, number by number.
pub fn add10(a: &Inertia10, b: &Inertia10) -> Inertia10
    requires { SumFits a.now b.now }
    ensures { view.inertia result ≡ spec.plus_inertia (view.inertia a.now) (view.inertia b.now) }
{
    Inertia10 {
        xx: total(&a.xx, &b.xx),
        xy: total(&a.xy, &b.xy),
        xz: total(&a.xz, &b.xz),
        yy: total(&a.yy, &b.yy),
        yz: total(&a.yz, &b.yz),
        zz: total(&a.zz, &b.zz),
        mx: total(&a.mx, &b.mx),
        my: total(&a.my, &b.my),
        mz: total(&a.mz, &b.mz),
        mass: total(&a.mass, &b.mass),
    }
}

/// Adds `x v.x + y v.y + z v.z` to `out`: one row of an inertia times a vector.
fn row_into<K: Carry, const B: u32, const P: u32, const SHORT: bool>(
    x: &i128,
    y: &i128,
    z: &i128,
    v: &V3<K, B>,
    out: &mut Sum<K, P>,
)
    requires short_x { SHORT ≡ true → unsigned_abs x.now < 2 ^ 63 }
    requires short_y { SHORT ≡ true → unsigned_abs y.now < 2 ^ 63 }
    requires short_z { SHORT ≡ true → unsigned_abs z.now < 2 ^ 63 }
    requires fits { unsigned_abs out.old.mid
        + (unsigned_abs x.now * unsigned_abs v.now.x.mid
        + unsigned_abs y.now * unsigned_abs v.now.y.mid
        + unsigned_abs z.now * unsigned_abs v.now.z.mid) < 2 ^ 127 }
    requires narrow { K.wide_width out.old.rad
        + (scaled_width x.now (K.width v.now.x.rad)
        + scaled_width y.now (K.width v.now.y.rad)
        + scaled_width z.now (K.width v.now.z.rad)) < 2 ^ 128 }
    ensures mid { out.new.mid ≡ out.old.mid
        +ℤ (x.now *ℤ v.now.x.mid +ℤ y.now *ℤ v.now.y.mid +ℤ z.now *ℤ v.now.z.mid) }
    ensures size { unsigned_abs out.new.mid ≤ unsigned_abs out.old.mid
        + (unsigned_abs x.now * unsigned_abs v.now.x.mid
        + unsigned_abs y.now * unsigned_abs v.now.y.mid
        + unsigned_abs z.now * unsigned_abs v.now.z.mid) }
    ensures width { K.wide_width out.new.rad ≡ K.wide_width out.old.rad
        + (scaled_width x.now (K.width v.now.x.rad)
        + scaled_width y.now (K.width v.now.y.rad)
        + scaled_width z.now (K.width v.now.z.rad)) }
{
    add_scaled::<K, B, P, SHORT>(x, &v.x, out);
    add_scaled::<K, B, P, SHORT>(y, &v.y, out);
    add_scaled::<K, B, P, SHORT>(z, &v.z, out);
}

/// Adds `a d - b c` to `out`: one coordinate of the first moment times a vector.
fn moment_minor_into<K: Carry, const B: u32, const P: u32, const SHORT: bool>(
    a: &i128,
    d: &Num<K, B>,
    b: &i128,
    c: &Num<K, B>,
    out: &mut Sum<K, P>,
)
    requires short_a { SHORT ≡ true → unsigned_abs a.now < 2 ^ 63 }
    requires short_b { SHORT ≡ true → unsigned_abs b.now < 2 ^ 63 }
    requires fits { unsigned_abs out.old.mid
        + (unsigned_abs a.now * unsigned_abs d.now.mid
        + unsigned_abs b.now * unsigned_abs c.now.mid) < 2 ^ 127 }
    requires narrow { K.wide_width out.old.rad
        + (scaled_width a.now (K.width d.now.rad) + scaled_width b.now (K.width c.now.rad))
        < 2 ^ 128 }
    ensures mid { out.new.mid
        ≡ out.old.mid +ℤ (a.now *ℤ d.now.mid -ℤ b.now *ℤ c.now.mid) }
    ensures size { unsigned_abs out.new.mid ≤ unsigned_abs out.old.mid
        + (unsigned_abs a.now * unsigned_abs d.now.mid
        + unsigned_abs b.now * unsigned_abs c.now.mid) }
    ensures width { K.wide_width out.new.rad ≡ K.wide_width out.old.rad
        + (scaled_width a.now (K.width d.now.rad) + scaled_width b.now (K.width c.now.rad)) }
{
    add_scaled::<K, B, P, SHORT>(a, d, out);
    take_scaled::<K, B, P, SHORT>(b, c, out);
}

/// Adds the rotational inertia times `w` to `out`.
fn turned_into<K: Carry, const B: u32, const P: u32, const SHORT: bool>(
    i: &Inertia10,
    w: &V3<K, B>,
    out: &mut Sum3<K, P>,
)
    requires short { SHORT ≡ true → IsShort i.now }
    requires fits { Fits (sums out.old) (turned_size (view.inertia i.now) (mids w.now)) }
    requires narrow { Narrow (widths K.wide_width out.old)
        (turned_width (view.inertia i.now) (radii K.width w.now)) }
    ensures mid { sums out.new
        ≡ plus (sums out.old) (spec.turned (view.inertia i.now) (mids w.now)) }
    ensures size { Grown (sums out.old)
        (turned_size (view.inertia i.now) (mids w.now)) (sums out.new) }
    ensures width { widths K.wide_width out.new ≡ plus_size (widths K.wide_width out.old)
        (turned_width (view.inertia i.now) (radii K.width w.now)) }
{
    row_into::<K, B, P, SHORT>(&i.xx, &i.xy, &i.xz, w, &mut out.x);
    row_into::<K, B, P, SHORT>(&i.xy, &i.yy, &i.yz, w, &mut out.y);
    row_into::<K, B, P, SHORT>(&i.xz, &i.yz, &i.zz, w, &mut out.z);
}

/// Adds `m x v` to `out`, where `m` is the first moment.
fn moment_into<K: Carry, const B: u32, const P: u32, const SHORT: bool>(
    i: &Inertia10,
    v: &V3<K, B>,
    out: &mut Sum3<K, P>,
)
    requires short { SHORT ≡ true → IsShort i.now }
    requires fits { Fits (sums out.old) (cross_size (view.inertia i.now).moment (mids v.now)) }
    requires narrow { Narrow (widths K.wide_width out.old)
        (exact_cross_width (view.inertia i.now).moment (radii K.width v.now)) }
    ensures mid { sums out.new
        ≡ plus (sums out.old) (cross (view.inertia i.now).moment (mids v.now)) }
    ensures size { Grown (sums out.old)
        (cross_size (view.inertia i.now).moment (mids v.now)) (sums out.new) }
    ensures width { widths K.wide_width out.new ≡ plus_size (widths K.wide_width out.old)
        (exact_cross_width (view.inertia i.now).moment (radii K.width v.now)) }
{
    moment_minor_into::<K, B, P, SHORT>(&i.my, &v.z, &i.mz, &v.y, &mut out.x);
    moment_minor_into::<K, B, P, SHORT>(&i.mz, &v.x, &i.mx, &v.z, &mut out.y);
    moment_minor_into::<K, B, P, SHORT>(&i.mx, &v.y, &i.my, &v.x, &mut out.z);
}

/// Takes `m x v` from `out`, where `m` is the first moment.
fn moment_from<K: Carry, const B: u32, const P: u32, const SHORT: bool>(
    i: &Inertia10,
    v: &V3<K, B>,
    out: &mut Sum3<K, P>,
)
    requires short { SHORT ≡ true → IsShort i.now }
    requires fits { Fits (sums out.old) (cross_size (view.inertia i.now).moment (mids v.now)) }
    requires narrow { Narrow (widths K.wide_width out.old)
        (exact_cross_width (view.inertia i.now).moment (radii K.width v.now)) }
    ensures mid { sums out.new
        ≡ minus (sums out.old) (cross (view.inertia i.now).moment (mids v.now)) }
    ensures size { Grown (sums out.old)
        (cross_size (view.inertia i.now).moment (mids v.now)) (sums out.new) }
    ensures width { widths K.wide_width out.new ≡ plus_size (widths K.wide_width out.old)
        (exact_cross_width (view.inertia i.now).moment (radii K.width v.now)) }
{
    moment_minor_into::<K, B, P, SHORT>(&i.mz, &v.y, &i.my, &v.z, &mut out.x);
    moment_minor_into::<K, B, P, SHORT>(&i.mx, &v.z, &i.mz, &v.x, &mut out.y);
    moment_minor_into::<K, B, P, SHORT>(&i.my, &v.x, &i.mx, &v.y, &mut out.z);
}

/// Adds `mass v` to `out`.
fn mass_into<K: Carry, const B: u32, const P: u32, const SHORT: bool>(
    i: &Inertia10,
    v: &V3<K, B>,
    out: &mut Sum3<K, P>,
)
    requires short { SHORT ≡ true → IsShort i.now }
    requires fits { Fits (sums out.old) (times_size i.now.mass (mids v.now)) }
    requires narrow { Narrow (widths K.wide_width out.old)
        (exact_times_width i.now.mass (radii K.width v.now)) }
    ensures mid { sums out.new
        ≡ plus (sums out.old) (times i.now.mass (mids v.now)) }
    ensures size { Grown (sums out.old)
        (times_size i.now.mass (mids v.now)) (sums out.new) }
    ensures width { widths K.wide_width out.new ≡ plus_size (widths K.wide_width out.old)
        (exact_times_width i.now.mass (radii K.width v.now)) }
{
    add_scaled::<K, B, P, SHORT>(&i.mass, &v.x, &mut out.x);
    add_scaled::<K, B, P, SHORT>(&i.mass, &v.y, &mut out.y);
    add_scaled::<K, B, P, SHORT>(&i.mass, &v.z, &mut out.z);
}

/// Adds the momentum of a body with inertia `i` that moves with `s` to `out`:
/// `(I s.ang + m x s.lin ; mass s.lin - m x s.ang)`.
fn momentum_into<K: Carry, const B: u32, const P: u32, const SHORT: bool>(
    i: &Inertia10,
    s: &Sp6<K, B>,
    out: &mut Sum6<K, P>,
)
    requires short { SHORT ≡ true → IsShort i.now }
    requires fits { Fits6 (spatial_sums out.old)
        (inertia_size (view.inertia i.now) (spatial s.now)) }
    requires narrow { Narrow6 (spatial_widths K.wide_width out.old)
        (inertia_width (view.inertia i.now) (spatial_radii K.width s.now)) }
    ensures mid { spatial_sums out.new ≡ spec.plus6 (spatial_sums out.old)
        (spec.inertia_times (view.inertia i.now) (spatial s.now)) }
    ensures size { Grown6 (spatial_sums out.old)
        (inertia_size (view.inertia i.now) (spatial s.now)) (spatial_sums out.new) }
    ensures width { spatial_widths K.wide_width out.new
        ≡ plus6_size (spatial_widths K.wide_width out.old)
        (inertia_width (view.inertia i.now) (spatial_radii K.width s.now)) }
{
    turned_into::<K, B, P, SHORT>(i, &s.ang, &mut out.ang);
    moment_into::<K, B, P, SHORT>(i, &s.lin, &mut out.ang);
    mass_into::<K, B, P, SHORT>(i, &s.lin, &mut out.lin);
    moment_from::<K, B, P, SHORT>(i, &s.ang, &mut out.lin);
}

/// Whether `n` needs no more than 64 bits.
fn is_short_number(n: &i128) -> bool
    ensures { IsTrue result → unsigned_abs n.now < 2 ^ 63 }
{
    -(1i128 << 63) < *n && *n < 1 << 63
}

/// Whether the rotational inertia's numbers need no more than 64 bits.
fn is_short_rotation(i: &Inertia10) -> bool
    ensures xx { IsTrue result → unsigned_abs i.now.xx < 2 ^ 63 }
    ensures xy { IsTrue result → unsigned_abs i.now.xy < 2 ^ 63 }
    ensures xz { IsTrue result → unsigned_abs i.now.xz < 2 ^ 63 }
    ensures yy { IsTrue result → unsigned_abs i.now.yy < 2 ^ 63 }
    ensures yz { IsTrue result → unsigned_abs i.now.yz < 2 ^ 63 }
    ensures zz { IsTrue result → unsigned_abs i.now.zz < 2 ^ 63 }
{
    is_short_number(&i.xx)
        && is_short_number(&i.xy)
        && is_short_number(&i.xz)
        && is_short_number(&i.yy)
        && is_short_number(&i.yz)
        && is_short_number(&i.zz)
}

/// Whether the first moment and the mass need no more than 64 bits.
fn is_short_moment(i: &Inertia10) -> bool
    ensures mx { IsTrue result → unsigned_abs i.now.mx < 2 ^ 63 }
    ensures my { IsTrue result → unsigned_abs i.now.my < 2 ^ 63 }
    ensures mz { IsTrue result → unsigned_abs i.now.mz < 2 ^ 63 }
    ensures mass { IsTrue result → unsigned_abs i.now.mass < 2 ^ 63 }
{
    is_short_number(&i.mx)
        && is_short_number(&i.my)
        && is_short_number(&i.mz)
        && is_short_number(&i.mass)
}

/// Whether each number of an inertia needs no more than 64 bits.
pub fn is_short(i: &Inertia10) -> bool
    ensures { IsTrue result → IsShort i.now }
{
    is_short_rotation(i) && is_short_moment(i)
}

/// `inertia_into`, where the caller shows that no number of the inertia needs more than 64 bits: one
/// multiplication a term.
pub fn short_inertia_into<K: Carry, const B: u32, const P: u32>(
    i: &Inertia10,
    s: &Sp6<K, B>,
    out: &mut Sum6<K, P>,
)
    requires short { IsShort i.now }
    requires scale { P ≡ 40 + B }
    requires fits { Fits6 (spatial_sums out.old)
        (inertia_size (view.inertia i.now) (spatial s.now)) }
    requires narrow { Narrow6 (spatial_widths K.wide_width out.old)
        (inertia_width (view.inertia i.now) (spatial_radii K.width s.now)) }
    ensures mid { spatial_sums out.new ≡ spec.plus6 (spatial_sums out.old)
        (spec.inertia_times (view.inertia i.now) (spatial s.now)) }
    ensures size { Grown6 (spatial_sums out.old)
        (inertia_size (view.inertia i.now) (spatial s.now)) (spatial_sums out.new) }
    ensures width { spatial_widths K.wide_width out.new
        ≡ plus6_size (spatial_widths K.wide_width out.old)
        (inertia_width (view.inertia i.now) (spatial_radii K.width s.now)) }
{
    momentum_into::<K, B, P, true>(i, s, out);
}

/// Adds the momentum of a body with inertia `i` that moves with `s` to `out`, whose scale `P` is
/// `40 + B`: `(I s.ang + m x s.lin ; mass s.lin - m x s.ang)`. Where no number of the inertia needs
/// more than 64 bits, each term is one multiplication.
pub fn inertia_into<K: Carry, const B: u32, const P: u32>(
    i: &Inertia10,
    s: &Sp6<K, B>,
    out: &mut Sum6<K, P>,
)
    requires scale { P ≡ 40 + B }
    requires fits { Fits6 (spatial_sums out.old)
        (inertia_size (view.inertia i.now) (spatial s.now)) }
    requires narrow { Narrow6 (spatial_widths K.wide_width out.old)
        (inertia_width (view.inertia i.now) (spatial_radii K.width s.now)) }
    ensures mid { spatial_sums out.new ≡ spec.plus6 (spatial_sums out.old)
        (spec.inertia_times (view.inertia i.now) (spatial s.now)) }
    ensures size { Grown6 (spatial_sums out.old)
        (inertia_size (view.inertia i.now) (spatial s.now)) (spatial_sums out.new) }
    ensures width { spatial_widths K.wide_width out.new
        ≡ plus6_size (spatial_widths K.wide_width out.old)
        (inertia_width (view.inertia i.now) (spatial_radii K.width s.now)) }
{
    if is_short(i) {
        momentum_into::<K, B, P, true>(i, s, out);
    } else {
        momentum_into::<K, B, P, false>(i, s, out);
    }
}
