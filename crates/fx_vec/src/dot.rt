// Scalar products of vectors and of spatial vectors.
ghost use Rattle.std.specs.Prelude.{◌≡◌, ◌+◌, ◌^◌, ◌<◌, ◌≤◌, ◌+ℤ◌, unsigned_abs};
ghost use Rattle.fx_vec.specs.Vectors.{dot};
ghost use Rattle.fx_vec.specs.Spatial.{pair};
ghost use Rattle.fx_vec.specs.Sizes.{dot_size, pair_size};
ghost use Rattle.fx_vec.specs.Widths.{dot_width, pair_width};
ghost use Rattle.fx_vec.specs.Views.{mids, radii, spatial, spatial_radii};

use crate::leaf::add_product;
use crate::vector::{Sp6, V3};
use fx_num::{Carry, Sum};

/// Adds `a . b` to `out`, whose scale `P` is `A + B`.
pub fn dot_into<K: Carry, const A: u32, const B: u32, const P: u32>(
    a: &V3<K, A>,
    b: &V3<K, B>,
    out: &mut Sum<K, P>,
)
    requires scale { P ≡ A + B }
    requires fits { unsigned_abs out.old.mid + dot_size (mids a.now) (mids b.now) < 2 ^ 127 }
    requires narrow { K.wide_width out.old.rad
        + dot_width (mids a.now) (radii K.width a.now) (mids b.now) (radii K.width b.now)
        < 2 ^ 128 }
    ensures mid { out.new.mid ≡ out.old.mid +ℤ dot (mids a.now) (mids b.now) }
    ensures size { unsigned_abs out.new.mid
        ≤ unsigned_abs out.old.mid + dot_size (mids a.now) (mids b.now) }
    ensures width { K.wide_width out.new.rad ≡ K.wide_width out.old.rad
        + dot_width (mids a.now) (radii K.width a.now) (mids b.now) (radii K.width b.now) }
{
    add_product::<K, A, B, P>(&a.x, &b.x, out);
    add_product::<K, A, B, P>(&a.y, &b.y, out);
    add_product::<K, A, B, P>(&a.z, &b.z, out);
}

/// Adds the power of the force `f` on the motion `s` to `out`, whose scale `P` is `A + B`:
/// `s.ang . f.ang + s.lin . f.lin`.
pub fn pair_into<K: Carry, const A: u32, const B: u32, const P: u32>(
    s: &Sp6<K, A>,
    f: &Sp6<K, B>,
    out: &mut Sum<K, P>,
)
    requires scale { P ≡ A + B }
    requires fits { unsigned_abs out.old.mid + pair_size (spatial s.now) (spatial f.now) < 2 ^ 127 }
    requires narrow { K.wide_width out.old.rad
        + pair_width (spatial s.now) (spatial_radii K.width s.now)
        (spatial f.now) (spatial_radii K.width f.now) < 2 ^ 128 }
    ensures mid { out.new.mid ≡ out.old.mid +ℤ pair (spatial s.now) (spatial f.now) }
    ensures size { unsigned_abs out.new.mid
        ≤ unsigned_abs out.old.mid + pair_size (spatial s.now) (spatial f.now) }
    ensures width { K.wide_width out.new.rad ≡ K.wide_width out.old.rad
        + pair_width (spatial s.now) (spatial_radii K.width s.now)
        (spatial f.now) (spatial_radii K.width f.now) }
{
    dot_into::<K, A, B, P>(&s.ang, &f.ang, out);
    dot_into::<K, A, B, P>(&s.lin, &f.lin, out);
}
