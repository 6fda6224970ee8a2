// Exact numbers as numbers of any kind, and sums of their products.
ghost use Rattle.std.specs.Prelude.{◌≡◌, ◌+◌, ◌^◌, ◌≤◌, unsigned_abs};
ghost use Rattle.fx_num.specs.Radii.{radius_limit};
ghost use Rattle.fx_vec.specs.Sizes.{no_size};
ghost use Rattle.fx_vec.specs.Vectors.{no_vector};
ghost use Rattle.fx_vec.specs.Views as view;
ghost use Rattle.mj_bias.specs.Measures as spec;
ghost use Rattle.mj_bias.specs.Biases.{minus_one};
ghost use Rattle.mj_types.specs.Memory.{NumberFits, MotionFits, SumsFit};

use fx_num::{Carry, Fix, Num, Number, Plain, Sum, none};
use fx_vec::{Sp6, Sum3, Sum6, Total3, Total6, V3, Vector3, Vector6, times6_into};

// The number `x`, known exactly.
fn exact<K: Carry>(x: &Fix<32>) -> Num<K, 32>
    ensures mid { result.mid ≡ x.now.mid }
    ensures rad { K.width result.rad ≡ 0 }
{
    Number {
        mid: x.mid,
        rad: K::none(),
    }
}

// The vector `v`, known exactly.
pub(crate) fn exact3<K: Carry>(v: &V3<Plain, 32>) -> V3<K, 32>
    requires numbers { NumberFits K.Rad.row }
    ensures mids { view.mids result ≡ view.mids v.now }
    ensures radii { view.radii K.width result ≡ no_size }
{
    Vector3 {
        x: exact::<K>(&v.x),
        y: exact::<K>(&v.y),
        z: exact::<K>(&v.z),
    }
}

// The spatial vector `s`, known exactly.
pub(crate) fn exact6<K: Carry>(s: &Sp6<Plain, 32>) -> Sp6<K, 32>
    requires numbers { NumberFits K.Rad.row }
    ensures { spec.numbers K.width result ≡ spec.exact (view.spatial s.now) }
{
    Vector6 {
        ang: exact3::<K>(&s.ang),
        lin: exact3::<K>(&s.lin),
    }
}

// The vector 0.
pub(crate) fn no_vector() -> V3<Plain, 32>
    ensures { view.mids result ≡ no_vector }
{
    let zero = Number { mid: 0, rad: () };
    Vector3 {
        x: zero,
        y: zero,
        z: zero,
    }
}

// The motion 0.
pub(crate) fn no_motion<K: Carry>() -> Sp6<K, 32>
    requires numbers { NumberFits K.Rad.row }
    ensures { spec.numbers K.width result ≡ spec.no_measure }
{
    exact6::<K>(&Vector6 {
        ang: no_vector(),
        lin: no_vector(),
    })
}

// Three empty sums.
fn no_sums3<K: Carry, const P: u32>() -> Sum3<K, P>
    ensures sums { view.sums result ≡ no_vector }
    ensures widths { view.widths K.wide_width result ≡ no_size }
{
    Total3 {
        x: none::<K, P>(),
        y: none::<K, P>(),
        z: none::<K, P>(),
    }
}

// Six empty sums.
pub(crate) fn no_sums<K: Carry, const P: u32>() -> Sum6<K, P>
    ensures { spec.totals K.wide_width result ≡ spec.no_measure }
{
    Total6 {
        ang: no_sums3::<K, P>(),
        lin: no_sums3::<K, P>(),
    }
}

// Adds `k s` to `sum`, where `k` is exact.
pub(crate) fn add_multiple<K: Carry>(k: &Fix<32>, s: &Sp6<K, 32>, sum: &mut Sum6<K, 64>)
    requires numbers { NumberFits K.Rad.row }
    requires motions { MotionFits K.Rad.row }
    requires sums { SumsFit K.Wide.row }
    requires factor { unsigned_abs k.now.mid ≤ 2 ^ 44 }
    requires vector { spec.IsWithin (spec.numbers K.width s.now) (2 ^ 56) radius_limit }
    requires sum { spec.IsWithin (spec.totals K.wide_width sum.old) (2 ^ 110) (2 ^ 100) }
    ensures { spec.totals K.wide_width sum.new ≡ spec.sum_of (spec.totals K.wide_width sum.old)
        (spec.multiple k.now.mid (spec.numbers K.width s.now)) }
{
    times6_into::<K, 32, 32, 64>(&exact::<K>(k), s, sum);
}

// The number -1.
pub(crate) fn minus_one() -> Fix<32>
    ensures { result.mid ≡ minus_one }
{
    Number {
        mid: -(1 << 32),
        rad: (),
    }
}
