// One product added to an exact sum, or taken from it, under a condition that is linear in sizes.
ghost use Rattle.std.specs.Prelude.{true, ◌≡◌, ◌+◌, ◌*◌, ◌^◌, ◌<◌, ◌≤◌, pos, ◌+ℤ◌, ◌-ℤ◌, ◌*ℤ◌, unsigned_abs};
ghost use Rattle.fx_num.specs.Radii.{product_width};
ghost use Rattle.fx_vec.specs.Widths.{scaled_width};

use fx_num::{Carry, Num, Number, Sum, mul_into};
use fx_whole::{difference, narrow, product, sum, wide_product};

/// Adds `a b` to `out`.
pub(crate) fn add_product<K: Carry, const A: u32, const B: u32, const P: u32>(
    a: &Num<K, A>,
    b: &Num<K, B>,
    out: &mut Sum<K, P>,
)
    requires scale { P ≡ A + B }
    requires fits { unsigned_abs out.old.mid
        + unsigned_abs a.now.mid * unsigned_abs b.now.mid < 2 ^ 127 }
    requires width { K.wide_width out.old.rad
        + product_width a.now.mid (K.width a.now.rad) b.now.mid (K.width b.now.rad) < 2 ^ 128 }
    ensures mid { out.new.mid ≡ out.old.mid +ℤ a.now.mid *ℤ b.now.mid }
    ensures size { unsigned_abs out.new.mid
        ≤ unsigned_abs out.old.mid + unsigned_abs a.now.mid * unsigned_abs b.now.mid }
    ensures rad { K.wide_width out.new.rad ≡ K.wide_width out.old.rad
        + product_width a.now.mid (K.width a.now.rad) b.now.mid (K.width b.now.rad) }
{
    mul_into::<K, A, B, P>(*a, *b, out);
}

/// Takes `a b` from `out`. No factor is negated, since the least i64 has no negative.
pub(crate) fn take_product<K: Carry, const A: u32, const B: u32, const P: u32>(
    a: &Num<K, A>,
    b: &Num<K, B>,
    out: &mut Sum<K, P>,
)
    requires scale { P ≡ A + B }
    requires fits { unsigned_abs out.old.mid
        + unsigned_abs a.now.mid * unsigned_abs b.now.mid < 2 ^ 127 }
    requires width { K.wide_width out.old.rad
        + product_width a.now.mid (K.width a.now.rad) b.now.mid (K.width b.now.rad) < 2 ^ 128 }
    ensures mid { out.new.mid ≡ out.old.mid -ℤ a.now.mid *ℤ b.now.mid }
    ensures size { unsigned_abs out.new.mid
        ≤ unsigned_abs out.old.mid + unsigned_abs a.now.mid * unsigned_abs b.now.mid }
    ensures rad { K.wide_width out.new.rad ≡ K.wide_width out.old.rad
        + product_width a.now.mid (K.width a.now.rad) b.now.mid (K.width b.now.rad) }
{
    out.mid = difference(out.mid, product(a.mid, b.mid));
    out.rad = K::join(out.rad, K::product(a.mid, a.rad, i128::from(b.mid), b.rad));
}

/// `a`. Where `SHORT` says that it needs no more than 64 bits, the compiler learns it, and a product
/// is one multiplication.
fn factor<const SHORT: bool>(a: &i128) -> i128
    requires { SHORT ≡ true → unsigned_abs a.now < 2 ^ 63 }
    ensures { result ≡ a.now }
{
    if SHORT { i128::from(narrow(*a)) } else { *a }
}

/// `a b`, where the caller shows that it fits.
fn exact_product<R, const B: u32>(a: &i128, b: &Number<R, B>) -> i128
    requires { unsigned_abs a.now * unsigned_abs b.now.mid < 2 ^ 127 }
    ensures value { result ≡ a.now *ℤ b.now.mid }
    ensures size { unsigned_abs result ≡ unsigned_abs a.now * unsigned_abs b.now.mid }
{
    wide_product(*a, i128::from(b.mid))
}

/// Adds `a b` to `out`, where `a` is exact.
pub(crate) fn add_scaled<K: Carry, const B: u32, const P: u32, const SHORT: bool>(
    a: &i128,
    b: &Num<K, B>,
    out: &mut Sum<K, P>,
)
    requires short { SHORT ≡ true → unsigned_abs a.now < 2 ^ 63 }
    requires fits { unsigned_abs out.old.mid
        + unsigned_abs a.now * unsigned_abs b.now.mid < 2 ^ 127 }
    requires width { K.wide_width out.old.rad + scaled_width a.now (K.width b.now.rad) < 2 ^ 128 }
    ensures mid { out.new.mid ≡ out.old.mid +ℤ a.now *ℤ b.now.mid }
    ensures size { unsigned_abs out.new.mid
        ≤ unsigned_abs out.old.mid + unsigned_abs a.now * unsigned_abs b.now.mid }
    ensures rad { K.wide_width out.new.rad
        ≡ K.wide_width out.old.rad + scaled_width a.now (K.width b.now.rad) }
{
    let a = factor::<SHORT>(a);
    out.mid = sum(out.mid, exact_product(&a, b));
    out.rad = K::join(out.rad, K::product(b.mid, b.rad, a, K::none()));
}

/// Takes `a b` from `out`, where `a` is exact.
pub(crate) fn take_scaled<K: Carry, const B: u32, const P: u32, const SHORT: bool>(
    a: &i128,
    b: &Num<K, B>,
    out: &mut Sum<K, P>,
)
    requires short { SHORT ≡ true → unsigned_abs a.now < 2 ^ 63 }
    requires fits { unsigned_abs out.old.mid
        + unsigned_abs a.now * unsigned_abs b.now.mid < 2 ^ 127 }
    requires width { K.wide_width out.old.rad + scaled_width a.now (K.width b.now.rad) < 2 ^ 128 }
    ensures mid { out.new.mid ≡ out.old.mid -ℤ a.now *ℤ b.now.mid }
    ensures size { unsigned_abs out.new.mid
        ≤ unsigned_abs out.old.mid + unsigned_abs a.now * unsigned_abs b.now.mid }
    ensures rad { K.wide_width out.new.rad
        ≡ K.wide_width out.old.rad + scaled_width a.now (K.width b.now.rad) }
{
    let a = factor::<SHORT>(a);
    out.mid = difference(out.mid, exact_product(&a, b));
    out.rad = K::join(out.rad, K::product(b.mid, b.rad, a, K::none()));
}
