// Plain numbers: their sums, exact products and sums of products, and one rounding by 32 bits.
ghost use Rattle.std.specs.Prelude.{◌≡◌, ◌+◌, ◌*◌, ◌^◌, ◌<◌, ◌≤◌, ◌+ℤ◌, ◌-ℤ◌, ◌*ℤ◌, unsigned_abs};
ghost use Rattle.fx_num.specs.Scalars as spec;

use crate::number::{Fix, Number, Wide};
use fx_whole::{add_product, difference, narrow, nearest_by_half, product, sum};

/// `a + b`, where the caller shows that it fits.
pub fn add<const F: u32>(a: &Fix<F>, b: &Fix<F>) -> Fix<F>
    requires { unsigned_abs a.now.mid + unsigned_abs b.now.mid < 2 ^ 63 }
    ensures value { result.mid ≡ a.now.mid +ℤ b.now.mid }
    ensures size { unsigned_abs result.mid ≤ unsigned_abs a.now.mid + unsigned_abs b.now.mid }
{
    Number {
        mid: a.mid + b.mid,
        rad: (),
    }
}

/// `a - b`, where the caller shows that it fits.
pub fn subtract<const F: u32>(a: &Fix<F>, b: &Fix<F>) -> Fix<F>
    requires { unsigned_abs a.now.mid + unsigned_abs b.now.mid < 2 ^ 63 }
    ensures value { result.mid ≡ a.now.mid -ℤ b.now.mid }
    ensures size { unsigned_abs result.mid ≤ unsigned_abs a.now.mid + unsigned_abs b.now.mid }
{
    Number {
        mid: a.mid - b.mid,
        rad: (),
    }
}

/// `total + a b`, where the caller shows that it fits: one step of a sum of products.
pub fn plus_product<const A: u32, const B: u32, const P: u32>(
    total: &Wide<P>,
    a: &Fix<A>,
    b: &Fix<B>,
) -> Wide<P>
    requires scale { P ≡ A + B }
    requires fits { unsigned_abs total.now.raw + unsigned_abs a.now.mid * unsigned_abs b.now.mid
        < 2 ^ 127 }
    ensures value { result.raw ≡ total.now.raw +ℤ a.now.mid *ℤ b.now.mid }
    ensures size { unsigned_abs result.raw
        ≤ unsigned_abs total.now.raw + unsigned_abs a.now.mid * unsigned_abs b.now.mid }
{
    Wide {
        raw: add_product(total.raw, a.mid, b.mid),
    }
}

/// `total - a b`, where the caller shows that it fits.
pub fn minus_product<const A: u32, const B: u32, const P: u32>(
    total: &Wide<P>,
    a: &Fix<A>,
    b: &Fix<B>,
) -> Wide<P>
    requires scale { P ≡ A + B }
    requires fits { unsigned_abs total.now.raw + unsigned_abs a.now.mid * unsigned_abs b.now.mid
        < 2 ^ 127 }
    ensures value { result.raw ≡ total.now.raw -ℤ a.now.mid *ℤ b.now.mid }
    ensures size { unsigned_abs result.raw
        ≤ unsigned_abs total.now.raw + unsigned_abs a.now.mid * unsigned_abs b.now.mid }
{
    Wide {
        raw: difference(total.raw, product(a.mid, b.mid)),
    }
}

/// `a b` of numbers below 2.
fn small_product(a: &Fix<32>, b: &Fix<32>) -> i128
    requires a { unsigned_abs a.now.mid ≤ 2 ^ 33 }
    requires b { unsigned_abs b.now.mid ≤ 2 ^ 33 }
    ensures value { result ≡ a.now.mid *ℤ b.now.mid }
    ensures size { unsigned_abs result ≤ 2 ^ 66 }
    ensures unit { unsigned_abs a.now.mid ≤ 2 ^ 32 → unsigned_abs b.now.mid ≤ 2 ^ 32
        → unsigned_abs result ≤ 2 ^ 64 }
{
    product(a.mid, b.mid)
}

/// `a b + c d` of numbers below 2, exactly.
pub fn pair_sum(a: &Fix<32>, b: &Fix<32>, c: &Fix<32>, d: &Fix<32>) -> i128
    requires a { unsigned_abs a.now.mid ≤ 2 ^ 33 }
    requires b { unsigned_abs b.now.mid ≤ 2 ^ 33 }
    requires c { unsigned_abs c.now.mid ≤ 2 ^ 33 }
    requires d { unsigned_abs d.now.mid ≤ 2 ^ 33 }
    ensures value { result ≡ a.now.mid *ℤ b.now.mid +ℤ c.now.mid *ℤ d.now.mid }
    ensures size { unsigned_abs result ≤ 2 ^ 67 }
    ensures unit { unsigned_abs a.now.mid ≤ 2 ^ 32 → unsigned_abs b.now.mid ≤ 2 ^ 32
        → unsigned_abs c.now.mid ≤ 2 ^ 32 → unsigned_abs d.now.mid ≤ 2 ^ 32
        → unsigned_abs result ≤ 2 ^ 65 }
{
    sum(small_product(a, b), small_product(c, d))
}

/// `a b - c d` of numbers below 2, exactly.
pub fn pair_difference(a: &Fix<32>, b: &Fix<32>, c: &Fix<32>, d: &Fix<32>) -> i128
    requires a { unsigned_abs a.now.mid ≤ 2 ^ 33 }
    requires b { unsigned_abs b.now.mid ≤ 2 ^ 33 }
    requires c { unsigned_abs c.now.mid ≤ 2 ^ 33 }
    requires d { unsigned_abs d.now.mid ≤ 2 ^ 33 }
    ensures value { result ≡ a.now.mid *ℤ b.now.mid -ℤ c.now.mid *ℤ d.now.mid }
    ensures size { unsigned_abs result ≤ 2 ^ 67 }
    ensures unit { unsigned_abs a.now.mid ≤ 2 ^ 32 → unsigned_abs b.now.mid ≤ 2 ^ 32
        → unsigned_abs c.now.mid ≤ 2 ^ 32 → unsigned_abs d.now.mid ≤ 2 ^ 32
        → unsigned_abs result ≤ 2 ^ 65 }
{
    difference(small_product(a, b), small_product(c, d))
}

/// `n`, a sum at a scale 32 higher, rounded to scale `F`. The size is at most that of `n / 2^32`,
/// and a half.
#[tactic(auto, using(crate::proofs::RoundLaws::round_fits))]
pub fn round<const F: u32>(n: &i128) -> Fix<F>
    requires { unsigned_abs n.now ≤ 2 ^ 94 }
    ensures value { result.mid ≡ spec.round n.now }
    ensures size { 2 ^ 32 * unsigned_abs result.mid ≤ unsigned_abs n.now + 2 ^ 31 }
{
    Number {
        mid: narrow(nearest_by_half(n, 32)),
        rad: (),
    }
}

/// `a + b`, two sums at a scale 32 higher, rounded to scale `F`.
pub fn rounded_sum<const F: u32>(a: &i128, b: &i128) -> Fix<F>
    requires { unsigned_abs a.now + unsigned_abs b.now ≤ 2 ^ 94 }
    ensures value { result.mid ≡ spec.round (a.now +ℤ b.now) }
    ensures size { 2 ^ 32 * unsigned_abs result.mid
        ≤ unsigned_abs a.now + unsigned_abs b.now + 2 ^ 31 }
{
    round::<F>(&sum(*a, *b))
}

/// `a - b`, two sums at a scale 32 higher, rounded to scale `F`.
pub fn rounded_difference<const F: u32>(a: &i128, b: &i128) -> Fix<F>
    requires { unsigned_abs a.now + unsigned_abs b.now ≤ 2 ^ 94 }
    ensures value { result.mid ≡ spec.round (a.now -ℤ b.now) }
    ensures size { 2 ^ 32 * unsigned_abs result.mid
        ≤ unsigned_abs a.now + unsigned_abs b.now + 2 ^ 31 }
{
    round::<F>(&difference(*a, *b))
}

/// `a b` for a factor `b` at scale 32, rounded.
pub fn rounded_product<const F: u32>(a: &Fix<F>, b: &Fix<32>) -> Fix<F>
    requires { unsigned_abs a.now.mid * unsigned_abs b.now.mid ≤ 2 ^ 94 }
    ensures value { result.mid ≡ spec.times a.now.mid b.now.mid }
    ensures size { 2 ^ 32 * unsigned_abs result.mid
        ≤ unsigned_abs a.now.mid * unsigned_abs b.now.mid + 2 ^ 31 }
{
    round::<F>(&product(a.mid, b.mid))
}
