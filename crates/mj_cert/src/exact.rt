// Exact numbers of 128 bits: one operation a function, each where the caller shows that it fits.
ghost use Rattle.std.specs.Prelude.{◌≡◌, ◌+◌, ◌*◌, ◌^◌, ◌<◌, ◌≤◌, ◌+ℤ◌, ◌-ℤ◌, ◌*ℤ◌, pos, unsigned_abs};

use fx_num::{Fix, Wide};
use fx_whole::{add_product, difference, product, scale_up, scale_up_wide, sum, wide_product};

/// `a + b`.
pub fn plus<const P: u32>(a: &Wide<P>, b: &Wide<P>) -> Wide<P>
    requires { unsigned_abs a.now.raw + unsigned_abs b.now.raw < 2 ^ 127 }
    ensures { result.raw ≡ a.now.raw +ℤ b.now.raw }
{
    Wide {
        raw: sum(a.raw, b.raw),
    }
}

/// `a - b`.
pub fn minus<const P: u32>(a: &Wide<P>, b: &Wide<P>) -> Wide<P>
    requires { unsigned_abs a.now.raw + unsigned_abs b.now.raw < 2 ^ 127 }
    ensures { result.raw ≡ a.now.raw -ℤ b.now.raw }
{
    Wide {
        raw: difference(a.raw, b.raw),
    }
}

/// `total + a b`.
pub fn plus_product<const A: u32, const B: u32, const P: u32>(
    total: &Wide<P>,
    a: &Fix<A>,
    b: &Fix<B>,
) -> Wide<P>
    requires { unsigned_abs total.now.raw + unsigned_abs a.now.mid * unsigned_abs b.now.mid
        < 2 ^ 127 }
    ensures { result.raw ≡ total.now.raw +ℤ a.now.mid *ℤ b.now.mid }
{
    Wide {
        raw: add_product(total.raw, a.mid, b.mid),
    }
}

/// `r f`.
pub fn times(r: &Wide<48>, f: &Fix<20>) -> Wide<68>
    requires { unsigned_abs r.now.raw * unsigned_abs f.now.mid < 2 ^ 127 }
    ensures { result.raw ≡ r.now.raw *ℤ f.now.mid }
{
    Wide {
        raw: wide_product(r.raw, i128::from(f.mid)),
    }
}

/// `r f^2`.
pub fn weight(r: &Wide<48>, f: &Fix<20>) -> Wide<88>
    requires { unsigned_abs r.now.raw * (unsigned_abs f.now.mid * unsigned_abs f.now.mid)
        < 2 ^ 127 }
    ensures { result.raw ≡ r.now.raw *ℤ (f.now.mid *ℤ f.now.mid) }
{
    Wide {
        raw: wide_product(r.raw, product(f.mid, f.mid)),
    }
}

/// `b` at the scale of a slope.
pub fn raise(b: &Fix<32>) -> Wide<68>
    ensures { result.raw ≡ pos (2 ^ 36) *ℤ b.now.mid }
{
    Wide {
        raw: scale_up(b.mid, 36),
    }
}

/// Twice a sum of `b f`, at the scale of a cost.
pub fn double(pull: &Wide<52>) -> Wide<88>
    requires { unsigned_abs pull.now.raw * 2 ^ 37 < 2 ^ 127 }
    ensures { result.raw ≡ pos (2 ^ 37) *ℤ pull.now.raw }
{
    Wide {
        raw: scale_up_wide(pull.raw, 37),
    }
}
