// Exact sums of products.
ghost use Rattle.std.specs.Prelude.{◌≡◌, ◌+◌, ◌*◌, ◌^◌, ◌<◌, ◌≤◌, pos, unsigned_abs, FitsSigned};
ghost use mir.Syntax.{w128};
ghost use Rattle.fx_num.specs.Radii.{product_width};
ghost use Rattle.fx_num.specs.Settled.{product_sum};

use crate::carry::Carry;
use crate::number::{Num, Sum, Total};
use fx_whole::product;

/// The empty sum, of width 0.
pub fn none<K: Carry, const P: u32>() -> Sum<K, P>
    ensures mid { result.mid ≡ pos 0 }
    ensures rad { K.wide_width result.rad ≡ 0 }
{
    Total {
        mid: 0,
        rad: K::wide_none(),
    }
}

/// The number `x` as a sum at its own scale, of a width that is its radius.
pub fn widened<K: Carry, const F: u32>(x: Num<K, F>) -> Sum<K, F>
    requires { K.width x.rad < 2 ^ 128 }
    ensures mid { result.mid ≡ x.mid }
    ensures rad { K.wide_width result.rad ≡ K.width x.rad }
{
    let rad = K::product(x.mid, x.rad, 1, K::none());
    Total {
        mid: i128::from(x.mid),
        rad,
    }
}

/// Adds the exact product of `a` at scale `A` and `b` at scale `B` to `acc`, which is at scale `A + B`.
pub fn mul_into<K: Carry, const A: u32, const B: u32, const P: u32>(
    a: Num<K, A>,
    b: Num<K, B>,
    acc: &mut Sum<K, P>,
)
    requires scale { P ≡ A + B }
    requires fits { FitsSigned w128 (product_sum acc.old.mid a.mid b.mid) }
    requires width { K.wide_width acc.old.rad
        + product_width a.mid (K.width a.rad) b.mid (K.width b.rad) < 2 ^ 128 }
    ensures mid { acc.new.mid ≡ product_sum acc.old.mid a.mid b.mid }
    ensures size { unsigned_abs acc.new.mid
        ≤ unsigned_abs acc.old.mid + unsigned_abs a.mid * unsigned_abs b.mid }
    ensures rad { K.wide_width acc.new.rad ≡ K.wide_width acc.old.rad
        + product_width a.mid (K.width a.rad) b.mid (K.width b.rad) }
{
    acc.mid += product(a.mid, b.mid);
    acc.rad = K::join(acc.rad, K::product(a.mid, a.rad, i128::from(b.mid), b.rad));
}
