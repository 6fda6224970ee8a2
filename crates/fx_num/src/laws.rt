// Laws of the calls, for every kind of number: each function makes the calls that its law names.
ghost use Rattle.std.specs.Prelude.{◌≡◌, ◌+◌, ◌-◌, ◌^◌, ◌<◌, ◌≤◌, ◌↔◌, pos, ◌≤ℤ◌, unsigned_abs, IfOk, Some, FitsSigned};
ghost use mir.Syntax.{w128};
ghost use Rattle.fx_num.specs.Radii.{product_width};
ghost use Rattle.fx_whole.specs.First.{refusal_of};
ghost use Rattle.fx_num.specs.Settled.{over, product_sum, rounding_loss, settled_mid};

use crate::carry::{Carry, Over};
use crate::number::{Num, Sum};
use crate::product::mul_into;
use crate::settling::settle;

/// Joins two widths in both orders: what they come to doesn't depend on it.
pub fn join_either<K: Carry>(a: K::Wide, b: K::Wide) -> (K::Wide, K::Wide)
    requires { K.wide_width a + K.wide_width b < 2 ^ 128 }
    ensures same { K.wide_width result.0 ≡ K.wide_width result.1 }
    ensures total { K.wide_width result.0 ≡ K.wide_width a + K.wide_width b }
{
    (K::join(a, b), K::join(b, a))
}

/// Joins three widths in both groupings.
pub fn join_grouped<K: Carry>(a: K::Wide, b: K::Wide, c: K::Wide) -> (K::Wide, K::Wide)
    requires { K.wide_width a + K.wide_width b + K.wide_width c < 2 ^ 128 }
    ensures same { K.wide_width result.0 ≡ K.wide_width result.1 }
    ensures total { K.wide_width result.0 ≡ K.wide_width a + K.wide_width b + K.wide_width c }
{
    (K::join(K::join(a, b), c), K::join(a, K::join(b, c)))
}

/// Adds one product to one sum at two kinds: the midpoints stay the same.
pub fn mul_alike<K: Carry, L: Carry, const A: u32, const B: u32, const P: u32>(
    a: (Num<K, A>, Num<L, A>),
    b: (Num<K, B>, Num<L, B>),
    k: &mut Sum<K, P>,
    l: &mut Sum<L, P>,
)
    requires scale { P ≡ A + B }
    requires first { a.0.mid ≡ a.1.mid }
    requires second { b.0.mid ≡ b.1.mid }
    requires sums { k.old.mid ≡ l.old.mid }
    requires fits { FitsSigned w128 (product_sum k.old.mid a.0.mid b.0.mid) }
    requires width_k { K.wide_width k.old.rad
        + product_width a.0.mid (K.width a.0.rad) b.0.mid (K.width b.0.rad) < 2 ^ 128 }
    requires width_l { L.wide_width l.old.rad
        + product_width a.1.mid (L.width a.1.rad) b.1.mid (L.width b.1.rad) < 2 ^ 128 }
    ensures same { k.new.mid ≡ l.new.mid }
    ensures sum { k.new.mid ≡ product_sum k.old.mid a.0.mid b.0.mid }
{
    mul_into::<K, A, B, P>(a.0, b.0, k);
    mul_into::<L, A, B, P>(a.1, b.1, l);
}

/// Settles one sum at two kinds: where both answer, the midpoints are the same, and the value is
/// refused at both or at neither.
pub fn settle_alike<K: Carry, L: Carry, const P: u32, const F: u32>(
    k: Sum<K, P>,
    l: Sum<L, P>,
    limit: i64,
) -> (Result<Num<K, F>, Over>, Result<Num<L, F>, Over>)
    requires same { k.mid ≡ l.mid }
    requires below { F ≤ P }
    requires in_width { P ≤ F + 126 }
    requires limit { pos 0 ≤ℤ limit }
    ensures mid { IfOk result.0 (λ r. IfOk result.1 (λ s. r.mid ≡ s.mid)) }
    ensures refused { (refusal_of result.0 ≡ Some Over.Value)
        ↔ (refusal_of result.1 ≡ Some Over.Value) }
    ensures first { refusal_of result.0
        ≡ over (unsigned_abs limit) (settled_mid k.mid (P - F))
        (K.settled (K.wide_width k.rad) (rounding_loss k.mid (P - F)) (P - F)) }
    ensures second { refusal_of result.1
        ≡ over (unsigned_abs limit) (settled_mid l.mid (P - F))
        (L.settled (L.wide_width l.rad) (rounding_loss l.mid (P - F)) (P - F)) }
{
    (settle::<K, P, F>(k, limit), settle::<L, P, F>(l, limit))
}
