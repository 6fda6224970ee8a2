// Sums of products of a few numbers that are at most 1, exact at scale 64 and then rounded to scale 32.
ghost use Rattle.std.specs.Prelude.{◌≡◌, ℕ, ◌+◌, ◌*◌, ◌^◌, ◌<◌, ◌≤◌, pos, ◌+ℤ◌, ◌-ℤ◌, ◌*ℤ◌, unsigned_abs};
ghost use Rattle.fx_vec.specs.Settling as settling;
ghost use Rattle.fx_vec.specs.Sizes.{Within};
ghost use Rattle.fx_vec.specs.Views.{mids};
ghost use Rattle.mj_quat.specs.Rotation as spec;

use fx_num::{Fix, Plain, none, round, rounded_product};
use fx_vec::{V3, dot_into};

/// `a b + c d` of numbers that are at most 1.
pub(crate) fn pair_sum(a: &Fix<32>, b: &Fix<32>, c: &Fix<32>, d: &Fix<32>) -> i128
    requires a { unsigned_abs a.now.mid ≤ 2 ^ 32 }
    requires b { unsigned_abs b.now.mid ≤ 2 ^ 32 }
    requires c { unsigned_abs c.now.mid ≤ 2 ^ 32 }
    requires d { unsigned_abs d.now.mid ≤ 2 ^ 32 }
    ensures value { result ≡ a.now.mid *ℤ b.now.mid +ℤ c.now.mid *ℤ d.now.mid }
    ensures size { unsigned_abs result ≤ 2 ^ 65 }
{
    fx_num::pair_sum(a, b, c, d)
}

/// `a b - c d` of numbers that are at most 1.
pub(crate) fn pair_difference(a: &Fix<32>, b: &Fix<32>, c: &Fix<32>, d: &Fix<32>) -> i128
    requires a { unsigned_abs a.now.mid ≤ 2 ^ 32 }
    requires b { unsigned_abs b.now.mid ≤ 2 ^ 32 }
    requires c { unsigned_abs c.now.mid ≤ 2 ^ 32 }
    requires d { unsigned_abs d.now.mid ≤ 2 ^ 32 }
    ensures value { result ≡ a.now.mid *ℤ b.now.mid -ℤ c.now.mid *ℤ d.now.mid }
    ensures size { unsigned_abs result ≤ 2 ^ 65 }
{
    fx_num::pair_difference(a, b, c, d)
}

/// `a b` for a factor `b` that is at most 1, rounded: no larger than `a`.
pub(crate) fn round_product(a: &Fix<32>, b: &Fix<32>) -> Fix<32>
    requires a { unsigned_abs a.now.mid ≤ 2 ^ 60 }
    requires b { unsigned_abs b.now.mid ≤ 2 ^ 32 }
    ensures value { result.mid ≡ spec.round (a.now.mid *ℤ b.now.mid) }
    ensures size { unsigned_abs result.mid ≤ unsigned_abs a.now.mid }
{
    rounded_product(a, b)
}

/// A matrix's row times a vector, rounded.
pub(crate) fn round_dot(row: &V3<Plain, 32>, v: &V3<Plain, 32>) -> Fix<32>
    requires row { Within (mids row.now) (2 ^ 35) }
    requires v { Within (mids v.now) (2 ^ 46) }
    ensures value { result.mid ≡ settling.along (mids row.now) (mids v.now) }
    ensures size { (limit : ℕ) → Within (mids v.now) limit
        → unsigned_abs result.mid ≤ 24 * limit }
    ensures sharp { (limit : ℕ) → Within (mids row.now) (2 ^ 32 + 16)
        → Within (mids v.now) limit → unsigned_abs result.mid ≤ 4 * limit }
{
    let mut total = none::<Plain, 64>();
    dot_into::<Plain, 32, 32, 64>(row, v, &mut total);
    round(&total.mid)
}
