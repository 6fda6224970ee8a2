// Exact sums of products of numbers at scale 32, and their one rounding.
ghost use Rattle.std.specs.Prelude.{◌≡◌, ℕ, ◌+◌, ◌*◌, ◌^◌, ◌<◌, ◌≤◌, ◌==◌, ◌+ℤ◌, ◌-ℤ◌, ◌*ℤ◌, pos, unsigned_abs, length, IfOk};
ghost use Rattle.fx_num.specs.Settled.{settled_mid};
ghost use Rattle.fx_whole.specs.First.{refusal_of};
ghost use Rattle.fx_whole.specs.Sums.{when};
ghost use Rattle.mj_types.specs.Duals.{wide_at};
ghost use Rattle.mj_types.specs.Ranges.{limited};

use fx_num::{Fix, Number, Wide, narrow_within};
use fx_whole::{add_product, difference, nearest_shift, product, sum};
use mj_types::{OutOfRange, Quantity};

/// `total + a b`.
pub(crate) fn plus_product(total: &Wide<64>, a: &Fix<32>, b: &Fix<32>) -> Wide<64>
    requires { unsigned_abs total.now.raw + unsigned_abs a.now.mid * unsigned_abs b.now.mid
        < 2 ^ 127 }
    ensures value { result.raw ≡ total.now.raw +ℤ a.now.mid *ℤ b.now.mid }
    ensures size { unsigned_abs result.raw
        ≤ unsigned_abs total.now.raw + unsigned_abs a.now.mid * unsigned_abs b.now.mid }
{
    Wide {
        raw: add_product(total.raw, a.mid, b.mid),
    }
}

/// `total - a b`.
pub(crate) fn minus_product(total: &Wide<64>, a: &Fix<32>, b: &Fix<32>) -> Wide<64>
    requires { unsigned_abs total.now.raw + unsigned_abs a.now.mid * unsigned_abs b.now.mid
        < 2 ^ 127 }
    ensures value { result.raw ≡ total.now.raw -ℤ a.now.mid *ℤ b.now.mid }
    ensures size { unsigned_abs result.raw
        ≤ unsigned_abs total.now.raw + unsigned_abs a.now.mid * unsigned_abs b.now.mid }
{
    Wide {
        raw: difference(total.raw, product(a.mid, b.mid)),
    }
}

/// `a - b`.
pub(crate) fn less(a: &Fix<32>, b: &Fix<32>) -> Fix<32>
    requires a { unsigned_abs a.now.mid ≤ 2 ^ 52 }
    requires b { unsigned_abs b.now.mid ≤ 2 ^ 52 }
    ensures value { result.mid ≡ a.now.mid -ℤ b.now.mid }
    ensures size { unsigned_abs result.mid ≤ 2 ^ 53 }
{
    Number {
        mid: a.mid - b.mid,
        rad: (),
    }
}

/// A sum of products rounded to scale 32, where its size is then at most 2^52; else its fault.
pub(crate) fn settled(total: &Wide<64>, kind: Quantity, index: usize) -> Result<Fix<32>, OutOfRange>
    ensures value { IfOk result (λ x. x.mid ≡ settled_mid total.now.raw 32) }
    ensures within { IfOk result (λ x. unsigned_abs x.mid ≤ 2 ^ 52) }
    ensures first { refusal_of result
        ≡ limited kind index (2 ^ 52) (settled_mid total.now.raw 32) }
{
    match narrow_within(&nearest_shift(total.raw, 32), 1 << 52) {
        Ok(mid) => Ok(Number { mid, rad: () }),
        Err(_) => Err(OutOfRange { kind, index }),
    }
}

/// A sum for each of at most 64, each 0.
pub(crate) fn no_sums() -> [Wide<64>; 64]
    ensures { (p : ℕ) → wide_at result p ≡ pos 0 }
{
    [Wide { raw: 0 }; 64]
}

/// Adds `x` to the sum at a place.
pub(crate) fn add_at(sums: &mut [Wide<64>], place: usize, x: &Wide<64>)
    requires place { place < length sums.old }
    requires total { unsigned_abs (wide_at sums.old place) ≤ 2 ^ 120 }
    requires small { unsigned_abs x.now.raw ≤ 2 ^ 120 }
    ensures { (p : ℕ) → wide_at sums.new p ≡ wide_at sums.old p +ℤ when (p == place) x.now.raw }
{
    sums[place] = Wide {
        raw: sum(sums[place].raw, x.raw),
    };
}
