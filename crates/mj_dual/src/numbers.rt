// Exact sums of products, one rounding, and ranges.
ghost use Rattle.std.specs.Prelude.{◌≡◌, ℕ, pos, length, ◌+◌, ◌^◌, ◌<◌, ◌≤◌, ◌+ℤ◌, ◌*ℤ◌, ◌≤ℤ◌, unsigned_abs, IfOk};
ghost use Rattle.fx_whole.specs.First.{refusal_of};
ghost use Rattle.fx_whole.specs.Sums.{sum_to};
ghost use Rattle.fx_num.specs.Settled.{settled_mid};
ghost use Rattle.mj_types.specs.declared.range.Quantity.TheVariants as kind;
ghost use Rattle.mj_types.specs.Parts.{number_at};
ghost use Rattle.mj_types.specs.Ranges as ranges;
ghost use Rattle.mj_dual.specs.Products as spec;

use fx_num::{Fix, Number, Wide, narrow_within};
use fx_whole::{add_product, nearest_shift};
use mj_types::{OutOfRange, Quantity};

// `total + a b`.
fn plus_product(total: &Wide<64>, a: &Fix<32>, b: &Fix<32>) -> Wide<64>
    requires total { unsigned_abs total.now.raw ≤ 2 ^ 111 }
    requires a { unsigned_abs a.now.mid ≤ 2 ^ 48 }
    requires b { unsigned_abs b.now.mid ≤ 2 ^ 56 }
    ensures value { result.raw ≡ total.now.raw +ℤ a.now.mid *ℤ b.now.mid }
    ensures size { unsigned_abs result.raw ≤ unsigned_abs total.now.raw + 2 ^ 104 }
{
    Wide {
        raw: add_product(total.raw, a.mid, b.mid),
    }
}

// `total + x^2`.
fn plus_square(total: &Wide<48>, x: &Fix<24>) -> Wide<48>
    requires total { unsigned_abs total.now.raw ≤ 2 ^ 95 }
    requires x { unsigned_abs x.now.mid ≤ 2 ^ 44 }
    ensures value { result.raw ≡ total.now.raw +ℤ x.now.mid *ℤ x.now.mid }
    ensures size { unsigned_abs result.raw ≤ unsigned_abs total.now.raw + 2 ^ 88 }
{
    Wide {
        raw: add_product(total.raw, x.mid, x.mid),
    }
}

// The exact sum of `j x`.
fn dot(j: &[Fix<32>], x: &[Fix<32>]) -> Wide<64>
    requires few { length j.now ≤ 64 }
    requires width { length x.now ≡ length j.now }
    requires jacobian { (k : ℕ) → k < length j.now → unsigned_abs (number_at j.now k) ≤ 2 ^ 48 }
    requires numbers { (k : ℕ) → k < length j.now → unsigned_abs (number_at x.now k) ≤ 2 ^ 56 }
    ensures value { result.raw
        ≡ sum_to (length j.now) (λ k. number_at j.now k *ℤ number_at x.now k) }
    ensures size { unsigned_abs result.raw ≤ 2 ^ 110 }
{
    let mut total = Wide { raw: 0 };
    for k in 0..j.len() {
        total = plus_product(&total, &j[k], &x[k]);
    }
    total
}

/// `J x`, rounded once.
pub fn along(j: &[Fix<32>], x: &[Fix<32>]) -> Wide<32>
    requires few { length j.now ≤ 64 }
    requires width { length x.now ≡ length j.now }
    requires jacobian { (k : ℕ) → k < length j.now → unsigned_abs (number_at j.now k) ≤ 2 ^ 48 }
    requires numbers { (k : ℕ) → k < length j.now → unsigned_abs (number_at x.now k) ≤ 2 ^ 56 }
    ensures value { result.raw ≡ spec.along (length j.now) (number_at j.now) (number_at x.now) }
    ensures small { unsigned_abs result.raw ≤ 2 ^ 79 }
{
    rounded(&dot(j, x))
}

// A sum of products, rounded to scale 32.
fn rounded(sum: &Wide<64>) -> Wide<32>
    requires { unsigned_abs sum.now.raw ≤ 2 ^ 110 }
    ensures value { result.raw ≡ settled_mid sum.now.raw 32 }
    ensures small { unsigned_abs result.raw ≤ 2 ^ 79 }
{
    Wide {
        raw: nearest_shift(sum.raw, 32),
    }
}

/// The sum of the squares.
pub(crate) fn square_sum(g: &[Fix<24>]) -> Wide<48>
    requires few { length g.now ≤ 64 }
    requires small { (k : ℕ) → k < length g.now → unsigned_abs (number_at g.now k) ≤ 2 ^ 44 }
    ensures value { result.raw ≡ spec.square_sum (length g.now) (number_at g.now) }
    ensures size { unsigned_abs result.raw ≤ 2 ^ 94 }
    ensures low { pos 0 ≤ℤ result.raw }
{
    let mut total = Wide { raw: 0 };
    for k in 0..g.len() {
        total = plus_square(&total, &g[k]);
    }
    total
}

/// `value` in 64 bits, where its size is at most `limit`; else its fault.
pub fn limited<const F: u32>(
    value: &Wide<F>,
    limit: i64,
    kind: Quantity,
    index: usize,
) -> Result<Fix<F>, OutOfRange>
    requires { pos 0 ≤ℤ limit }
    ensures value { IfOk result (λ x. x.mid ≡ value.now.raw) }
    ensures within { IfOk result (λ x. unsigned_abs x.mid ≤ unsigned_abs limit) }
    ensures first { refusal_of result
        ≡ ranges.limited kind index (unsigned_abs limit) value.now.raw }
{
    match narrow_within(&value.raw, limit) {
        Ok(mid) => Ok(Number { mid, rad: () }),
        Err(_) => Err(OutOfRange { kind, index }),
    }
}

/// `value`, where its size is at most 2^72; else the fault of a regularizer.
pub(crate) fn within_regular(value: &Wide<48>, index: usize) -> Result<Wide<48>, OutOfRange>
    ensures value { IfOk result (λ x. x ≡ value.now) }
    ensures within { IfOk result (λ x. unsigned_abs x.raw ≤ 2 ^ 72) }
    ensures first { refusal_of result
        ≡ ranges.limited kind.Regularizer index (2 ^ 72) value.now.raw }
{
    if value.raw.unsigned_abs() <= 1 << 72 {
        Ok(*value)
    } else {
        Err(OutOfRange {
            kind: Quantity::Regularizer,
            index,
        })
    }
}
