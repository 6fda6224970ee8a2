// Exact sums of products, one rounding, and ranges.
ghost use Rattle.std.specs.Prelude.{◌≡◌, ℕ, pos, length, ◌+◌, ◌*◌, ◌^◌, ◌<◌, ◌≤◌, ◌+ℤ◌, ◌-ℤ◌, ◌*ℤ◌, ◌≤ℤ◌, ◌<ℤ◌, unsigned_abs, IfOk};
ghost use Rattle.fx_whole.specs.First.{refusal_of};
ghost use Rattle.fx_whole.specs.Nearest.{nearest as nearest_lem};
ghost use Rattle.mj_types.specs.Duals.{wide_at};
ghost use Rattle.mj_types.specs.Ranges.{limited};
ghost use Rattle.mj_types.specs.Masses as masses;
ghost use Rattle.mj_quadratic.specs.Forms.{less_diagonal};
ghost use Rattle.mj_factor.specs.Solves as solves;
ghost use Rattle.mj_factor.specs.Stored as spec;

use fx_num::{Fix, Number, Wide, narrow_within};
use fx_whole::{
    Divisor, add_product, difference, isqrt, narrow, nearest, nearest_by, nearest_shift, scale_up,
};
use mj_types::{Mass, OutOfRange, Quantity};

/// A sum for each dof and one more, each 0.
pub(crate) fn no_sums<const P: u32>() -> [Wide<P>; 65]
    ensures width { length result ≡ 65 }
    ensures none { (c : ℕ) → wide_at result c ≡ pos 0 }
{
    [Wide { raw: 0 }; 65]
}

/// `sum + a b`.
pub(crate) fn plus_product<const A: u32, const B: u32, const P: u32>(
    sum: &Wide<P>,
    a: &Fix<A>,
    b: &Fix<B>,
) -> Wide<P>
    requires { unsigned_abs sum.now.raw + unsigned_abs a.now.mid * unsigned_abs b.now.mid
        < 2 ^ 127 }
    ensures { result.raw ≡ sum.now.raw +ℤ a.now.mid *ℤ b.now.mid }
{
    Wide {
        raw: add_product(sum.raw, a.mid, b.mid),
    }
}

/// Row `i` and column `j` of a mass matrix of width `n`.
pub fn mass_of(mass: &Mass, n: usize, i: usize, j: usize) -> Fix<40>
    requires few { n ≤ 64 }
    requires room { length mass.now.m ≡ n * n }
    requires row { i < n }
    requires column { j < n }
    ensures { result.mid ≡ masses.mass_at n mass.now.m i j }
{
    Number {
        mid: mass.m.entry(i * n + j).mid,
        rad: (),
    }
}

/// Row `k` of the diagonal of a mass matrix of width `n`, less `shift`.
pub(crate) fn diagonal(mass: &Mass, n: usize, k: usize, shift: &Fix<40>) -> Fix<40>
    requires few { n ≤ 64 }
    requires room { length mass.now.m ≡ n * n }
    requires row { k < n }
    requires mass { unsigned_abs (masses.mass_at n mass.now.m k k) ≤ 2 ^ 60 }
    requires shift { unsigned_abs shift.now.mid ≤ 2 ^ 60 }
    ensures { result.mid ≡ less_diagonal shift.now.mid (masses.mass_at n mass.now.m) k k }
{
    minus(&mass_of(mass, n, k, k), shift)
}

// `a - b`.
fn minus(a: &Fix<40>, b: &Fix<40>) -> Fix<40>
    requires first { unsigned_abs a.now.mid ≤ 2 ^ 60 }
    requires second { unsigned_abs b.now.mid ≤ 2 ^ 60 }
    ensures { result.mid ≡ a.now.mid -ℤ b.now.mid }
{
    Number {
        mid: a.mid - b.mid,
        rad: (),
    }
}

/// `x` less a sum of products at a scale 32 higher, which is rounded.
pub(crate) fn less<const F: u32, const P: u32>(x: &Fix<F>, sum: &Wide<P>) -> Wide<F>
    requires { unsigned_abs sum.now.raw ≤ 2 ^ 116 }
    ensures value { result.raw ≡ spec.less x.now.mid sum.now.raw }
    ensures small { unsigned_abs result.raw ≤ 2 ^ 117 }
{
    Wide {
        raw: difference(i128::from(x.mid), nearest_shift(sum.raw, 32)),
    }
}

/// What is divided by a pivot is divided by.
pub(crate) fn divisor(pivot: &Fix<40>) -> Divisor
    requires least { pos (2 ^ 10) ≤ℤ pivot.now.mid }
    requires most { pivot.now.mid ≤ℤ pos (2 ^ 60) }
    ensures { result.d ≡ pivot.now.mid }
{
    Divisor::new(i128::from(pivot.mid))
}

/// `w / d` at scale 32, rounded.
pub(crate) fn quotient(w: &Fix<40>, by: &Divisor) -> Wide<32>
    ensures { result.raw ≡ spec.quotient w.now.mid by.now.d }
{
    Wide {
        raw: nearest_by(scale_up(w.mid, 32), by),
    }
}

/// `y / d` of a number at scale 32, rounded.
pub(crate) fn over_pivot(y: &Fix<32>, d: &Fix<40>) -> Wide<32>
    requires { pos (2 ^ 10) ≤ℤ d.now.mid }
    ensures { result.raw ≡ nearest_lem (y.now.mid *ℤ pos (2 ^ 40)) d.now.mid }
{
    Wide {
        raw: nearest(scale_up(y.mid, 40), i128::from(d.mid)),
    }
}

/// The root of a pivot, rounded down.
pub(crate) fn pivot_root(d: &Fix<40>) -> Fix<32>
    requires least { pos (2 ^ 10) ≤ℤ d.now.mid }
    requires most { d.now.mid ≤ℤ pos (2 ^ 60) }
    ensures { result.mid ≡ solves.pivot_root d.now.mid }
{
    Fix::from_raw(narrow(isqrt(scale_up(d.mid, 24))))
}

/// `y / root` of a number at scale 32, at scale 24, rounded.
pub(crate) fn over_root(y: &Fix<32>, root: &Fix<32>) -> Wide<24>
    requires { pos 0 <ℤ root.now.mid }
    ensures { result.raw ≡ nearest_lem (y.now.mid *ℤ pos (2 ^ 24)) root.now.mid }
{
    if y.mid == 0 {
        return Wide { raw: 0 };
    }
    Wide {
        raw: nearest(scale_up(y.mid, 24), i128::from(root.mid)),
    }
}

/// `value` in 64 bits, where its size is at most `limit`; else its fault.
pub(crate) fn limited<const F: u32>(
    value: &Wide<F>,
    limit: i64,
    kind: Quantity,
    index: usize,
) -> Result<Fix<F>, OutOfRange>
    requires { pos 0 ≤ℤ limit }
    ensures value { IfOk result (λ x. x.mid ≡ value.now.raw) }
    ensures within { IfOk result (λ x. unsigned_abs x.mid ≤ unsigned_abs limit) }
    ensures first { refusal_of result ≡ limited kind index (unsigned_abs limit) value.now.raw }
{
    match narrow_within(&value.raw, limit) {
        Ok(mid) => Ok(Number { mid, rad: () }),
        Err(_) => Err(OutOfRange { kind, index }),
    }
}
