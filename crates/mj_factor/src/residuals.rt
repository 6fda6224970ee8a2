// How far a solve's answer is off.
ghost use Rattle.std.specs.Prelude.{◌≡◌, ℕ, pos, ◌*◌, ◌^◌, ◌<◌, ◌≤◌, ◌*ℤ◌, unsigned_abs, length};
ghost use Rattle.fx_whole.specs.Sums.{sum_to};
ghost use Rattle.mj_types.specs.Parts.{number_at};
ghost use Rattle.mj_types.specs.Masses.{mass_at};
ghost use Rattle.mj_factor.specs.Residuals as spec;

use crate::numbers::{mass_of, plus_product};
use fx_num::{Fix, Wide};
use fx_whole::{difference, scale_up};
use mj_types::Mass;

/// Row `i` of the mass matrix times `a`.
pub fn row_times(mass: &Mass, a: &[Fix<32>], i: usize) -> Wide<72>
    requires few { length a.now ≤ 64 }
    requires room { length mass.now.m ≡ length a.now * length a.now }
    requires mass { (j : ℕ) → j < length a.now
        → unsigned_abs (mass_at (length a.now) mass.now.m i j) ≤ 2 ^ 60 }
    requires numbers { (j : ℕ) → j < length a.now → unsigned_abs (number_at a.now j) ≤ 2 ^ 56 }
    requires row { i < length a.now }
    ensures sum { result.raw ≡ sum_to (length a.now) (λ j.
        mass_at (length a.now) mass.now.m i j *ℤ number_at a.now j) }
    ensures small { unsigned_abs result.raw ≤ 2 ^ 122 }
{
    let mut sum = Wide { raw: 0 };
    for j in 0..a.len() {
        sum = plus_product(&sum, &mass_of(mass, a.len(), i, j), &a[j]);
    }
    sum
}

/// How far row `i` of `M a = rhs` is off, at scale 72.
pub fn residual_of(mass: &Mass, a: &[Fix<32>], rhs: &[Fix<32>], i: usize) -> u128
    requires few { length a.now ≤ 64 }
    requires room { length mass.now.m ≡ length a.now * length a.now }
    requires mass { (j : ℕ) → j < length a.now
        → unsigned_abs (mass_at (length a.now) mass.now.m i j) ≤ 2 ^ 60 }
    requires numbers { (j : ℕ) → j < length a.now → unsigned_abs (number_at a.now j) ≤ 2 ^ 56 }
    requires width { length rhs.now ≡ length a.now }
    requires row { i < length a.now }
    ensures value { result ≡ spec.residual_at (length a.now)
        (mass_at (length a.now) mass.now.m) (number_at a.now) (number_at rhs.now) i }
    ensures small { result < 2 ^ 127 }
{
    let product = row_times(mass, a, i);
    difference(product.raw, scale_up(rhs[i].mid, 40)).unsigned_abs()
}

/// The largest `|M a - rhs|` of a row, at scale 72.
pub fn residual(mass: &Mass, a: &[Fix<32>], rhs: &[Fix<32>]) -> i128
    requires few { length a.now ≤ 64 }
    requires room { length mass.now.m ≡ length a.now * length a.now }
    requires mass { (i j : ℕ) → i < length a.now → j < length a.now
        → unsigned_abs (mass_at (length a.now) mass.now.m i j) ≤ 2 ^ 60 }
    requires numbers { (j : ℕ) → j < length a.now → unsigned_abs (number_at a.now j) ≤ 2 ^ 56 }
    requires width { length rhs.now ≡ length a.now }
    ensures { result ≡ pos (spec.greatest_to (length a.now) (spec.residual_at (length a.now)
        (mass_at (length a.now) mass.now.m) (number_at a.now) (number_at rhs.now))) }
{
    let mut greatest = 0u128;
    for i in 0..a.len() {
        greatest = greatest.max(residual_of(mass, a, rhs, i));
    }
    greatest.cast_signed()
}
