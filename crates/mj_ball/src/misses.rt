// How far each row of M a = s is off.
ghost use Rattle.std.specs.Prelude.{◌≡◌, ℕ, length, ◌*◌, ◌^◌, ◌<◌, ◌≤◌, unsigned_abs, IfOk};
ghost use Rattle.fx_whole.specs.First.{refusal_of, first_to};
ghost use Rattle.mj_types.specs.Masses.{mass_at};
ghost use Rattle.mj_types.specs.Parts.{number_at};
ghost use Rattle.mj_ball.specs.Shifts as spec;

use fx_num::{Fix, Over};
use mj_factor::residual_of;
use mj_types::Mass;

// How far row `i` is off, at scale 72, where that is at most 2^116.
fn miss_of(mass: &Mass, a: &[Fix<32>], rhs: &[Fix<32>], i: usize) -> Result<u128, Over>
    requires few { length a.now ≤ 64 }
    requires room { length mass.now.m ≡ length a.now * length a.now }
    requires mass { (j : ℕ) → j < length a.now
        → unsigned_abs (mass_at (length a.now) mass.now.m i j) ≤ 2 ^ 60 }
    requires numbers { (j : ℕ) → j < length a.now → unsigned_abs (number_at a.now j) ≤ 2 ^ 56 }
    requires width { length rhs.now ≡ length a.now }
    requires row { i < length a.now }
    ensures value { IfOk result (λ y. y ≡ unsigned_abs (spec.missed (length a.now)
        (mass_at (length a.now) mass.now.m) (number_at a.now) (number_at rhs.now) i)) }
    ensures small { IfOk result (λ y. y ≤ 2 ^ 116) }
    ensures first { refusal_of result ≡ spec.too_large (spec.missed (length a.now)
        (mass_at (length a.now) mass.now.m) (number_at a.now) (number_at rhs.now) i) }
{
    let size = residual_of(mass, a, rhs, i);
    if size <= 1 << 116 {
        Ok(size)
    } else {
        Err(Over::Value)
    }
}

/// The sum of how far the rows are off, at scale 72, where none is more than 2^116 off.
pub(crate) fn total_missed(mass: &Mass, a: &[Fix<32>], rhs: &[Fix<32>]) -> Result<u128, Over>
    requires few { length a.now ≤ 64 }
    requires room { length mass.now.m ≡ length a.now * length a.now }
    requires mass { (i j : ℕ) → i < length a.now → j < length a.now
        → unsigned_abs (mass_at (length a.now) mass.now.m i j) ≤ 2 ^ 60 }
    requires numbers { (j : ℕ) → j < length a.now → unsigned_abs (number_at a.now j) ≤ 2 ^ 56 }
    requires width { length rhs.now ≡ length a.now }
    ensures value { IfOk result (λ y. y ≡ spec.total_missed (length a.now)
        (mass_at (length a.now) mass.now.m) (number_at a.now) (number_at rhs.now)) }
    ensures small { IfOk result (λ y. y ≤ 2 ^ 122) }
    ensures first { refusal_of result ≡ first_to (length a.now) (λ i. spec.too_large
        (spec.missed (length a.now) (mass_at (length a.now) mass.now.m) (number_at a.now)
        (number_at rhs.now) i)) }
{
    let mut total = 0u128;
    for i in 0..a.len() {
        let size = miss_of(mass, a, rhs, i)?;
        total += size;
    }
    Ok(total)
}
