// Rounding of an exact sum to a lower scale.
ghost use Rattle.std.specs.Prelude.{◌≡◌, ◌+◌, ◌-◌, ◌*◌, ◌^◌, ◌<◌, ◌≤◌, pos, ◌-ℤ◌, ◌*ℤ◌, ◌≤ℤ◌, unsigned_abs, IfOk};
ghost use Rattle.fx_whole.specs.Nearest.{nearest as nearest_lem};
ghost use Rattle.fx_num.specs.Radii.{radius_limit};
ghost use Rattle.fx_whole.specs.First.{refusal_of};
ghost use Rattle.fx_num.specs.Settled as spec;

use crate::carry::{Carry, Over, Plain};
use crate::limits::{narrow_within, nearest_within, nearest_within_by_half};
use crate::number::{Fix, Num, Number, Sum, Wide};
use fx_whole::{nearest_shift, product, rounding_rest};

/// `|n - value 2^shift|` for the `value` nearest to `n / 2^shift`. The product may need one bit more
/// than an i128 has, so the sizes are subtracted.
fn lost(n: i128, value: i128, shift: u32) -> i128
    requires in_width { shift ≤ 126 }
    requires rounded { value ≡ nearest_lem n (pos (2 ^ shift)) }
    ensures { result ≡ pos (unsigned_abs (n -ℤ value *ℤ pos (2 ^ shift))) }
{
    let size = value.unsigned_abs() << shift;
    size.abs_diff(n.unsigned_abs()).cast_signed()
}

/// `lost` where the difference fits, by the 64 bits of what is left.
fn short_lost(n: &i128, value: &i64, shift: u32) -> i128
    requires in_width { shift ≤ 63 }
    requires small { unsigned_abs n.now < 2 ^ 126 }
    requires rounded { value.now ≡ nearest_lem n.now (pos (2 ^ shift)) }
    ensures { result ≡ pos (unsigned_abs (n.now -ℤ value.now *ℤ pos (2 ^ shift))) }
{
    i128::from(rounding_rest(n, value, shift).unsigned_abs())
}

/// `settle` by 1 to 63 bits: the limit is judged before the sum is rounded, and what the rounding
/// loses needs no more than 64 bits.
fn settle_by_half<K: Carry, const P: u32, const F: u32>(
    acc: &Sum<K, P>,
    limit: i64,
) -> Result<Num<K, F>, Over>
    requires below { F + 1 ≤ P }
    requires in_width { P ≤ F + 63 }
    requires room { unsigned_abs limit < 2 ^ 63 }
    requires limit { pos 0 ≤ℤ limit }
    ensures mid { IfOk result (λ r. r.mid ≡ spec.settled_mid acc.now.mid (P - F)) }
    ensures within { IfOk result (λ r. unsigned_abs r.mid ≤ unsigned_abs limit) }
    ensures rad { IfOk result (λ r. K.width r.rad
        ≡ K.settled (K.wide_width acc.now.rad) (spec.rounding_loss acc.now.mid (P - F)) (P - F)) }
    ensures small { IfOk result (λ r. K.width r.rad ≤ radius_limit) }
    ensures first { refusal_of result
        ≡ spec.over (unsigned_abs limit) (spec.settled_mid acc.now.mid (P - F))
        (K.settled (K.wide_width acc.now.rad) (spec.rounding_loss acc.now.mid (P - F)) (P - F)) }
{
    let shift = P - F;
    match nearest_within_by_half(&acc.mid, &limit, shift) {
        Ok(mid) => match K::cut(acc.rad, short_lost(&acc.mid, &mid, shift), shift) {
            Ok(rad) => Ok(Number { mid, rad }),
            Err(over) => Err(over),
        },
        Err(over) => Err(over),
    }
}

/// `settle` by every number of bits up to 126.
fn settle_by_size<K: Carry, const P: u32, const F: u32>(
    acc: Sum<K, P>,
    limit: i64,
) -> Result<Num<K, F>, Over>
    requires below { F ≤ P }
    requires in_width { P ≤ F + 126 }
    requires limit { pos 0 ≤ℤ limit }
    ensures mid { IfOk result (λ r. r.mid ≡ spec.settled_mid acc.mid (P - F)) }
    ensures within { IfOk result (λ r. unsigned_abs r.mid ≤ unsigned_abs limit) }
    ensures rad { IfOk result (λ r. K.width r.rad
        ≡ K.settled (K.wide_width acc.rad) (spec.rounding_loss acc.mid (P - F)) (P - F)) }
    ensures small { IfOk result (λ r. K.width r.rad ≤ radius_limit) }
    ensures first { refusal_of result
        ≡ spec.over (unsigned_abs limit) (spec.settled_mid acc.mid (P - F))
        (K.settled (K.wide_width acc.rad) (spec.rounding_loss acc.mid (P - F)) (P - F)) }
{
    let shift = P - F;
    let value = nearest_shift(acc.mid, shift);
    match narrow_within(&value, limit) {
        Ok(mid) => match K::cut(acc.rad, lost(acc.mid, value, shift), shift) {
            Ok(rad) => Ok(Number { mid, rad }),
            Err(over) => Err(over),
        },
        Err(over) => Err(over),
    }
}

/// The sum at scale `P` rounded to scale `F`, a tie to the number nearer to zero, with the radius that
/// covers the sum's width and the rounding. `Over::Value` exactly where the value passes `limit` in
/// size, else `Over::Radius` exactly where the radius passes 2^40.
pub fn settle<K: Carry, const P: u32, const F: u32>(
    acc: Sum<K, P>,
    limit: i64,
) -> Result<Num<K, F>, Over>
    requires below { F ≤ P }
    requires in_width { P ≤ F + 126 }
    requires limit { pos 0 ≤ℤ limit }
    ensures mid { IfOk result (λ r. r.mid ≡ spec.settled_mid acc.mid (P - F)) }
    ensures within { IfOk result (λ r. unsigned_abs r.mid ≤ unsigned_abs limit) }
    ensures rad { IfOk result (λ r. K.width r.rad
        ≡ K.settled (K.wide_width acc.rad) (spec.rounding_loss acc.mid (P - F)) (P - F)) }
    ensures small { IfOk result (λ r. K.width r.rad ≤ radius_limit) }
    ensures first { refusal_of result
        ≡ spec.over (unsigned_abs limit) (spec.settled_mid acc.mid (P - F))
        (K.settled (K.wide_width acc.rad) (spec.rounding_loss acc.mid (P - F)) (P - F)) }
{
    if F < P && P - F <= 63 {
        settle_by_half::<K, P, F>(&acc, limit)
    } else {
        settle_by_size::<K, P, F>(acc, limit)
    }
}

/// `settle` of a plain sum, which has no radius to refuse. `Over::Value` exactly where the value
/// passes `limit` in size.
pub fn settle_plain<const P: u32, const F: u32>(
    acc: &Sum<Plain, P>,
    limit: i64,
) -> Result<Fix<F>, Over>
    requires below { F ≤ P }
    requires in_width { P ≤ F + 126 }
    requires limit { pos 0 ≤ℤ limit }
    ensures mid { IfOk result (λ r. r.mid ≡ spec.settled_mid acc.now.mid (P - F)) }
    ensures within { IfOk result (λ r. unsigned_abs r.mid ≤ unsigned_abs limit) }
    ensures first { refusal_of result
        ≡ spec.over_value (unsigned_abs limit) (spec.settled_mid acc.now.mid (P - F)) }
{
    match nearest_within(&acc.mid, limit, P - F) {
        Ok(mid) => Ok(Number { mid, rad: () }),
        Err(over) => Err(over),
    }
}

/// The number at scale `P` rounded to scale `F`, of any size.
pub fn lower<const P: u32, const F: u32>(n: &Wide<P>) -> Wide<F>
    requires below { F ≤ P }
    requires in_width { P ≤ F + 126 }
    ensures { result.raw ≡ spec.settled_mid n.now.raw (P - F) }
{
    Wide {
        raw: nearest_shift(n.raw, P - F),
    }
}

/// `a b` at scale 32, rounded once. `Over::Value` exactly where it passes `limit` in size.
pub fn times(a: &Fix<32>, b: &Fix<32>, limit: i64) -> Result<Fix<32>, Over>
    requires { pos 0 ≤ℤ limit }
    ensures mid { IfOk result (λ r. r.mid ≡ spec.settled_mid (a.now.mid *ℤ b.now.mid) 32) }
    ensures within { IfOk result (λ r. unsigned_abs r.mid ≤ unsigned_abs limit) }
    ensures first { refusal_of result
        ≡ spec.over_value (unsigned_abs limit) (spec.settled_mid (a.now.mid *ℤ b.now.mid) 32) }
{
    match nearest_within(&product(a.mid, b.mid), limit, 32) {
        Ok(mid) => Ok(Number { mid, rad: () }),
        Err(over) => Err(over),
    }
}
