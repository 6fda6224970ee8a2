// Rounding of sums, with the fault that names a number out of range.
ghost use Rattle.std.specs.Prelude.{◌≡◌, ◌+◌, ◌-◌, ◌≤◌, pos, ◌≤ℤ◌, unsigned_abs, IfOk, Some};
ghost use Rattle.fx_num.specs.Radii.{radius_limit};
ghost use Rattle.fx_num.specs.Settled.{settled_mid, rounding_loss, over};
ghost use Rattle.fx_vec.specs.Settling.{over6};
ghost use Rattle.fx_whole.specs.First.{refusal_of};
ghost use Rattle.mj_types.specs.Ranges.{named};
ghost use Rattle.mj_bias.specs.Measures as spec;

use fx_num::{Carry, Num, Over, Sum, settle};
use fx_vec::{Sp6, Sum6, settle6};
use mj_types::{OutOfRange, Quantity};

// The fault of a number that passes a limit: where its radius does, the kind is ErrorBound.
fn fault(over: Over, kind: Quantity, index: usize) -> OutOfRange
    ensures { Some result ≡ named kind index (Some over) }
{
    match over {
        Over::Value => OutOfRange { kind, index },
        Over::Radius => OutOfRange {
            kind: Quantity::ErrorBound,
            index,
        },
    }
}

// Six sums rounded by 32 bits.
pub(crate) fn settle_vector<K: Carry, const P: u32, const F: u32>(
    sum: &Sum6<K, P>,
    limit: i64,
    kind: Quantity,
    index: usize,
) -> Result<Sp6<K, F>, OutOfRange>
    requires scale { P ≡ F + 32 }
    requires limit { pos 0 ≤ℤ limit }
    ensures value { IfOk result (λ r. spec.numbers K.width r
        ≡ spec.settled_by K.settled 32 (spec.totals K.wide_width sum.now)) }
    ensures within { IfOk result (λ r.
        spec.IsWithin (spec.numbers K.width r) (unsigned_abs limit) radius_limit) }
    ensures first { refusal_of result ≡ named kind index (over6 (unsigned_abs limit)
        (spec.settled_by K.settled 32 (spec.totals K.wide_width sum.now)).value
        (spec.settled_by K.settled 32 (spec.totals K.wide_width sum.now)).width) }
{
    match settle6::<K, P, F>(sum, limit) {
        Ok(vector) => Ok(vector),
        Err(over) => Err(fault(over, kind, index)),
    }
}

// One sum rounded.
pub(crate) fn settle_number<K: Carry, const P: u32, const F: u32>(
    sum: &Sum<K, P>,
    limit: i64,
    kind: Quantity,
    index: usize,
) -> Result<Num<K, F>, OutOfRange>
    requires below { F ≤ P }
    requires in_width { P ≤ F + 126 }
    requires limit { pos 0 ≤ℤ limit }
    ensures mid { IfOk result (λ r. r.mid ≡ settled_mid sum.now.mid (P - F)) }
    ensures rad { IfOk result (λ r. K.width r.rad ≡ K.settled (K.wide_width sum.now.rad)
        (rounding_loss sum.now.mid (P - F)) (P - F)) }
    ensures within { IfOk result (λ r. unsigned_abs r.mid ≤ unsigned_abs limit) }
    ensures small { IfOk result (λ r. K.width r.rad ≤ radius_limit) }
    ensures first { refusal_of result ≡ named kind index (over (unsigned_abs limit)
        (settled_mid sum.now.mid (P - F)) (K.settled (K.wide_width sum.now.rad)
        (rounding_loss sum.now.mid (P - F)) (P - F))) }
{
    match settle::<K, P, F>(*sum, limit) {
        Ok(number) => Ok(number),
        Err(over) => Err(fault(over, kind, index)),
    }
}
