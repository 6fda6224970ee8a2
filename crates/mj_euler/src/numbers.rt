// A number after a time, and its range.
ghost use Rattle.std.specs.Prelude.{◌≡◌, ◌≢◌, ◌+◌, ◌^◌, ◌<◌, ◌≤◌, ℕ, pos, ◌≤ℤ◌, unsigned_abs, length, IfOk};
ghost use Rattle.fx_whole.specs.First.{refusal_of};
ghost use Rattle.fx_vec.specs.Quaternions.{quaternion};
ghost use Rattle.fx_vec.specs.Views.{mids};
ghost use Rattle.mj_types.specs.Parts.{number_at};
ghost use Rattle.mj_types.specs.Ranges.{limited};
ghost use Rattle.mj_euler.specs.Advance as spec;

use fx_list::Array;
use fx_num::{Fix, Number, Plain, Wide, narrow_within};
use fx_vec::{Q4, V3, Vector3};
use fx_whole::{nearest_shift, product, sum};
use mj_types::{OutOfRange, Quantity};

// x after the time h at the rate y.
pub(crate) fn after(h: &Fix<32>, x: &Fix<32>, y: &Fix<32>) -> Wide<32>
    requires x { unsigned_abs x.now.mid ≤ 2 ^ 52 }
    ensures { result.raw ≡ spec.after h.now.mid x.now.mid y.now.mid }
{
    Wide {
        raw: sum(i128::from(x.mid), nearest_shift(product(h.mid, y.mid), 32)),
    }
}

// `value` in 64 bits, where its size is at most `limit`; else its fault.
pub(crate) fn limited(
    value: &Wide<32>,
    limit: &Fix<32>,
    kind: Quantity,
    index: usize,
) -> Result<Fix<32>, OutOfRange>
    requires { pos 0 ≤ℤ limit.now.mid }
    ensures value { IfOk result (λ x. x.mid ≡ value.now.raw) }
    ensures within { IfOk result (λ x. unsigned_abs x.mid ≤ unsigned_abs limit.now.mid) }
    ensures first { refusal_of result
        ≡ limited kind index (unsigned_abs limit.now.mid) value.now.raw }
{
    match narrow_within(&value.raw, limit.mid) {
        Ok(mid) => Ok(Number { mid, rad: () }),
        Err(_) => Err(OutOfRange { kind, index }),
    }
}

// The four numbers of a list from a place on. The length is asked for, since it shows that places fit.
pub(crate) fn quaternion_from(q: &Array<Fix<32>>, p: usize) -> Q4
    requires { p + 4 ≤ length q.now }
    ensures { quaternion result ≡ spec.quaternion_from q.now p }
{
    let _room = q.len();
    Q4 {
        w: q.at(p),
        x: q.at(p + 1),
        y: q.at(p + 2),
        z: q.at(p + 3),
    }
}

// Three numbers of a list from a place on.
pub(crate) fn triple_from(v: &Array<Fix<32>>, d: usize) -> V3<Plain, 32>
    requires { d + 3 ≤ length v.now }
    ensures { mids result ≡ spec.triple_from (number_at v.now) d }
{
    let _room = v.len();
    Vector3 {
        x: v.at(d),
        y: v.at(d + 1),
        z: v.at(d + 2),
    }
}

// Writes a quaternion's numbers from a place on.
pub(crate) fn put_quaternion(q: &mut Array<Fix<32>>, p: usize, x: &Q4)
    requires { p + 4 ≤ length q.old }
    ensures len { length q.new ≡ length q.old }
    ensures same { spec.quaternion_from q.new p ≡ quaternion x.now }
    ensures others { (k : ℕ) → k ≢ p → k ≢ p + 1 → k ≢ p + 2 → k ≢ p + 3
        → number_at q.new k ≡ number_at q.old k }
{
    let _room = q.len();
    q.put(p, x.w);
    q.put(p + 1, x.x);
    q.put(p + 2, x.y);
    q.put(p + 3, x.z);
}
