// Keys judged in a walk, which keeps the first refusal.
ghost use Rattle.std.specs.Prelude.{◌≡◌, ◌^◌, pos, Result};
ghost use Rattle.mj_types.specs.declared.status.ModelCode.{ModelCode};
ghost use Rattle.mj_form.specs.Reading as reading;
ghost use Rattle.mj_form.specs.Reading.{Reads};
ghost use Rattle.mj_form.specs.Steps.{Step};
ghost use Rattle.mj_judge.specs.Judged as judged;
ghost use Rattle.mj_judge.specs.Numbers as numbers;
ghost use Rattle.mj_judge.specs.Vectors as vectors;
ghost use Rattle.mj_judge.specs.Softness as softness;
ghost use Rattle.mj_judge.specs.Choices as choices;

use crate::choices;
use crate::numbers::{between, entry, small, unless, whole};
use crate::softness::{Solimp, Solref, impedance, reference, soft};
use crate::vectors::{axis, diagonal, rotation, vector};
use fx_list::{Array, Text};
use fx_num::{Fix, Number, Plain};
use fx_vec::{Q4, V3, Vector3};
use mj_form::{Refusal, Walker, refuse};
use mj_types::{ModelCode, ModelFault, Range, Soft};
use std::alloc::Global;

/// What is judged at a key: a fault gets the key as its path.
fn at_key<A>(
    alloc: Global,
    key: &str,
    judged: Result<A, ModelCode>,
) -> Result<A, Refusal<ModelFault>>
    ensures { Reads result (reading.at_key key.now judged) }
{
    match judged {
        Ok(x) => Ok(x),
        Err(code) => refuse(alloc, code, key.as_bytes()),
    }
}

/// Judges a key: what is wrong with it is refused at the key.
pub fn judge<A: Drop>(w: &mut Walker, key: &str, judged: Result<A, ModelCode>, blank: A) -> A
    ensures { (judgement : Result A ModelCode) → judged ≡ judgement
        → Step w.old.refusal w.new.refusal result (reading.at_key key.now judgement) }
{
    let read = at_key(w.alloc, key, judged);
    w.keep(read, blank)
}

/// Refuses the key in that way, unless this holds.
pub fn judge_whether(w: &mut Walker, key: &str, good: bool, wrong: ModelCode)
    ensures { Step w.old.refusal w.new.refusal tt
        (reading.at_key key.now (judged.unless good wrong)) }
{
    judge(w, key, unless(good, wrong), ())
}

/// Judges a number that is from the least to the most.
pub fn judge_number<const F: u32>(
    w: &mut Walker,
    key: &str,
    x: &Fix<F>,
    least: &i64,
    most: &i64,
) -> Fix<F>
    ensures { Step w.old.refusal w.new.refusal result
        (reading.at_key key.now (numbers.between least.now most.now x.now)) }
{
    judge(w, key, between(x, least, most), Number::from_raw(0))
}

/// Judges a number that has at most a size.
pub fn judge_size<const F: u32>(w: &mut Walker, key: &str, x: &Fix<F>, limit: u64) -> Fix<F>
    ensures { Step w.old.refusal w.new.refusal result
        (reading.at_key key.now (numbers.small limit x.now)) }
{
    judge(w, key, small(x, limit), Number::from_raw(0))
}

/// Judges an integer that is from the least to the most.
pub fn judge_whole(w: &mut Walker, key: &str, n: &i64, least: u32, most: u32) -> u32
    ensures { Step w.old.refusal w.new.refusal result
        (reading.at_key key.now (numbers.whole least most n.now)) }
{
    judge(w, key, whole(n, least, most), 0)
}

/// A vector that stands where none was judged.
fn no_vector<const F: u32>() -> V3<Plain, F> {
    Vector3 {
        x: Number::from_raw(0),
        y: Number::from_raw(0),
        z: Number::from_raw(0),
    }
}

/// Judges a vector whose numbers have at most a size.
pub fn judge_vector(w: &mut Walker, key: &str, xs: &Array<Fix<32>>, limit: u64) -> V3<Plain, 32>
    ensures { Step w.old.refusal w.new.refusal result
        (reading.at_key key.now (vectors.vector limit xs.now)) }
{
    judge(w, key, vector(xs, limit), no_vector())
}

/// Judges a diagonal inertia.
pub fn judge_diagonal(w: &mut Walker, key: &str, xs: &Array<Fix<40>>) -> V3<Plain, 40>
    ensures { Step w.old.refusal w.new.refusal result
        (reading.at_key key.now (vectors.diagonal xs.now)) }
{
    judge(w, key, diagonal(xs), no_vector())
}

/// Judges an axis, which is made a unit.
pub fn judge_axis(w: &mut Walker, key: &str, xs: &Array<Fix<32>>) -> V3<Plain, 32>
    ensures { Step w.old.refusal w.new.refusal result
        (reading.at_key key.now (vectors.axis xs.now)) }
{
    judge(w, key, axis(xs), no_vector())
}

/// No rotation.
pub fn unturned() -> Q4
    ensures { result ≡ vectors.unturned }
{
    Q4 {
        w: Number::from_raw(1 << 32),
        x: Number::from_raw(0),
        y: Number::from_raw(0),
        z: Number::from_raw(0),
    }
}

/// Judges a quaternion, which is made a unit.
pub fn judge_rotation(w: &mut Walker, key: &str, xs: &Array<Fix<32>>) -> Q4
    ensures { Step w.old.refusal w.new.refusal result
        (reading.at_key key.now (vectors.rotation xs.now)) }
{
    judge(w, key, rotation(xs), unturned())
}

/// Judges a solref.
pub fn judge_reference(w: &mut Walker, key: &str, xs: &Array<Fix<32>>) -> Solref
    ensures { Step w.old.refusal w.new.refusal result
        (reading.at_key key.now (softness.reference xs.now)) }
{
    let blank = Solref {
        tc: Number::from_raw(0),
        dr: Number::from_raw(0),
    };
    judge(w, key, reference(xs), blank)
}

/// Judges a solimp.
pub fn judge_impedance(w: &mut Walker, key: &str, xs: &Array<Fix<32>>) -> Solimp
    ensures { Step w.old.refusal w.new.refusal result
        (reading.at_key key.now (softness.impedance xs.now)) }
{
    let blank = Solimp {
        dmin: Number::from_raw(0),
        dmax: Number::from_raw(0),
        width: Number::from_raw(0),
        mid: Number::from_raw(0),
        power: 0,
    };
    judge(w, key, impedance(xs), blank)
}

/// Judges a solref and a solimp, one after the other.
pub fn judge_soft(
    w: &mut Walker,
    first: &str,
    xs: &Array<Fix<32>>,
    second: &str,
    ys: &Array<Fix<32>>,
) -> Soft
    ensures { Step w.old.refusal w.new.refusal result
        (softness.soft_at first.now xs.now second.now ys.now) }
{
    let r = judge_reference(w, first, xs);
    let i = judge_impedance(w, second, ys);
    soft(&r, &i)
}

/// Judges the first coefficient of friction; the others aren't used.
pub fn judge_friction(w: &mut Walker, key: &str, xs: &Array<Fix<32>>) -> Fix<32>
    ensures { Step w.old.refusal w.new.refusal result (reading.at_key key.now
        (numbers.between (pos 0) (pos (2 ^ 36)) (numbers.entry xs.now 0))) }
{
    judge(
        w,
        key,
        between(&entry(xs, 0), &0, &(1 << 36)),
        Number::from_raw(0),
    )
}

/// Judges a range, where there is one.
pub fn judge_range(
    w: &mut Walker,
    key: &str,
    xs: &Option<Array<Fix<32>>>,
    limit: u64,
) -> Option<Range>
    ensures { Step w.old.refusal w.new.refusal result
        (reading.at_key key.now (choices.range limit xs.now)) }
{
    judge(w, key, choices::range(xs, limit), None)
}

/// Judges a key that may have only one text.
pub fn judge_text(w: &mut Walker, key: &str, text: &Text, known: &[u8])
    ensures { Step w.old.refusal w.new.refusal tt
        (reading.at_key key.now (choices.only_text known.now text.now)) }
{
    judge(w, key, choices::only_text(text, known), ())
}
