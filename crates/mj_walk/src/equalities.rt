// Equalities of joints.
ghost use Rattle.std.specs.Prelude.{◌≡◌, ◌<◌, length};
ghost use Rattle.mj_form.specs.Reading.{Reads};
ghost use Rattle.mj_form.specs.Steps.{Step};
ghost use Rattle.mj_walk.specs.Tables as spec;

use crate::names::{equality_name, scalar_number, second_number};
use fx_list::Array;
use fx_num::{Fix, Number};
use mj_form::{Refusal, Walker, under_item};
use mj_judge::{entry, judge, judge_soft, small};
use mj_read::{RawEquality, RawJoint};
use mj_types::{Equality, ModelCode, ModelFault, Range};
use std::alloc::Global;

/// The two coefficients, as the ends of a range.
fn coefficients(xs: &Array<Fix<32>>) -> Result<Range, ModelCode>
    ensures { result ≡ spec.coefficients xs.now }
{
    let c0 = small(&entry(xs, 0), 1 << 42)?;
    let c1 = small(&entry(xs, 1), 1 << 42)?;
    Ok(Range {
        least: c0,
        greatest: c1,
    })
}

fn no_range() -> Range {
    Range {
        least: Number::from_raw(0),
        greatest: Number::from_raw(0),
    }
}

fn walk_equality(
    w: &mut Walker,
    joints: &[RawJoint],
    earlier: &[RawEquality],
    e: &RawEquality,
) -> Equality
    ensures { Step w.old.refusal w.new.refusal result
        (spec.equality joints.now earlier.now e.now) }
{
    judge(w, "name", equality_name(earlier, &e.name), ());
    let joint1 = judge(w, "joint1", scalar_number(joints, &e.joint1), 0);
    let joint2 = judge(w, "joint2", second_number(joints, joint1, &e.joint2), None);
    let c = judge(w, "polycoef", coefficients(&e.polycoef), no_range());
    let soft = judge_soft(w, "solref", &e.solref, "solimp", &e.solimp);
    Equality {
        joint1,
        joint2,
        c0: c.least,
        c1: c.greatest,
        soft,
    }
}

fn judge_equality(
    alloc: Global,
    joints: &[RawJoint],
    all: &[RawEquality],
    i: usize,
    e: &RawEquality,
) -> Result<Equality, Refusal<ModelFault>>
    requires { i < length all.now }
    ensures { Reads result (spec.equality_item joints.now all.now i e.now) }
{
    let mut w = Walker::new(alloc);
    let x = walk_equality(&mut w, joints, &all[..i], e);
    under_item(alloc, "equality", i + 1, w.end(x))
}

/// Judges the equalities of a model.
pub fn judge_equalities(
    alloc: Global,
    joints: &[RawJoint],
    all: &[RawEquality],
) -> Result<Array<Equality>, Refusal<ModelFault>>
    ensures { Reads result (spec.equalities joints.now all.now) }
{
    let mut found = Vec::new(alloc);
    for (i, e) in all.iter().enumerate() {
        let x = judge_equality(alloc, joints, all, i, e)?;
        found.push(x)?;
    }
    Ok(Array::from_vec(found))
}
