// Tendons over joints.
ghost use Rattle.std.specs.Prelude.{◌<◌, length};
ghost use Rattle.mj_form.specs.Reading.{Reads};
ghost use Rattle.mj_form.specs.Steps.{Step};
ghost use Rattle.mj_walk.specs.Tables as spec;

use crate::names::{tendon_name, term_number};
use fx_list::Array;
use mj_form::{Refusal, Walker, under_item};
use mj_judge::{judge, judge_number, judge_range, judge_size, judge_soft, judge_whether};
use mj_read::{RawJoint, RawTendon, RawTerm};
use mj_types::{ModelCode, ModelFault, Tendon, Term};
use std::alloc::Global;

fn walk_term(w: &mut Walker, joints: &[RawJoint], earlier: &[RawTerm], t: &RawTerm) -> Term
    ensures { Step w.old.refusal w.new.refusal result
        (spec.term joints.now earlier.now t.now) }
{
    let joint = judge(w, "joint", term_number(joints, earlier, &t.joint), 0);
    let coef = judge_size(w, "coef", &t.coef, 1 << 42);
    Term { joint, coef }
}

fn judge_term(
    alloc: Global,
    joints: &[RawJoint],
    all: &[RawTerm],
    i: usize,
    t: &RawTerm,
) -> Result<Term, Refusal<ModelFault>>
    requires { i < length all.now }
    ensures { Reads result (spec.term_item joints.now all.now i t.now) }
{
    let mut w = Walker::new(alloc);
    let x = walk_term(&mut w, joints, &all[..i], t);
    under_item(alloc, "joint", i + 1, w.end(x))
}

fn judge_terms(
    alloc: Global,
    joints: &[RawJoint],
    all: &[RawTerm],
) -> Result<Array<Term>, Refusal<ModelFault>>
    ensures { Reads result (spec.terms joints.now all.now) }
{
    let mut found = Vec::new(alloc);
    for (i, t) in all.iter().enumerate() {
        let x = judge_term(alloc, joints, all, i, t)?;
        found.push(x)?;
    }
    Ok(Array::from_vec(found))
}

fn walk_terms(w: &mut Walker, joints: &[RawJoint], all: &[RawTerm]) -> Array<Term>
    ensures { Step w.old.refusal w.new.refusal result (spec.terms joints.now all.now) }
{
    let read = judge_terms(w.alloc, joints, all);
    let blank = Array::from_vec(Vec::new(w.alloc));
    w.keep(read, blank)
}

fn judge_some(w: &mut Walker, terms: &Array<RawTerm>)
    ensures { Step w.old.refusal w.new.refusal tt (spec.some_term terms.now) }
{
    judge_whether(w, "joint", !terms.is_empty(), ModelCode::BadRange);
}

fn walk_tendon(w: &mut Walker, joints: &[RawJoint], earlier: &[RawTendon], t: &RawTendon) -> Tendon
    ensures { Step w.old.refusal w.new.refusal result
        (spec.tendon joints.now earlier.now t.now) }
{
    judge(w, "name", tendon_name(earlier, &t.name), ());
    judge_some(w, &t.joint);
    let terms = walk_terms(w, joints, t.joint.as_slice());
    let range = judge_range(w, "range", &t.range, 1 << 52);
    let margin = judge_number(w, "margin", &t.margin, &0, &(1 << 42));
    let stiffness = judge_number(w, "stiffness", &t.stiffness, &0, &(1 << 52));
    let damping = judge_number(w, "damping", &t.damping, &0, &(1 << 52));
    let soft = judge_soft(
        w,
        "solreflimit",
        &t.solreflimit,
        "solimplimit",
        &t.solimplimit,
    );
    let springlength = judge_size(w, "springlength", &t.springlength, 1 << 52);
    Tendon {
        terms,
        range,
        margin,
        stiffness,
        damping,
        springlength,
        soft,
    }
}

fn judge_tendon(
    alloc: Global,
    joints: &[RawJoint],
    all: &[RawTendon],
    i: usize,
    t: &RawTendon,
) -> Result<Tendon, Refusal<ModelFault>>
    requires { i < length all.now }
    ensures { Reads result (spec.tendon_item joints.now all.now i t.now) }
{
    let mut w = Walker::new(alloc);
    let x = walk_tendon(&mut w, joints, &all[..i], t);
    under_item(alloc, "tendon", i + 1, w.end(x))
}

/// Judges the tendons of a model.
pub fn judge_tendons(
    alloc: Global,
    joints: &[RawJoint],
    all: &[RawTendon],
) -> Result<Array<Tendon>, Refusal<ModelFault>>
    ensures { Reads result (spec.tendons joints.now all.now) }
{
    let mut found = Vec::new(alloc);
    for (i, t) in all.iter().enumerate() {
        let x = judge_tendon(alloc, joints, all, i, t)?;
        found.push(x)?;
    }
    Ok(Array::from_vec(found))
}
