// Joints.
ghost use Rattle.std.specs.Prelude.{◌<◌, length};
ghost use Rattle.mj_form.specs.Reading.{Reads};
ghost use Rattle.mj_form.specs.Steps.{Step};
ghost use Rattle.mj_walk.specs.Tables as spec;

use crate::names::joint_name;
use fx_list::Array;
use mj_form::{Refusal, Walker, under_item};
use mj_judge::{
    joint_kind_of, judge, judge_axis, judge_number, judge_range, judge_size, judge_soft,
    judge_vector,
};
use mj_read::{RawBody, RawJoint};
use mj_types::{Joint, JointKind, ModelFault};
use std::alloc::Global;

/// Judges a joint of the body with that number.
fn walk_joint(
    w: &mut Walker,
    before: &[RawBody],
    earlier: &[RawJoint],
    number: usize,
    may_be_free: bool,
    j: &RawJoint,
) -> Joint
    ensures { Step w.old.refusal w.new.refusal result
        (spec.joint before.now earlier.now number may_be_free j.now) }
{
    judge(w, "name", joint_name(before, earlier, &j.name), ());
    let kind = judge(
        w,
        "type",
        joint_kind_of(&j.kind, may_be_free),
        JointKind::Hinge,
    );
    let pos = judge_vector(w, "pos", &j.pos, 1 << 42);
    let axis = judge_axis(w, "axis", &j.axis);
    let range = judge_range(w, "range", &j.range, 1 << 42);
    let margin = judge_number(w, "margin", &j.margin, &0, &(1 << 42));
    let stiffness = judge_number(w, "stiffness", &j.stiffness, &0, &(1 << 52));
    let damping = judge_number(w, "damping", &j.damping, &0, &(1 << 52));
    let springref = judge_size(w, "springref", &j.springref, 1 << 42);
    let armature = judge_number(w, "armature", &j.armature, &0, &(1 << 53));
    let frictionloss = judge_number(w, "frictionloss", &j.frictionloss, &0, &(1 << 52));
    let soft = judge_soft(
        w,
        "solreflimit",
        &j.solreflimit,
        "solimplimit",
        &j.solimplimit,
    );
    let friction = judge_soft(
        w,
        "solreffriction",
        &j.solreffriction,
        "solimpfriction",
        &j.solimpfriction,
    );
    Joint {
        kind,
        body: number,
        pos,
        axis,
        qadr: 0,
        dadr: 0,
        range,
        margin,
        stiffness,
        springref,
        damping,
        armature,
        frictionloss,
        soft,
        soft_friction: friction,
    }
}

fn judge_joint(
    alloc: Global,
    before: &[RawBody],
    own: &[RawJoint],
    number: usize,
    may_be_free: bool,
    i: usize,
    j: &RawJoint,
) -> Result<Joint, Refusal<ModelFault>>
    requires { i < length own.now }
    ensures { Reads result (spec.joint_item before.now own.now number may_be_free i j.now) }
{
    let mut w = Walker::new(alloc);
    let x = walk_joint(&mut w, before, &own[..i], number, may_be_free, j);
    under_item(alloc, "joint", i + 1, w.end(x))
}

/// Judges the joints of the body with that number, behind the bodies before.
pub fn judge_joints(
    alloc: Global,
    before: &[RawBody],
    number: usize,
    may_be_free: bool,
    own: &[RawJoint],
) -> Result<Array<Joint>, Refusal<ModelFault>>
    ensures { Reads result (spec.joints before.now number may_be_free own.now) }
{
    let mut found = Vec::new(alloc);
    for (i, j) in own.iter().enumerate() {
        let x = judge_joint(alloc, before, own, number, may_be_free, i, j)?;
        found.push(x)?;
    }
    Ok(Array::from_vec(found))
}
