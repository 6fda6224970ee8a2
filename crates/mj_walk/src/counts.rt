// How many objects a raw model has.
ghost use Rattle.std.specs.Prelude.{◌≡◌, ◌+◌, ◌≤◌, ℕ, min, sum_by, length};
ghost use Rattle.mj_form.specs.Reading.{Reads};
ghost use Rattle.mj_form.specs.Steps.{Step};
ghost use Rattle.mj_judge.specs.Choices.{joint_type};
ghost use Rattle.mj_walk.specs.Counts as spec;

use mj_form::{Refusal, Walker};
use mj_judge::{joint_type, judge_whether};
use mj_read::{RawBody, RawJoint, RawModel};
use mj_types::{JointKind, ModelCode, ModelFault};
use std::alloc::Global;

/// Counts are told up to this many.
const MOST: usize = 200;

/// How many velocities a joint of that type has, 1 where the type isn't known.
fn type_velocities(kind: Option<JointKind>) -> usize
    ensures { result ≡ spec.type_velocities kind }
{
    match kind {
        None => 1,
        Some(JointKind::Free) => 6,
        Some(JointKind::Ball) => 3,
        _ => 1,
    }
}

/// The sum, told up to `MOST`.
fn add_up_to(total: usize, more: usize) -> usize
    requires { total ≤ MOST }
    ensures { result ≡ min MOST (total + more) }
{
    if more < MOST - total {
        total + more
    } else {
        MOST
    }
}

/// How many dofs joints have, told up to `MOST`.
fn joint_dofs(joints: &[RawJoint]) -> usize
    ensures { result ≡ min MOST (sum_by (λ j. spec.type_velocities (joint_type j.kind))
        joints.now) }
{
    let mut total = 0;
    for j in joints {
        total = add_up_to(total, type_velocities(joint_type(&j.kind)));
    }
    total
}

/// How many dofs bodies have, told up to `MOST`.
fn dof_count(bodies: &[RawBody]) -> usize
    ensures { result ≡ min MOST (spec.dof_count bodies.now) }
{
    let mut total = 0;
    for b in bodies {
        total = add_up_to(total, joint_dofs(b.joint.as_slice()));
    }
    total
}

/// How many geoms bodies have beside some others, told up to `MOST`.
fn geom_count(others: usize, bodies: &[RawBody]) -> usize
    ensures { result ≡ min MOST (others + sum_by (λ b. length b.geom) bodies.now) }
{
    let mut total = add_up_to(0, others);
    for b in bodies {
        total = add_up_to(total, b.geom.len());
    }
    total
}

/// Judges that there are at most that many.
fn judge_few(w: &mut Walker, key: &str, count: usize, most: usize)
    ensures { Step w.old.refusal w.new.refusal tt (spec.few key.now count most) }
{
    judge_whether(w, key, count <= most, ModelCode::LimitPassed);
}

/// Judges that a model has a dof.
fn judge_some_dof(w: &mut Walker, count: usize)
    ensures { Step w.old.refusal w.new.refusal tt (spec.some_dof count) }
{
    judge_whether(w, "", 0 < count, ModelCode::EmptyModel);
}

fn all_dofs(raw: &RawModel) -> usize
    ensures { result ≡ min MOST (spec.dof_count raw.now.body) }
{
    dof_count(raw.body.as_slice())
}

fn all_geoms(raw: &RawModel) -> usize
    ensures { result ≡ min MOST (spec.geom_count raw.now) }
{
    geom_count(raw.geom.len(), raw.body.as_slice())
}

fn walk_counts(w: &mut Walker, raw: &RawModel)
    ensures { Step w.old.refusal w.new.refusal tt (spec.counts raw.now) }
{
    let dofs = all_dofs(raw);
    judge_few(w, "body", raw.body.len(), 128);
    judge_few(w, "geom", all_geoms(raw), 128);
    judge_few(w, "tendon", raw.tendon.len(), 64);
    judge_few(w, "motor", raw.motor.len(), 64);
    judge_few(w, "equality", raw.equality.len(), 64);
    judge_few(w, "dof", dofs, 64);
    judge_some_dof(w, dofs);
}

/// Judges how many objects a model has. `LimitPassed` where there are too many, then `EmptyModel` where
/// there is no dof.
pub fn judge_counts(alloc: Global, raw: &RawModel) -> Result<(), Refusal<ModelFault>>
    ensures { Reads result (spec.counts raw.now) }
{
    let mut w = Walker::new(alloc);
    walk_counts(&mut w, raw);
    w.end(())
}
