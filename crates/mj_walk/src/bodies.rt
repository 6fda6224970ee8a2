// Bodies, their inertias, joints and geoms.
ghost use Rattle.std.specs.Prelude.{◌≡◌, ◌<◌, length, false};
ghost use Rattle.mj_form.specs.Reading.{Reads};
ghost use Rattle.mj_form.specs.Steps.{Step};
ghost use Rattle.mj_walk.specs.Tables as spec;

use crate::geoms::judge_geoms;
use crate::joints::judge_joints;
use crate::names::{body_name, parent_number};
use fx_list::Array;
use fx_num::{Fix, Number, Plain};
use fx_vec::{Q4, V3, Vector3};
use mj_form::{Refusal, Walker, under_item, under_key};
use mj_judge::{judge, judge_diagonal, judge_number, judge_rotation, judge_vector, unturned};
use mj_layout::BodyParts;
use mj_read::{RawBody, RawGeom, RawInertial, RawJoint};
use mj_types::{Body, Geom, Joint, ModelFault};
use std::alloc::Global;

/// A body's mass, the place and the axes of its inertia, and the inertia about these.
#[derive(Clone, Copy)]
pub struct Inertia {
    pub pos: V3<Plain, 32>,
    pub quat: Q4,
    pub mass: Fix<40>,
    pub diagonal: V3<Plain, 40>,
}

fn no_inertia() -> Inertia
    ensures { result ≡ spec.no_inertia }
{
    Inertia {
        pos: Vector3 {
            x: Number::from_raw(0),
            y: Number::from_raw(0),
            z: Number::from_raw(0),
        },
        quat: unturned(),
        mass: Number::from_raw(0),
        diagonal: Vector3 {
            x: Number::from_raw(0),
            y: Number::from_raw(0),
            z: Number::from_raw(0),
        },
    }
}

fn walk_inertial(w: &mut Walker, t: &RawInertial) -> Inertia
    ensures { Step w.old.refusal w.new.refusal result (spec.inertial t.now) }
{
    let pos = judge_vector(w, "pos", &t.pos, 1 << 42);
    let quat = judge_rotation(w, "quat", &t.quat);
    let mass = judge_number(w, "mass", &t.mass, &0, &(1 << 53));
    let diagonal = judge_diagonal(w, "diaginertia", &t.diaginertia);
    Inertia {
        pos,
        quat,
        mass,
        diagonal,
    }
}

fn judge_inertial(alloc: Global, t: &RawInertial) -> Result<Inertia, Refusal<ModelFault>>
    ensures { Reads result (spec.inertial t.now) }
{
    let mut w = Walker::new(alloc);
    let x = walk_inertial(&mut w, t);
    w.end(x)
}

#[tactic(auto, unfolding(crate::specs::Tables::inertia))]
fn inertia_of(alloc: Global, t: &Option<RawInertial>) -> Result<Inertia, Refusal<ModelFault>>
    ensures { Reads result (spec.inertia t.now) }
{
    match t {
        None => Ok(no_inertia()),
        Some(table) => under_key(alloc, "inertial", judge_inertial(alloc, table)),
    }
}

fn walk_inertia(w: &mut Walker, t: &Option<RawInertial>) -> Inertia
    ensures { Step w.old.refusal w.new.refusal result (spec.inertia t.now) }
{
    let read = inertia_of(w.alloc, t);
    w.keep(read, no_inertia())
}

fn may_be_free(parent: usize, own: &[RawJoint]) -> bool
    ensures { result ≡ spec.may_be_free parent own.now }
{
    parent == 0 && own.len() == 1
}

fn walk_joints(
    w: &mut Walker,
    before: &[RawBody],
    number: usize,
    parent: usize,
    own: &[RawJoint],
) -> Array<Joint>
    ensures { Step w.old.refusal w.new.refusal result
        (spec.joints before.now number (spec.may_be_free parent own.now) own.now) }
{
    let read = judge_joints(w.alloc, before, number, may_be_free(parent, own), own);
    let blank = Array::from_vec(Vec::new(w.alloc));
    w.keep(read, blank)
}

fn walk_geoms(w: &mut Walker, before: &[RawBody], number: usize, own: &[RawGeom]) -> Array<Geom>
    ensures { Step w.old.refusal w.new.refusal result
        (spec.geoms before.now number false own.now) }
{
    let read = judge_geoms(w.alloc, before, number, false, own);
    let blank = Array::from_vec(Vec::new(w.alloc));
    w.keep(read, blank)
}

/// Judges the body behind those before; `rest` are this body and the later ones.
fn walk_body(
    w: &mut Walker,
    before: &[RawBody],
    rest: &[RawBody],
    number: usize,
    b: &RawBody,
) -> BodyParts
    ensures { Step w.old.refusal w.new.refusal result
        (spec.body before.now rest.now number b.now) }
{
    judge(w, "name", body_name(before, &b.name), ());
    let parent = judge(w, "parent", parent_number(before, rest, &b.parent), 0);
    let pos = judge_vector(w, "pos", &b.pos, 1 << 42);
    let quat = judge_rotation(w, "quat", &b.quat);
    let inertia = walk_inertia(w, &b.inertial);
    let joints = walk_joints(w, before, number, parent, b.joint.as_slice());
    let geoms = walk_geoms(w, before, number, b.geom.as_slice());
    BodyParts {
        body: Body {
            parent,
            root: 0,
            pos,
            quat,
            mass: inertia.mass,
            ipos: inertia.pos,
            iquat: inertia.quat,
            ixx: inertia.diagonal.x,
            iyy: inertia.diagonal.y,
            izz: inertia.diagonal.z,
            jntadr: 0,
            jntnum: 0,
            dofadr: 0,
            dofnum: 0,
        },
        joints,
        geoms,
    }
}

fn judge_body(
    alloc: Global,
    all: &[RawBody],
    i: usize,
    b: &RawBody,
) -> Result<BodyParts, Refusal<ModelFault>>
    requires { i < length all.now }
    ensures { Reads result (spec.body_item all.now i b.now) }
{
    let mut w = Walker::new(alloc);
    let x = walk_body(&mut w, &all[..i], &all[i..], i + 1, b);
    under_item(alloc, "body", i + 1, w.end(x))
}

/// Judges the bodies of a model, each with its joints and geoms.
pub fn judge_bodies(alloc: Global, all: &[RawBody]) -> Result<Array<BodyParts>, Refusal<ModelFault>>
    ensures { Reads result (spec.bodies all.now) }
{
    let mut found = Vec::new(alloc);
    for (i, b) in all.iter().enumerate() {
        let x = judge_body(alloc, all, i, b)?;
        found.push(x)?;
    }
    Ok(Array::from_vec(found))
}
