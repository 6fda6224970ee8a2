// The walk of a raw model's tables, but for the keyframe.
ghost use Rattle.std.specs.Prelude.{◌≡◌, ◌++◌, OnOk, IfOk, true, codes};
ghost use Rattle.mj_form.specs.Reading.{Reads, under};
ghost use Rattle.mj_form.specs.Steps.{Step};
ghost use Rattle.mj_walk.specs.Counts.{counts};
ghost use Rattle.mj_walk.specs.Tables as tables;
ghost use Rattle.mj_valid.specs.Judging as spec;

use fx_list::Array;
use fx_num::Number;
use fx_vec::Vector3;
use mj_form::{Refusal, Walker};
use mj_judge::{format, judge};
use mj_layout::BodyParts;
use mj_read::{
    RawBody, RawEquality, RawGeom, RawJoint, RawKeyframe, RawModel, RawMotor, RawOption, RawTendon,
};
use mj_types::{Equality, Geom, ModelFault, Motor, Tendon};
use mj_walk::{
    Settings, judge_bodies, judge_counts, judge_equalities, judge_geoms, judge_motors,
    judge_option, judge_tendons,
};
use std::alloc::{AllocError, Global};

/// What the tables that name no joint give: bodies with their joints and geoms, and the world's geoms.
#[derive(Drop)]
pub struct First {
    pub format: u32,
    pub settings: Settings,
    pub parts: Array<BodyParts>,
    pub world: Array<Geom>,
}

/// What names joints.
#[derive(Drop)]
pub struct Naming {
    pub tendons: Array<Tendon>,
    pub motors: Array<Motor>,
    pub equalities: Array<Equality>,
}

/// What a raw model's tables give, and the keyframe as it was read.
#[derive(Drop)]
pub struct Walked {
    pub first: First,
    pub naming: Naming,
    pub keyframe: Option<RawKeyframe>,
}

/// What stands where nothing was judged.
fn no_settings() -> Settings {
    Settings {
        h: Number::from_raw(0),
        gravity: Vector3 {
            x: Number::from_raw(0),
            y: Number::from_raw(0),
            z: Number::from_raw(0),
        },
        iterations: 0,
        tolerance: Number::from_raw(0),
        njmax: 0,
    }
}

/// Adds a body's joints to those of the bodies before.
fn add_joints(all: &mut Vec<RawJoint>, own: Array<RawJoint>) -> Result<(), AllocError>
    ensures { OnOk result (all.new.items ≡ all.old.items ++ own) }
{
    let mut items = own.into_vec();
    all.append(&mut items)
}

/// All joints, in the order of their bodies.
pub(crate) fn all_joints(
    alloc: Global,
    bodies: Array<RawBody>,
) -> Result<Array<RawJoint>, AllocError>
    ensures { IfOk result (λ a. a ≡ spec.all_joints bodies) }
{
    let mut all = Vec::new(alloc);
    for b in bodies.into_vec() {
        add_joints(&mut all, b.joint)?;
    }
    Ok(Array::from_vec(all))
}

fn walk_counts(w: &mut Walker, raw: &RawModel)
    ensures { Step w.old.refusal w.new.refusal tt (counts raw.now) }
{
    let read = judge_counts(w.alloc, raw);
    w.keep(read, ())
}

fn walk_option(w: &mut Walker, o: &RawOption) -> Settings
    ensures { Step w.old.refusal w.new.refusal result
        (under (codes "option" ++ codes ".") (tables.option o.now)) }
{
    let read = judge_option(w.alloc, o);
    w.keep(read, no_settings())
}

fn walk_bodies(w: &mut Walker, bodies: &Array<RawBody>) -> Array<BodyParts>
    ensures { Step w.old.refusal w.new.refusal result (tables.bodies bodies.now) }
{
    let read = judge_bodies(w.alloc, bodies.as_slice());
    let blank = Array::from_vec(Vec::new(w.alloc));
    w.keep(read, blank)
}

fn walk_world(w: &mut Walker, bodies: &Array<RawBody>, geoms: &Array<RawGeom>) -> Array<Geom>
    ensures { Step w.old.refusal w.new.refusal result
        (tables.geoms bodies.now 0 true geoms.now) }
{
    let read = judge_geoms(w.alloc, bodies.as_slice(), 0, true, geoms.as_slice());
    let blank = Array::from_vec(Vec::new(w.alloc));
    w.keep(read, blank)
}

fn walk_first(w: &mut Walker, raw: &RawModel) -> First
    ensures { Step w.old.refusal w.new.refusal result (spec.first raw.now) }
{
    walk_counts(w, raw);
    let number = judge(w, "format", format(&raw.format), 1);
    let settings = walk_option(w, &raw.option);
    let parts = walk_bodies(w, &raw.body);
    let world = walk_world(w, &raw.body, &raw.geom);
    First {
        format: number,
        settings,
        parts,
        world,
    }
}

fn judge_first(alloc: Global, raw: &RawModel) -> Result<First, Refusal<ModelFault>>
    ensures { Reads result (spec.first raw.now) }
{
    let mut w = Walker::new(alloc);
    let x = walk_first(&mut w, raw);
    w.end(x)
}

#[tactic(auto, unfolding(crate::specs::Judging::naming))]
fn judge_naming(
    alloc: Global,
    joints: &Array<RawJoint>,
    tendons: &Array<RawTendon>,
    motors: &Array<RawMotor>,
    equalities: &Array<RawEquality>,
) -> Result<Naming, Refusal<ModelFault>>
    ensures { Reads result (spec.naming joints.now tendons.now motors.now equalities.now) }
{
    let t = judge_tendons(alloc, joints.as_slice(), tendons.as_slice())?;
    let m = judge_motors(
        alloc,
        joints.as_slice(),
        tendons.as_slice(),
        motors.as_slice(),
    )?;
    let e = judge_equalities(alloc, joints.as_slice(), equalities.as_slice())?;
    Ok(Naming {
        tendons: t,
        motors: m,
        equalities: e,
    })
}

/// Judges a raw model's tables but for the keyframe.
#[tactic(auto, unfolding(crate::specs::Judging::walked))]
pub(crate) fn judge_walked(alloc: Global, raw: RawModel) -> Result<Walked, Refusal<ModelFault>>
    ensures { Reads result (spec.walked raw) }
{
    let first = judge_first(alloc, &raw)?;
    let RawModel {
        format: _,
        option: _,
        body,
        geom: _,
        tendon,
        motor,
        equality,
        keyframe,
    } = raw;
    let joints = all_joints(alloc, body)?;
    let naming = judge_naming(alloc, &joints, &tendon, &motor, &equality)?;
    Ok(Walked {
        first,
        naming,
        keyframe,
    })
}
