// Motors.
ghost use Rattle.std.specs.Prelude.{◌<◌, length};
ghost use Rattle.mj_form.specs.Reading.{Reads};
ghost use Rattle.mj_form.specs.Steps.{Step};
ghost use Rattle.mj_walk.specs.Tables as spec;

use crate::names::{drive_of, motor_name, optional_scalar};
use fx_list::Array;
use mj_form::{Refusal, Walker, under_item};
use mj_judge::{judge, judge_range, judge_size};
use mj_read::{RawJoint, RawMotor, RawTendon};
use mj_types::{Drive, ModelFault, Motor};
use std::alloc::Global;

fn walk_motor(
    w: &mut Walker,
    joints: &[RawJoint],
    tendons: &[RawTendon],
    earlier: &[RawMotor],
    m: &RawMotor,
) -> Motor
    ensures { Step w.old.refusal w.new.refusal result
        (spec.motor joints.now tendons.now earlier.now m.now) }
{
    judge(w, "name", motor_name(earlier, &m.name), ());
    let joint = judge(w, "joint", optional_scalar(joints, &m.joint), None);
    let drive = judge(
        w,
        "tendon",
        drive_of(tendons, joint, &m.tendon),
        Drive::Joint(0),
    );
    let gear = judge_size(w, "gear", &m.gear, 1 << 42);
    let ctrlrange = judge_range(w, "ctrlrange", &m.ctrlrange, 1 << 52);
    Motor {
        drive,
        gear,
        ctrlrange,
    }
}

fn judge_motor(
    alloc: Global,
    joints: &[RawJoint],
    tendons: &[RawTendon],
    all: &[RawMotor],
    i: usize,
    m: &RawMotor,
) -> Result<Motor, Refusal<ModelFault>>
    requires { i < length all.now }
    ensures { Reads result (spec.motor_item joints.now tendons.now all.now i m.now) }
{
    let mut w = Walker::new(alloc);
    let x = walk_motor(&mut w, joints, tendons, &all[..i], m);
    under_item(alloc, "motor", i + 1, w.end(x))
}

/// Judges the motors of a model.
pub fn judge_motors(
    alloc: Global,
    joints: &[RawJoint],
    tendons: &[RawTendon],
    all: &[RawMotor],
) -> Result<Array<Motor>, Refusal<ModelFault>>
    ensures { Reads result (spec.motors joints.now tendons.now all.now) }
{
    let mut found = Vec::new(alloc);
    for (i, m) in all.iter().enumerate() {
        let x = judge_motor(alloc, joints, tendons, all, i, m)?;
        found.push(x)?;
    }
    Ok(Array::from_vec(found))
}
