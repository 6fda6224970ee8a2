// The model.
ghost use Rattle.std.specs.Prelude.{◌≡◌};
ghost use Rattle.mj_form.specs.Reading.{Reads};
ghost use Rattle.mj_io.specs.Memory.{OrMemory};
ghost use Rattle.mj_read.specs.Document.{no_memory};
ghost use Rattle.mj_valid.specs.Judging as spec;
ghost use Rattle.mj_valid.specs.Sound.{IsSound};

use crate::start::{first_positions, first_velocities, judge_start};
use crate::walked::{First, Naming, Walked, judge_walked};
use fx_list::Text;
use mj_form::Refusal;
use mj_layout::{Layout, lay_out};
use mj_read::{RawModel, raw_model};
use mj_types::{Model, ModelCode, ModelFault};
use std::alloc::Global;

/// The model of tables that were judged, or the keyframe's first fault.
fn finish(alloc: Global, w: Walked) -> Result<Model, Refusal<ModelFault>>
    requires { IsSound w }
    ensures { Reads (spec.told_inside result) (spec.finished w) }
{
    let Walked {
        first,
        naming,
        keyframe,
    } = w;
    let First {
        format,
        settings,
        parts,
        world,
    } = first;
    let Naming {
        tendons,
        motors,
        equalities,
    } = naming;
    let l = lay_out(alloc, &parts, world)?;
    judge_start(alloc, &l.joints, l.nq, l.nv, &keyframe)?;
    let qpos0 = first_positions(alloc, &l.bodies, &l.joints, &keyframe)?;
    let qvel0 = first_velocities(alloc, l.nv, keyframe)?;
    let Layout {
        bodies,
        joints,
        dofs,
        geoms,
        nq,
        nv,
    } = l;
    Ok(Model {
        format,
        h: settings.h,
        gravity: settings.gravity,
        iterations: settings.iterations,
        tolerance: settings.tolerance,
        njmax: settings.njmax as usize,
        nq,
        nv,
        bodies,
        joints,
        dofs,
        geoms,
        tendons,
        motors,
        equalities,
        qpos0,
        qvel0,
    })
}

/// Judges a raw model inside.
#[tactic(auto, unfolding(crate::specs::Judging::judged))]
fn judged(alloc: Global, raw: RawModel) -> Result<Model, Refusal<ModelFault>>
    ensures { Reads (spec.told_inside result) (spec.judged raw) }
{
    let w = judge_walked(alloc, raw)?;
    finish(alloc, w)
}

/// Judges a raw model: its model, or its first fault. Counts are judged before all else, as `LimitPassed`
/// and `EmptyModel`; then each key in the order of the format. `Memory` may stand for any answer.
pub fn model(alloc: Global, raw: RawModel) -> Result<Model, ModelFault>
    ensures { OrMemory no_memory (spec.told result) (spec.judged raw) }
{
    match judged(alloc, raw) {
        Ok(model) => Ok(model),
        Err(refusal) => match refusal {
            Refusal::Found(fault) => Err(fault),
            Refusal::Memory => Err(ModelFault {
                code: ModelCode::Memory,
                path: Text::from_vec(Vec::new(alloc)),
            }),
        },
    }
}

/// Reads a model's file and judges it. `Memory` may stand for any answer.
pub fn judge(alloc: Global, bytes: &[u8]) -> Result<Model, ModelFault>
    ensures { OrMemory no_memory (spec.told result) (spec.judged_bytes bytes.now) }
{
    let raw = raw_model(alloc, bytes)?;
    model(alloc, raw)
}
