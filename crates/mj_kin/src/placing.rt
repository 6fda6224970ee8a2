// Where everything is in a state.
ghost use Rattle.std.specs.Prelude.{◌≡◌, ◌^◌, length, IfOk};
ghost use Rattle.fx_whole.specs.First.{refusal_of, first_to};
ghost use Rattle.mj_types.specs.Placed.{placing_of, AreFrames};
ghost use Rattle.mj_types.specs.Rooms.{FramesRoom};
ghost use Rattle.mj_types.specs.States.{Fits};
ghost use Rattle.mj_kin.specs.Bodies.{body_fault};
ghost use Rattle.mj_kin.specs.Placings as spec;
ghost use Rattle.mj_kin.specs.Working.{ArePlaced};

use crate::bodies::place_body;
use crate::columns::finish_columns;
use crate::geoms::place_geoms;
use crate::inertias::judge_inertias;
use crate::leaves::world;
use mj_types::{Frames, Model, OutOfRange, State};

/// Places all bodies, each after its parent. The frame of the body before, at first the world's, is kept.
fn place_bodies(model: &Model, state: &State, out: &mut Frames) -> Result<(), OutOfRange>
    requires fits { Fits model.now state.now }
    requires room { FramesRoom model.now out.old }
    ensures room { FramesRoom model.now out.new }
    ensures placed { IfOk result (λ _. ArePlaced model.now state.now out.new
        (length model.now.bodies)) }
    ensures first { refusal_of result ≡ first_to (length model.now.bodies)
        (body_fault model.now state.now) }
{
    let mut last = world();
    for b in 0..model.bodies.len() {
        last = place_body(model, state, b, &last, out)?;
    }
    Ok(())
}

/// Where everything is in a state of a model: the pose, the centre of mass and the inertia of each
/// body, the motion column of each dof and the pose of each geom (MuJoCo documentation, Computation:
/// forward kinematics; Featherstone, Rigid Body Dynamics Algorithms, chapters 2 and 4). Positions and
/// quaternions are at scale 32, inertias at scale 40; inertias and columns are about the place of the
/// root body of their tree. No number of a geom's position is over 2^14. The refusal names the
/// first number out of range: all bodies' poses, centres of mass and arms, then all geoms, all inertias,
/// all columns. Takes no memory.
pub fn frames(model: &Model, state: &State, out: &mut Frames) -> Result<(), OutOfRange>
    requires fits { Fits model.now state.now }
    requires room { FramesRoom model.now out.old }
    ensures room { FramesRoom model.now out.new }
    ensures first { refusal_of result ≡ spec.frames_fault model.now state.now }
    ensures values { IfOk result (λ _. placing_of out.new ≡ spec.placing model.now state.now) }
    ensures ranges { IfOk result (λ _. AreFrames model.now out.new) }
    ensures units { IfOk result (λ _. spec.AreUnits model.now out.new) }
{
    place_bodies(model, state, out)?;
    place_geoms(
        model,
        state,
        &out.pos,
        &out.quat,
        &mut out.gpos,
        &mut out.gquat,
    )?;
    judge_inertias(&out.inertia)?;
    finish_columns(model, state, &out.pos, &out.anchor, &mut out.column)?;
    Ok(())
}
