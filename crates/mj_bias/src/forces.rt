// The bias forces of a state.
ghost use Rattle.std.specs.Prelude.{◌≡◌, OnOk};
ghost use Rattle.fx_whole.specs.First.{refusal_of};
ghost use Rattle.mj_types.specs.BiasRooms.{BiasRoom};
ghost use Rattle.mj_types.specs.Memory.{NumberFits, MotionFits, SumsFit};
ghost use Rattle.mj_types.specs.Parts.{number_at};
ghost use Rattle.mj_types.specs.Placed.{AreFrames, placing_of};
ghost use Rattle.mj_types.specs.States.{Fits};
ghost use Rattle.mj_bias.specs.Biases as spec;
ghost use Rattle.mj_bias.specs.Faults.{bias_fault};
ghost use Rattle.mj_bias.specs.Radii.{bias_radius};
ghost use Rattle.mj_bias.specs.Steps.{Holds, AreSmall};

use crate::bodies::weigh_bodies;
use crate::dofs::make_forces;
use crate::down::move_bodies;
use crate::up::carry_up;
use fx_num::Carry;
use mj_types::{Bias, Frames, Model, OutOfRange, State};

/// The bias force of each dof at scale 32 into `out.c`, with the radius of the kind `K`: what the motion
/// and gravity ask for (Featherstone, Rigid Body Dynamics Algorithms, chapter 5, recursive
/// Newton-Euler). Down the tree go what carries each dof and the exact sums of motions and of drifts;
/// up the tree go the wrenches, exact. Each sum is rounded once. The other lists of `out` are room.
///
/// DofMotion where the motion that carries a dof passes 2^48 or the rate of its column 2^56; then
/// BodyMotion where a body's velocity passes 2^48, its acceleration 2^56 or its momentum 2^62, and
/// Wrench where its wrench passes 2^118; then Bias where the wrench that a dof bears passes 2^62 or its
/// force 2^52. ErrorBound where the radius of one of these rounded numbers passes 2^40.
pub fn bias<K: Carry>(
    model: &Model,
    frames: &Frames,
    state: &State,
    out: &mut Bias<K>,
) -> Result<(), OutOfRange>
    requires numbers { NumberFits K.Rad.row }
    requires motions { MotionFits K.Rad.row }
    requires sums { SumsFit K.Wide.row }
    requires frames { AreFrames model.now frames.now }
    requires fits { Fits model.now state.now }
    requires room { BiasRoom model.now out.old }
    ensures room { BiasRoom model.now out.new }
    ensures first { refusal_of result
        ≡ bias_fault K.settled model.now (placing_of frames.now) (number_at state.now.v) }
    ensures values { OnOk result (Holds K.width model.now.nv out.new.c
        (spec.bias model.now (placing_of frames.now) (number_at state.now.v))
        (bias_radius K.settled model.now (placing_of frames.now) (number_at state.now.v))) }
    ensures ranges { OnOk result (AreSmall K.width model.now.nv out.new.c) }
{
    move_bodies::<K>(model, frames, state, out)?;
    weigh_bodies::<K>(
        model,
        frames,
        &out.turn,
        &out.motion,
        &out.drift,
        &mut out.wrench,
    )?;
    carry_up::<K>(model, &mut out.wrench);
    make_forces::<K>(model, &frames.column, &out.wrench, &mut out.c)?;
    Ok(())
}
