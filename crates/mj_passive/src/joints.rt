// The positions, the velocities and the dofs of hinges and slides, by their numbers.
ghost use Rattle.std.specs.Prelude.{◌≡◌, ◌-◌, ◌^◌, ◌<◌, ◌≤◌, unsigned_abs};
ghost use Rattle.mj_types.specs.Lawful.{IsScalar};
ghost use Rattle.mj_types.specs.Parts.{joint};
ghost use Rattle.mj_types.specs.States.{Fits};
ghost use Rattle.mj_passive.specs.Forces as spec;

use fx_num::Fix;
use mj_types::{Model, State};

/// The place of the dof.
pub(crate) fn dof_of(model: &Model, number: usize) -> usize
    requires { IsScalar model.now.joints number }
    ensures place { result ≡ (joint model.now.joints (number - 1)).dadr }
    ensures there { result < model.now.nv }
{
    model.joints.entry(number - 1).dadr
}

/// The position.
pub(crate) fn position(model: &Model, state: &State, number: usize) -> Fix<32>
    requires fits { Fits model.now state.now }
    requires joint { IsScalar model.now.joints number }
    ensures value { result.mid ≡ spec.q_at model.now state.now number }
    ensures small { unsigned_abs result.mid ≤ 2 ^ 52 }
{
    state.q.at(model.joints.entry(number - 1).qadr)
}

/// The velocity.
pub(crate) fn velocity(model: &Model, state: &State, number: usize) -> Fix<32>
    requires fits { Fits model.now state.now }
    requires joint { IsScalar model.now.joints number }
    ensures value { result.mid ≡ spec.v_at model.now state.now number }
    ensures small { unsigned_abs result.mid ≤ 2 ^ 52 }
{
    state.v.at(dof_of(model, number))
}
