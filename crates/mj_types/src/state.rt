// The state that a step moves on.
ghost use Rattle.std.specs.Prelude.{◌≡◌, IfOk};
ghost use Rattle.mj_types.specs.States as spec;

use crate::NoMemory;
use crate::model::Model;
use fx_list::Array;
use fx_num::Fix;
use std::alloc::Global;

/// Positions and velocities, in the order of joints. A free joint has its position and then its
/// quaternion, and its linear velocity (world axes) and then its angular velocity (body axes).
#[derive(Drop)]
pub struct State {
    pub q: Array<Fix<32>>,
    pub v: Array<Fix<32>>,
}

impl State {
    /// The state that the model's runs start from.
    pub fn new(alloc: Global, model: &Model) -> Result<State, NoMemory>
        ensures positions { IfOk result (λ s. s.q ≡ model.now.qpos0) }
        ensures velocities { IfOk result (λ s. s.v ≡ model.now.qvel0) }
        ensures fits { IfOk result (λ s. spec.Fits model.now s) }
    {
        let q = copy(alloc, &model.qpos0)?;
        let v = copy(alloc, &model.qvel0)?;
        Ok(State { q, v })
    }
}

// A list of its own with the same numbers.
fn copy(alloc: Global, numbers: &Array<Fix<32>>) -> Result<Array<Fix<32>>, NoMemory>
    ensures { IfOk result (λ xs. xs ≡ numbers.now) }
{
    match Vec::from_slice(alloc, numbers.as_slice()) {
        Ok(items) => Ok(Array::from_vec(items)),
        Err(_) => Err(NoMemory),
    }
}
