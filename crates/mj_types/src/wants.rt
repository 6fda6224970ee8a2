// What a run tells beside its blocks where it is asked to.
ghost use Rattle.std.specs.Prelude.{◌≡◌, length, pos, replicate, IfOk};
ghost use Rattle.mj_types.specs.Parts.{plain};

use crate::NoMemory;
use crate::model::Model;
use crate::room::zeros;
use fx_list::Array;
use fx_num::Fix;
use std::alloc::Global;

/// What a run is asked to tell of each step beside its block.
#[derive(Clone, Copy)]
pub struct Wants {
    /// The dual that its forces solve, within the block.
    pub dual: bool,
    /// A ball around its acceleration, behind the block.
    pub ball: bool,
    /// The forces of its rows one by one, behind the block.
    pub inverse: bool,
}

/// A ball around a step's acceleration `a` that holds each rational solution `x` of the step's own
/// `M x = s`: the squares of `x - a` sum to at most the square of `radius`, at 2^-32. `low`, at 2^-40,
/// is how much of a square `y . y` the mass matrix is known to make of `y . M y`; it was found by the
/// factor of `M` less `2^shift` (at 2^-40) on the diagonal.
#[derive(Clone, Copy, Debug, PartialEq, Eq)]
pub struct Ball {
    pub shift: u32,
    pub low: i64,
    pub radius: i128,
}

/// The forces of a dual's rows one by one, each of least cost where the acceleration is known (Todorov
/// 2014): `x`, of which there are as many as dual rows; `gap`, the largest difference from the step's own
/// forces, at 2^-20; `discrepancy`, the largest difference of `M a` and the load with these forces, at
/// 2^-72.
#[derive(Drop)]
pub struct Inverse {
    pub x: Array<Fix<20>>,
    pub gap: i64,
    pub discrepancy: i128,
}

impl Inverse {
    /// Forces of 0 for the model's rows.
    pub fn new(alloc: Global, model: &Model) -> Result<Inverse, NoMemory>
        ensures forces { IfOk result (λ i. i.x ≡ replicate model.now.njmax (plain (pos 0))) }
        ensures gap { IfOk result (λ i. i.gap ≡ pos 0) }
        ensures discrepancy { IfOk result (λ i. i.discrepancy ≡ pos 0) }
    {
        Ok(Inverse {
            x: zeros(alloc, model.njmax)?,
            gap: 0,
            discrepancy: 0,
        })
    }
}
