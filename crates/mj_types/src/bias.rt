// The bias forces of a state, and the working room on the way to them.
ghost use Rattle.std.specs.Prelude.{◌≡◌, ◌+◌, IfOk};
ghost use Rattle.mj_types.specs.Memory.{NumberFits, MotionFits, SumsFit};

use crate::NoMemory;
use crate::model::Model;
use crate::room::filled;
use fx_list::Array;
use fx_num::{Carry, Num, Number, Sum, Total};
use fx_vec::{Sp6, Sum6, Total3, Total6, Vector3, Vector6};
use std::alloc::Global;

/// The bias force at each dof, in numbers of kind `K`: the generalized force that the motion and
/// gravity ask for (Featherstone, recursive Newton-Euler). The other lists are working room: each dof's
/// motion column, the motion that carries it and its rate, and, for the world and each body, exact
/// sums of motions, of accelerations and of wrenches.
#[derive(Drop)]
pub struct Bias<K: Carry> {
    pub c: Array<Num<K, 32>>,
    pub column: Array<Sp6<K, 32>>,
    pub turn: Array<Sp6<K, 32>>,
    pub rate: Array<Sp6<K, 32>>,
    pub motion: Array<Sum6<K, 64>>,
    pub drift: Array<Sum6<K, 64>>,
    pub wrench: Array<Sum6<K, 72>>,
}

fn no_motion<K: Carry, const F: u32>() -> Sp6<K, F>
    requires numbers { NumberFits K.Rad.row }
    requires motions { MotionFits K.Rad.row }
{
    let none = Number {
        mid: 0,
        rad: K::none(),
    };
    let vector = Vector3 {
        x: none,
        y: none,
        z: none,
    };
    Vector6 {
        ang: vector,
        lin: vector,
    }
}

fn no_sums<K: Carry, const P: u32>() -> Sum6<K, P>
    requires { SumsFit K.Wide.row }
{
    let none = Total {
        mid: 0,
        rad: K::wide_none(),
    };
    let vector = Total3 {
        x: none,
        y: none,
        z: none,
    };
    Total6 {
        ang: vector,
        lin: vector,
    }
}

impl<K: Carry> Bias<K> {
    ghost use Rattle.mj_types.specs.BiasRooms as spec;

    /// Bias forces with room for the model's dofs and bodies.
    pub fn new(alloc: Global, model: &Model) -> Result<Bias<K>, NoMemory>
        requires numbers { NumberFits K.Rad.row }
        requires motions { MotionFits K.Rad.row }
        requires sums { SumsFit K.Wide.row }
        ensures room { IfOk result (λ x. spec.BiasRoom model.now x) }
    {
        let bodies = model.bodies.len() + 1;
        let none = Number {
            mid: 0,
            rad: K::none(),
        };
        Ok(Bias {
            c: filled(alloc, model.nv, none)?,
            column: filled(alloc, model.nv, no_motion::<K, 32>())?,
            turn: filled(alloc, model.nv, no_motion::<K, 32>())?,
            rate: filled(alloc, model.nv, no_motion::<K, 32>())?,
            motion: filled(alloc, bodies, no_sums::<K, 64>())?,
            drift: filled(alloc, bodies, no_sums::<K, 64>())?,
            wrench: filled(alloc, bodies, no_sums::<K, 72>())?,
        })
    }
}
