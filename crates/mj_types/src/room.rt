// Memory for the carriers.
ghost use Rattle.std.specs.Prelude.{◌≡◌, [], pos, replicate, IfOk};
ghost use Rattle.mj_types.specs.Parts.{plain};

use crate::NoMemory;
use fx_list::{Array, Listing};
use fx_num::{Fix, Number, Plain};
use fx_vec::{Inertia10, Q4, Sp6, V3, Vector3, Vector6};
use std::alloc::Global;

// A list of `n` times `x`.
pub(crate) fn filled<T: Copy>(alloc: Global, n: usize, x: T) -> Result<Array<T>, NoMemory>
    ensures { IfOk result (λ a. a ≡ replicate n x) }
{
    match Array::filled(alloc, n, x) {
        Ok(list) => Ok(list),
        Err(_) => Err(NoMemory),
    }
}

// A list of `n` zeros at scale `F`.
pub(crate) fn zeros<const F: u32>(alloc: Global, n: usize) -> Result<Array<Fix<F>>, NoMemory>
    ensures { IfOk result (λ a. a ≡ replicate n (plain (pos 0))) }
{
    filled(alloc, n, Number { mid: 0, rad: () })
}

// An empty list with room for `most` items.
pub(crate) fn listing<T>(alloc: Global, most: usize) -> Result<Listing<T>, NoMemory>
    ensures { IfOk result (λ s. s ≡ record { list = []; most = most }) }
{
    match Listing::new(alloc, most) {
        Ok(list) => Ok(list),
        Err(_) => Err(NoMemory),
    }
}

// Zeros of each form, to fill lists with.
pub(crate) fn no_vector() -> V3<Plain, 32> {
    Vector3 {
        x: Number { mid: 0, rad: () },
        y: Number { mid: 0, rad: () },
        z: Number { mid: 0, rad: () },
    }
}

pub(crate) fn no_motion() -> Sp6<Plain, 32> {
    Vector6 {
        ang: no_vector(),
        lin: no_vector(),
    }
}

pub(crate) fn unturned() -> Q4 {
    Q4 {
        w: Number {
            mid: 1 << 32,
            rad: (),
        },
        x: Number { mid: 0, rad: () },
        y: Number { mid: 0, rad: () },
        z: Number { mid: 0, rad: () },
    }
}

pub(crate) fn no_inertia() -> Inertia10 {
    Inertia10 {
        xx: 0,
        xy: 0,
        xz: 0,
        yy: 0,
        yz: 0,
        zz: 0,
        mx: 0,
        my: 0,
        mz: 0,
        mass: 0,
    }
}
