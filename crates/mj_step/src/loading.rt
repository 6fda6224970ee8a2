// What pushes on each dof: the applied force less the bias force, and the forces of the constraints.
ghost use Rattle.std.specs.Prelude.{◌≡◌, ◌+◌, ◌^◌, ◌<◌, ◌≤◌, ◌+ℤ◌, ◌*ℤ◌, ℕ, length, unsigned_abs, IfOk, OnOk};
ghost use Rattle.fx_whole.specs.First.{refusal_of, first_to};
ghost use Rattle.fx_num.specs.Settled.{settled_mid};
ghost use Rattle.mj_types.specs.declared.range.Quantity.TheVariants as kind;
ghost use Rattle.mj_types.specs.Parts.{number_at};
ghost use Rattle.mj_types.specs.Ranges.{limited};
ghost use Rattle.mj_step.specs.Workspace as spec;

use fx_list::Array;
use fx_num::{Fix, Number, Wide, narrow_within};
use fx_whole::{add_product, nearest_shift};
use mj_types::{Dual, Forces, OutOfRange, Quantity, Rows};

// `total + j f`.
fn plus_product(total: &Wide<52>, j: &Fix<32>, f: &Fix<20>) -> Wide<52>
    requires total { unsigned_abs total.now.raw ≤ 2 ^ 109 }
    requires j { unsigned_abs j.now.mid ≤ 2 ^ 48 }
    requires f { unsigned_abs f.now.mid ≤ 2 ^ 50 }
    ensures value { result.raw ≡ total.now.raw +ℤ j.now.mid *ℤ f.now.mid }
    ensures size { unsigned_abs result.raw ≤ unsigned_abs total.now.raw + 2 ^ 98 }
{
    Wide {
        raw: add_product(total.raw, j.mid, f.mid),
    }
}

// What the constraints push at dof `i`: the sum over the dual's rows of Jacobian times force, exact.
fn push(nv: usize, rows: &Rows, dual: &Dual, forces: &Forces, i: usize) -> Wide<52>
    requires dof { i < nv }
    requires can { spec.CanPush nv rows.now dual.now forces.now }
    ensures value { result.raw ≡ spec.push_of nv rows.now dual.now forces.now i }
    ensures size { unsigned_abs result.raw ≤ 2 ^ 108 }
{
    let jacobians = rows.jac.as_slice();
    let mut total = Wide { raw: 0 };
    for k in 0..dual.m {
        let row = dual.place.at(k) - 1;
        total = plus_product(&total, &jacobians[row * nv + i], forces.f.entry(k));
    }
    total
}

// The load at a dof, of any size.
fn load_of(free: &Fix<32>, push: &Wide<52>) -> Wide<32>
    requires free { unsigned_abs free.now.mid ≤ 2 ^ 54 }
    requires push { unsigned_abs push.now.raw ≤ 2 ^ 108 }
    ensures { result.raw ≡ free.now.mid +ℤ settled_mid push.now.raw 20 }
{
    Wide {
        raw: i128::from(free.mid) + nearest_shift(push.raw, 20),
    }
}

// The load at dof `i`, where it is in its range.
fn within_load(load: &Wide<32>, i: usize) -> Result<Fix<32>, OutOfRange>
    requires { i < 64 }
    ensures value { IfOk result (λ x. x.mid ≡ load.now.raw) }
    ensures small { IfOk result (λ x. unsigned_abs x.mid ≤ 2 ^ 54) }
    ensures first { refusal_of result ≡ limited kind.Load (i + 1) (2 ^ 54) load.now.raw }
{
    match narrow_within(&load.raw, 1 << 54) {
        Ok(mid) => Ok(Number { mid, rad: () }),
        Err(_) => Err(OutOfRange {
            kind: Quantity::Load,
            index: i + 1,
        }),
    }
}

/// The load of each of `nv` dofs: the free load, and what the constraints push, rounded once. `Load`
/// names the first dof whose load passes 2^54.
pub(crate) fn fill_load(
    nv: usize,
    free: &[Fix<32>],
    rows: &Rows,
    dual: &Dual,
    forces: &Forces,
    load: &mut Array<Fix<32>>,
) -> Result<(), OutOfRange>
    requires few { nv ≤ 64 }
    requires free_room { length free.now ≡ nv }
    requires room { length load.old ≡ nv }
    requires free { (i : ℕ) → i < nv → unsigned_abs (number_at free.now i) ≤ 2 ^ 54 }
    requires can { spec.CanPush nv rows.now dual.now forces.now }
    ensures len { length load.new ≡ length load.old }
    ensures value { OnOk result ((i : ℕ) → i < nv → number_at load.new i
        ≡ number_at free.now i
        +ℤ settled_mid (spec.push_of nv rows.now dual.now forces.now i) 20) }
    ensures small { OnOk result ((i : ℕ) → i < nv → unsigned_abs (number_at load.new i) ≤ 2 ^ 54) }
    ensures first { refusal_of result ≡ first_to nv (λ i. limited kind.Load (i + 1) (2 ^ 54)
        (number_at free.now i
        +ℤ settled_mid (spec.push_of nv rows.now dual.now forces.now i) 20)) }
{
    for i in 0..nv {
        let here = within_load(&load_of(&free[i], &push(nv, rows, dual, forces, i)), i)?;
        load.put(i, here);
    }
    Ok(())
}
