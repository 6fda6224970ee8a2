// Twice the cost of forces.
ghost use Rattle.std.specs.Prelude.{◌≡◌, ◌*◌, ◌+◌, ◌^◌, ◌<◌, ◌≤◌, ◌+ℤ◌, ◌*ℤ◌, pos, length, unsigned_abs};
ghost use Rattle.fx_whole.specs.Sums.{sum_to};
ghost use Rattle.mj_optimum.specs.Cost as spec;
ghost use Rattle.mj_types.specs.Problems as duals;
ghost use Rattle.mj_types.specs.Solved.{IsSolved};
ghost use Rattle.mj_cert.specs.Terms as terms;

use crate::exact::{double, plus, plus_product, weight};
use fx_num::Wide;
use mj_types::{Dual, Forces};

/// `|u|^2 + f R f + 2 f b`, at 2^-88.
pub fn cost_of(dual: &Dual, forces: &Forces) -> Wide<88>
    requires f_room { dual.now.m ≤ length forces.now.f }
    requires u_room { dual.now.nv ≤ length forces.now.u }
    requires solved { IsSolved dual.now forces.now }
    ensures { result.raw ≡ spec.cost (duals.problem dual.now) (duals.forces forces.now) (pos 1) }
{
    let squares = squares(dual, forces);
    let weights = weights(dual, forces);
    let pulls = pulls(dual, forces);
    plus(&plus(&squares, &weights), &double(&pulls))
}

/// The sum of `u^2`.
fn squares(dual: &Dual, forces: &Forces) -> Wide<88>
    requires u_room { dual.now.nv ≤ length forces.now.u }
    requires solved { IsSolved dual.now forces.now }
    ensures { result.raw ≡ sum_to dual.now.nv (terms.square_term forces.now) }
{
    let u = forces.u.as_slice();
    let mut total = Wide { raw: 0 };
    for k in 0..dual.nv {
        total = plus_product(&total, &u[k], &u[k]);
    }
    total
}

/// The sum of `R f^2`.
fn weights(dual: &Dual, forces: &Forces) -> Wide<88>
    requires f_room { dual.now.m ≤ length forces.now.f }
    requires solved { IsSolved dual.now forces.now }
    ensures { result.raw ≡ sum_to dual.now.m (terms.weight_term dual.now forces.now) }
{
    let r = dual.r.as_slice();
    let f = forces.f.as_slice();
    let mut total = Wide { raw: 0 };
    for i in 0..dual.m {
        total = plus(&total, &weight(&r[i], &f[i]));
    }
    total
}

/// The sum of `b f`.
fn pulls(dual: &Dual, forces: &Forces) -> Wide<52>
    requires f_room { dual.now.m ≤ length forces.now.f }
    requires solved { IsSolved dual.now forces.now }
    ensures { result.raw ≡ sum_to dual.now.m (terms.pull_term dual.now forces.now) }
{
    let b = dual.b.as_slice();
    let f = forces.f.as_slice();
    let mut total = Wide { raw: 0 };
    for i in 0..dual.m {
        total = plus_product(&total, &b[i], &f[i]);
    }
    total
}
