// The slope of the cost along a row.
ghost use Rattle.std.specs.Prelude.{◌≡◌, ◌*◌, ◌+◌, ◌^◌, ◌<◌, ◌≤◌, ◌+ℤ◌, ◌*ℤ◌, pos, length, unsigned_abs};
ghost use Rattle.fx_whole.specs.Sums.{sum_to};
ghost use Rattle.mj_optimum.specs.Cost as spec;
ghost use Rattle.mj_types.specs.Problems as duals;
ghost use Rattle.mj_types.specs.Solved.{IsSolved};
ghost use Rattle.mj_cert.specs.Terms as terms;

use crate::exact::{plus, plus_product, raise, times};
use fx_num::Wide;
use mj_types::{Dual, Forces};

/// The gradient at row `i`: `G u + R f + b`.
pub fn slope_of(dual: &Dual, forces: &Forces, i: usize) -> Wide<68>
    requires row { i < dual.now.m }
    requires f_room { dual.now.m ≤ length forces.now.f }
    requires u_room { dual.now.nv ≤ length forces.now.u }
    requires solved { IsSolved dual.now forces.now }
    ensures { result.raw ≡ spec.gradient (duals.problem dual.now) (duals.forces forces.now) i }
{
    let along = row_product(dual, forces, i);
    let held = times(&dual.r.at(i), &forces.f.at(i));
    plus(&plus(&along, &held), &raise(&dual.b.at(i)))
}

/// Row `i` of `G` times `u`.
fn row_product(dual: &Dual, forces: &Forces, i: usize) -> Wide<68>
    requires row { i < dual.now.m }
    requires u_room { dual.now.nv ≤ length forces.now.u }
    requires solved { IsSolved dual.now forces.now }
    ensures { result.raw ≡ sum_to dual.now.nv (terms.row_term dual.now forces.now i) }
{
    let g = dual.g.as_slice();
    let u = forces.u.as_slice();
    let from = i * dual.nv;
    let mut total = Wide { raw: 0 };
    for k in 0..dual.nv {
        total = plus_product(&total, &g[from + k], &u[k]);
    }
    total
}
