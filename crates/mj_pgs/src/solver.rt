// The sweeps, until they end.
ghost use Rattle.std.specs.Prelude.{◌≡◌, ℕ, suc, ◌^◌, ◌<◌, ◌≤◌, pos, ◌*ℤ◌, ◌≤ℤ◌, ◌↔◌, IsTrue, IfOk};
ghost use Rattle.mj_optimum.specs.Cost.{cost};
ghost use Rattle.mj_optimum.specs.Stop.{stop_of, sweeps_of};
ghost use Rattle.mj_optimum.specs.Sweep.{iterate};
ghost use Rattle.mj_types.specs.Problems as problems;
ghost use Rattle.mj_types.specs.Problems.{IsSolvable, problem, forces};
ghost use Rattle.mj_types.specs.Solved.{IsSolved};
ghost use Rattle.mj_pgs.specs.Answer as spec;
ghost use Rattle.mj_pgs.specs.Holding.{HasPlaces, HaveSamePlaces};

use crate::start::start;
use crate::sweep::round;
use fx_num::{Fix, Wide};
use fx_whole::scale_up;
use mj_types::{Dual, Forces, OutOfRange, Stop};

// Whether a fall of the cost is within the tolerance.
fn is_within(fall: Wide<88>, tolerance: Fix<32>) -> bool
    ensures { IsTrue result ↔ (fall.raw ≤ℤ (tolerance.mid *ℤ pos (2 ^ 56))) }
{
    fall.raw <= scale_up(tolerance.mid, 56)
}

// The sweeps of `solve`, whose further clauses follow from these.
fn run(
    dual: &Dual,
    iterations: u32,
    tolerance: Fix<32>,
    out: &mut Forces,
) -> Result<Stop, OutOfRange>
    requires solvable { IsSolvable dual.now }
    requires places { HasPlaces dual.now out.old }
    ensures places { HaveSamePlaces out.old out.new }
    ensures answer { result
        ≡ spec.answer (problem dual.now) (problems.place dual.now) tolerance.mid iterations }
    ensures forces { IfOk result (λ stop.
        forces out.new ≡ iterate (problem dual.now) (sweeps_of stop)) }
    ensures solved { IfOk result (λ _. IsSolved dual.now out.new) }
{
    start(dual, out);
    if dual.m == 0 {
        return Ok(Stop::NoRows);
    }
    for s in 0..iterations {
        let fall = round(dual, out)?;
        if is_within(fall, tolerance) {
            return Ok(Stop::Tolerance(s + 1));
        }
    }
    Ok(Stop::Limit(iterations))
}

/// Sweeps over a dual's rows from forces of 0, by projected Gauss-Seidel (MuJoCo documentation,
/// Computation): until the first sweep that lowers twice the cost by at most `tolerance`, or to
/// `iterations` sweeps. `u` is `G^T f` afterwards. A force past 2^30, a number of `u` past 2^15, and after
/// a sweep a sum of the cost past 2^36 end the run: `index` is the row's `place`, or the dof's number
/// from 1.
pub fn solve(
    dual: &Dual,
    iterations: u32,
    tolerance: Fix<32>,
    out: &mut Forces,
) -> Result<Stop, OutOfRange>
    requires solvable { IsSolvable dual.now }
    requires places { HasPlaces dual.now out.old }
    requires iterations { 1 ≤ iterations }
    requires tolerance { pos 0 ≤ℤ tolerance.mid }
    ensures places { HaveSamePlaces out.old out.new }
    ensures answer { result
        ≡ spec.answer (problem dual.now) (problems.place dual.now) tolerance.mid iterations }
    ensures stop { IfOk result (λ stop. stop
        ≡ stop_of (problem dual.now) tolerance.mid iterations) }
    ensures forces { IfOk result (λ stop.
        forces out.new ≡ iterate (problem dual.now) (sweeps_of stop)) }
    ensures solved { IfOk result (λ _. IsSolved dual.now out.new) }
    ensures falls { IfOk result (λ stop. (s : ℕ) → s < sweeps_of stop
        → cost (problem dual.now) (iterate (problem dual.now) (suc s)) (pos 1)
        ≤ℤ cost (problem dual.now) (iterate (problem dual.now) s) (pos 1)) }
    ensures cost { IfOk result (λ _. cost (problem dual.now) (forces out.new) (pos 1) ≤ℤ pos 0) }
{
    run(dual, iterations, tolerance, out)
}
