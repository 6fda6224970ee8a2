// The sweeps over a dual, and the certificate of what they leave.
ghost use Rattle.std.specs.Prelude.{◌≡◌, ℕ, ◌<◌, ◌≤◌, ◌≤ℤ◌, pos, length, IfOk};
ghost use Rattle.fx_whole.specs.First.{refusal_of};
ghost use Rattle.mj_optimum.specs.Cost as costs;
ghost use Rattle.mj_optimum.specs.Box as ends;
ghost use Rattle.mj_optimum.specs.Shortfall.{bound2};
ghost use Rattle.mj_optimum.specs.Stop.{stop_of};
ghost use Rattle.mj_types.specs.Parts.{number_at};
ghost use Rattle.mj_types.specs.Problems as problems;
ghost use Rattle.mj_types.specs.Solved.{IsSolved};
ghost use Rattle.mj_types.specs.StepValues.{dual_values};
ghost use Rattle.mj_pgs.specs.Holding.{HasPlaces, HaveSamePlaces};
ghost use Rattle.mj_force.specs.Enclosures as spec;

use fx_num::Fix;
use mj_cert::certify;
use mj_pgs::solve;
use mj_types::{Cert, Dual, Forces, OutOfRange, Stop};

/// Solves a dual by projected Gauss-Seidel (MuJoCo documentation, Computation) and certifies the
/// forces that it leaves (the certificate is this project's own): twice their cost, a bound that
/// twice the cost of no feasible rational force is below, both at 2^-88, and for each row the ends,
/// at 2^-20, of a box that holds every feasible rational force that costs no more. `tolerance` is at
/// 2^-32; the sweeps end as `mj_pgs::solve` says. With no row there is no sweep, and cost and bound
/// are 0.
///
/// It refuses at the first number out of range, of the sweeps and then of the certificate. The lists
/// of `forces` and `cert` keep their lengths.
pub fn enclose(
    dual: &Dual,
    iterations: u32,
    tolerance: Fix<32>,
    forces: &mut Forces,
    cert: &mut Cert,
) -> Result<Stop, OutOfRange>
    requires solvable { problems.IsSolvable dual.now }
    requires forces_room { HasPlaces dual.now forces.old }
    requires lo_room { dual.now.m ≤ length cert.old.lo }
    requires hi_room { dual.now.m ≤ length cert.old.hi }
    requires slope_room { dual.now.m ≤ length cert.old.slope }
    requires depth_room { dual.now.m ≤ length cert.old.depth }
    requires iterations { 1 ≤ iterations }
    requires tolerance { pos 0 ≤ℤ tolerance.mid }
    ensures places { HaveSamePlaces forces.old forces.new }
    ensures lo_len { length cert.new.lo ≡ length cert.old.lo }
    ensures hi_len { length cert.new.hi ≡ length cert.old.hi }
    ensures slope_len { length cert.new.slope ≡ length cert.old.slope }
    ensures depth_len { length cert.new.depth ≡ length cert.old.depth }
    ensures first { refusal_of result
        ≡ spec.enclosure_fault (dual_values dual.now) tolerance.mid iterations }
    ensures stop { IfOk result (λ stop. stop
        ≡ stop_of (dual_values dual.now).problem tolerance.mid iterations) }
    ensures forces { IfOk result (λ _. problems.forces forces.new
        ≡ spec.force_of (dual_values dual.now).problem tolerance.mid iterations) }
    ensures solved { IfOk result (λ _. IsSolved dual.now forces.new) }
    ensures cost { IfOk result (λ _. cert.new.cost2
        ≡ costs.cost (dual_values dual.now).problem
        (spec.force_of (dual_values dual.now).problem tolerance.mid iterations) (pos 1)) }
    ensures bound { IfOk result (λ _. cert.new.bound2
        ≡ bound2 (dual_values dual.now).problem
        (spec.force_of (dual_values dual.now).problem tolerance.mid iterations)) }
    ensures low { IfOk result (λ _. (i : ℕ) → i < dual.now.m → number_at cert.new.lo i
        ≡ ends.lo (dual_values dual.now).problem
        (spec.force_of (dual_values dual.now).problem tolerance.mid iterations) i) }
    ensures high { IfOk result (λ _. (i : ℕ) → i < dual.now.m → number_at cert.new.hi i
        ≡ ends.hi (dual_values dual.now).problem
        (spec.force_of (dual_values dual.now).problem tolerance.mid iterations) i) }
    ensures enclosed { IfOk result (λ _. spec.IsEnclosed (dual_values dual.now).problem
        (spec.force_of (dual_values dual.now).problem tolerance.mid iterations)
        (bound2 (dual_values dual.now).problem
        (spec.force_of (dual_values dual.now).problem tolerance.mid iterations))
        (ends.lo (dual_values dual.now).problem
        (spec.force_of (dual_values dual.now).problem tolerance.mid iterations))
        (ends.hi (dual_values dual.now).problem
        (spec.force_of (dual_values dual.now).problem tolerance.mid iterations))) }
{
    let stop = solve(dual, iterations, tolerance, forces)?;
    certify(dual, forces, cert)?;
    Ok(stop)
}
