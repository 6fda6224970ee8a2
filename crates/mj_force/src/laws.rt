// What a dual's own rows promise of its forces.
ghost use Rattle.std.specs.Prelude.{ℕ, ℤ};
ghost use Rattle.mj_optimum.specs.Problem.{IsRegular, Problem};
ghost use Rattle.mj_optimum.specs.Feasible.{HoldsZero};
ghost use Rattle.mj_optimum.specs.Shortfall.{bound2};
ghost use Rattle.mj_optimum.specs.Box.{hi, lo};
ghost use Rattle.mj_types.specs.declared.dual.Dual.{Dual};
ghost use Rattle.mj_types.specs.Problems.{IsSolvable};
ghost use Rattle.mj_types.specs.StepValues.{dual_values, own};
ghost use Rattle.mj_optimum.specs.Agreement.{HaveSameRows};
ghost use Rattle.mj_force.specs.Enclosures.{IsEnclosed, force_of};

/// What a problem holds past its rows and dofs counts for nothing.
pub fn problems_read_own_rows()
    ensures { (p : Problem) → HaveSameRows p (own p) }
{}

/// The regularizer of each row of a dual is above 0, and the bounds of one that a solver takes hold
/// the force 0.
pub fn duals_are_lawful()
    ensures regular { (d : Dual) → IsRegular (dual_values d).problem }
    ensures zero { (d : Dual) → IsSolvable d → HoldsZero (dual_values d).problem }
{}

/// The forces after the sweeps are feasible, no feasible rational force costs less than the bound,
/// and each that costs no more than they do is within the box.
pub fn forces_are_enclosed()
    ensures { (p : Problem) (tolerance : ℤ) (limit : ℕ) → IsRegular p → HoldsZero p
        → IsEnclosed p (force_of p tolerance limit) (bound2 p (force_of p tolerance limit))
        (lo p (force_of p tolerance limit)) (hi p (force_of p tolerance limit)) }
{}
