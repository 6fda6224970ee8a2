// The dual of each state is regular and holds the force 0, whatever the state is.
ghost use Rattle.std.specs.Prelude.{ℕ, ℤ, All};
ghost use Rattle.mj_optimum.specs.Problem.{IsRegular};
ghost use Rattle.mj_optimum.specs.Feasible.{HoldsZero};
ghost use Rattle.mj_types.specs.declared.model.Model.{Model};
ghost use Rattle.mj_types.specs.declared.parts.Soft.{Soft};
ghost use Rattle.mj_types.specs.declared.state.State.{State};
ghost use Rattle.mj_types.specs.Lawful.{IsSoft};
ghost use Rattle.mj_types.specs.Placed.{Placing};
ghost use Rattle.mj_contact.specs.Lists.{contact_list};
ghost use Rattle.mj_imp.specs.Impedance.{impedance, LiesBetween};
ghost use Rattle.mj_rows.specs.Constraints.{constraints};
ghost use Rattle.mj_dual.specs.Assembly.{dual_of};
ghost use Rattle.mj_dual.specs.Reductions.{Dynamics};
ghost use Rattle.mj_dual.specs.Lawful.{IsLawful};

/// The impedance of a softness that a model may have lies between its dmin and its dmax, whatever
/// the violation is (MuJoCo documentation, Computation, solver parameters).
pub fn impedance_lies_between()
    ensures { (s : Soft) (r : ℤ) → IsSoft s → LiesBetween s.dmin.mid s.dmax.mid (impedance s r) }
{}

/// Each constraint of each state of each model has a softness that a model may have, and the force
/// 0 is within its bounds.
pub fn constraints_are_lawful()
    ensures { (m : Model) (s : State) (x : Placing) (lengths : ℕ → ℤ)
        → All IsLawful (constraints m s x lengths (contact_list m x)) }
{}

/// In the dual of each state of each model every regularizer is above 0, and the force 0 is within
/// all bounds, whatever the placing, the tendons' lengths and the dynamics are.
pub fn state_duals_are_lawful()
    ensures regular { (m : Model) (s : State) (x : Placing) (lengths : ℕ → ℤ) (y : Dynamics)
        → IsRegular (dual_of y (constraints m s x lengths (contact_list m x))).problem }
    ensures zero { (m : Model) (s : State) (x : Placing) (lengths : ℕ → ℤ) (y : Dynamics)
        → HoldsZero (dual_of y (constraints m s x lengths (contact_list m x))).problem }
{}
