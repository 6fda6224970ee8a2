// What the printed radii, the printed residual, the printed forces and the printed ball of a step are
// worth.
ghost use Rattle.std.specs.Prelude.{List};
ghost use Rattle.mj_step.specs.Certified.{IsCertified};
ghost use Rattle.mj_step.specs.Covered.{IsCovered};
ghost use Rattle.mj_step.specs.Enclosed.{IsInBall};
ghost use Rattle.mj_types.specs.declared.model.Model.{Model};
ghost use Rattle.mj_types.specs.declared.state.State.{State};
ghost use Rattle.mj_types.specs.Control.{Control};

/// The largest radius of a state's mass matrix covers what rounding did to each entry of two dofs of
/// which one is above the other: the unrounded entry, at scale 104, from the same columns and inertias.
/// The largest radius of its bias forces covers what rounding did to each: the unrounded force, at scale
/// 200, from the same columns, inertias, velocities and gravity. The residual is at least the error of
/// each row of the equation of motion.
pub fn steps_are_covered()
    ensures { (m : Model) (s : State) (u : List Control) → IsCovered m s u }
{}

/// In the dual of the state that a step starts from, the forces that it tells are feasible, every feasible
/// rational force costs at least the bound that it tells, and every one that costs no more than the forces
/// lies in the box that it tells.
pub fn steps_are_certified()
    ensures { (m : Model) (s : State) (u : List Control) → IsCertified m s u }
{}

/// The ball of a step holds each rational solution of the step's own equation of motion.
pub fn solutions_are_in_balls()
    ensures { (m : Model) (s : State) (u : List Control) → IsInBall m s u }
{}
