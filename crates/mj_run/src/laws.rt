// Laws over the definitions of specs/.
ghost use Rattle.std.specs.Prelude.{◌≡◌, ◌<◌, ℕ, false, None, List};
ghost use Rattle.mj_types.specs.declared.model.Model.{Model};
ghost use Rattle.mj_types.specs.declared.state.State.{State};
ghost use Rattle.mj_types.specs.declared.wants.Wants.{Wants};
ghost use Rattle.mj_types.specs.Control.{Control};
ghost use Rattle.mj_run.specs.Course as courses;
ghost use Rattle.mj_run.specs.Run as spec;
ghost use Rattle.mj_run.specs.Told.{AreBest};

/// Whatever a run is asked to tell, each step that it tells is one that isn't refused.
pub fn told_steps_are_done()
    ensures { (wants : Wants) (m : Model) (controls : ℕ → List Control) (n k : ℕ)
        → k < courses.done_of (spec.course wants m controls) n
        → spec.refusal_at m controls k ≡ None }
{}

/// Where the inverse dynamics aren't asked for, a run ends as it does without anything asked for, after
/// as many steps.
pub fn told_runs_end_alike()
    ensures done { (wants : Wants) (m : Model) (controls : ℕ → List Control) (n : ℕ)
        → wants.inverse ≡ false
        → courses.done_of (spec.course wants m controls) n ≡ spec.done_of m controls n }
    ensures end { (wants : Wants) (m : Model) (controls : ℕ → List Control) (n : ℕ)
        → wants.inverse ≡ false
        → courses.end_of (spec.course wants m controls) n ≡ spec.end_of m controls n }
{}

/// Each force of a row by itself that a run tells is within one unit of the row's rational optimum.
pub fn told_forces_are_best()
    ensures { (m : Model) (s : State) (u : List Control) → AreBest m s u }
{}
