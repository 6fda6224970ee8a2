// Laws over the definitions of specs/, for the layers above to stand on.
ghost use Rattle.std.specs.Prelude.{◌≡◌, ℕ, ◌+◌, ◌<◌, Bool, true, List, length, not};
ghost use Rattle.fx_whole.specs.Counting.{count_to};
ghost use Rattle.mj_types.specs.declared.model.Model.{Model};
ghost use Rattle.mj_rows.specs.Constraint.{Constraint};
ghost use Rattle.mj_dual.specs.Assembly.{row_list, dual_of, assembly_fault};
ghost use Rattle.mj_dual.specs.Passing.{passing};
ghost use Rattle.mj_dual.specs.Reductions.{Dynamics, AreSame};

/// The rows that pass are found in their order: each after as many as pass before it, and no
/// others.
pub fn passing_rows_are_found()
    ensures each { (n i : ℕ) (p : ℕ → Bool) → i < n → p i ≡ true
        → passing n p (count_to i p) ≡ i }
    ensures below { (n k : ℕ) (p : ℕ → Bool) → k < count_to n p → passing n p k < n }
    ensures passes { (n k : ℕ) (p : ℕ → Bool) → k < count_to n p → p (passing n p k) ≡ true }
{}

/// Of the dynamics an assembly reads what stands at the dofs alone.
pub fn assembly_reads_dofs()
    ensures rows { (y z : Dynamics) (cs : List Constraint) → AreSame y z
        → row_list y cs ≡ row_list z cs }
    ensures dual { (y z : Dynamics) (cs : List Constraint) → AreSame y z
        → dual_of y cs ≡ dual_of z cs }
    ensures first { (m : Model) (y z : Dynamics) (cs : List Constraint) → AreSame y z
        → assembly_fault m y cs ≡ assembly_fault m z cs }
{}
