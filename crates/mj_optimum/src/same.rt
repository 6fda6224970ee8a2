// What two problems have in common that agree in their rows and dofs: what a problem holds past these counts
// for nothing.
ghost use Rattle.std.specs.Prelude.{◌≡◌, ℕ, ◌<◌, ℤ};
ghost use Rattle.mj_optimum.specs.Problem.{Problem};
ghost use Rattle.mj_optimum.specs.Cost.{cost};
ghost use Rattle.mj_optimum.specs.Feasible.{IsFeasible};
ghost use Rattle.mj_optimum.specs.Enclosure.{BoundHolds, BoxHolds};
ghost use Rattle.mj_optimum.specs.Shortfall.{bound2};
ghost use Rattle.mj_optimum.specs.Box.{lo, hi};
ghost use Rattle.mj_optimum.specs.Sweep.{iterate};
ghost use Rattle.mj_optimum.specs.Stop.{stop_of};
ghost use Rattle.mj_optimum.specs.Agreement.{HaveSameRows};

/// Their sweeps from 0 give the same forces everywhere, and stop alike.
pub fn same_iterates()
    ensures forces { (p q : Problem) (s : ℕ) → HaveSameRows p q → iterate p s ≡ iterate q s }
    ensures stop { (p q : Problem) (tolerance : ℤ) (limit : ℕ) → HaveSameRows p q
        → stop_of p tolerance limit ≡ stop_of q tolerance limit }
{}

/// Forces have the same cost, the same bound below it and, in each row, the same box.
pub fn same_certificate()
    ensures cost { (p q : Problem) (n : ℕ → ℤ) (d : ℤ) → HaveSameRows p q
        → cost p n d ≡ cost q n d }
    ensures bound { (p q : Problem) (f : ℕ → ℤ) → HaveSameRows p q → bound2 p f ≡ bound2 q f }
    ensures low { (p q : Problem) (f : ℕ → ℤ) (i : ℕ) → HaveSameRows p q → i < p.m
        → lo p f i ≡ lo q f i }
    ensures high { (p q : Problem) (f : ℕ → ℤ) (i : ℕ) → HaveSameRows p q → i < p.m
        → hi p f i ≡ hi q f i }
{}

/// What is feasible for one is for the other; so is what bounds its cost, and what encloses its
/// forces.
pub fn same_promises()
    ensures feasible { (p q : Problem) (n : ℕ → ℤ) (d : ℤ) → HaveSameRows p q → IsFeasible p n d
        → IsFeasible q n d }
    ensures bound { (p q : Problem) (x : ℤ) → HaveSameRows p q → BoundHolds p x → BoundHolds q x }
    ensures box_ends { (p q : Problem) (f low high : ℕ → ℤ) → HaveSameRows p q
        → BoxHolds p f low high → BoxHolds q f low high }
{}
