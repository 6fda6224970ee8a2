// Laws over the definitions of specs/, for the layers above to stand on.
ghost use Rattle.std.specs.Prelude.{◌≡◌, ℕ, ◌<◌, Bool, false, ℤ, pos};
ghost use Rattle.mj_tree.specs.Tree.{IsForest};
ghost use Rattle.mj_factor.specs.Factors.{work_entry, work, lower};
ghost use Rattle.mj_factor.specs.Solves.{back_entry, back, forth_entry, forth};

/// Each number of a factor follows from those of the later rows.
pub fn factor_follows()
    ensures { (n : ℕ) (m : ℕ → ℕ → ℤ) (k i : ℕ) → k < n
        → work n m k i ≡ work_entry n m (work n m) k i }
{}

/// Where the matrix is 0 for each two dofs of which neither is above the other, so is the factor: sums
/// over all dofs are sums over those above.
pub fn unlisted_entries_are_zero()
    ensures work { (n : ℕ) (m : ℕ → ℕ → ℤ) (above : ℕ → ℕ → Bool) → IsForest n above
        → ((k i : ℕ) → k < n → i < k → above i k ≡ false → m k i ≡ pos 0)
        → (k i : ℕ) → k < n → i < k → above i k ≡ false → work n m k i ≡ pos 0 }
    ensures lower { (n : ℕ) (m : ℕ → ℕ → ℤ) (above : ℕ → ℕ → Bool) → IsForest n above
        → ((k i : ℕ) → k < n → i < k → above i k ≡ false → m k i ≡ pos 0)
        → (k i : ℕ) → k < n → i < k → above i k ≡ false → lower n m k i ≡ pos 0 }
{}

/// Each number of a solve follows from the later ones on the way back, and from the earlier ones on
/// the way forth.
pub fn solve_follows()
    ensures back { (n : ℕ) (l : ℕ → ℕ → ℤ) (x : ℕ → ℤ) (i : ℕ) → i < n
        → back n l x i ≡ back_entry n l x (back n l x) i }
    ensures forth { (l : ℕ → ℕ → ℤ) (z : ℕ → ℤ) (i : ℕ)
        → forth l z i ≡ forth_entry l z (forth l z) i }
{}
