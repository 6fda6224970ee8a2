// What a factor of a shifted matrix proves of the matrix's solutions.
ghost use Rattle.std.specs.Prelude.{◌≡◌, ℕ, ◌+◌, ◌*◌, ◌<◌, ◌≤◌, ℤ, pos, ◌≤ℤ◌, unsigned_abs};
ghost use Rattle.fx_whole.specs.Sums.{sum_ℕ_to};
ghost use Rattle.mj_quadratic.specs.Forms.{row_size, IsSymmetric, less_diagonal, error};
ghost use Rattle.mj_quadratic.specs.Balls.{miss, Encloses};

/// Let `d` and `l` be a factor of the symmetric `m` less `c` on its diagonal, with no pivot below
/// 0, and let the errors of each row sum to at most `g`. Where `low w + g <= c w`, `y . m y` is at
/// least `low` times `y . y`; so each solution of `m x = v s` is at most `r` away from `a` where
/// `r low` is at least the sum of all misses of `a`.
pub fn ball_holds()
    ensures { (n : ℕ) (m : ℕ → ℕ → ℤ) (c w g low r : ℕ) (d : ℕ → ℤ) (l : ℕ → ℕ → ℤ)
        (a s : ℕ → ℤ) (v : ℤ) → IsSymmetric n m
        → ((i : ℕ) → i < n → pos 0 ≤ℤ d i)
        → ((i : ℕ) → i < n
        → row_size n (error n (pos w) (less_diagonal (pos c) m) d l) i ≤ g)
        → 0 < w → low * w + g ≤ c * w → 0 < low
        → sum_ℕ_to n (λ i. unsigned_abs (miss n m a s v i)) ≤ r * low
        → Encloses n m a s v (pos r) }
{}
