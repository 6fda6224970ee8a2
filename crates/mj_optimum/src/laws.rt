// Laws over the definitions of specs/, for a solver, a certificate and a checker to stand on.
ghost use Rattle.std.specs.Prelude.{◌≡◌, ℕ, suc, ◌^◌, ◌<◌, ℤ, pos, ◌+ℤ◌, ◌-ℤ◌, ◌*ℤ◌, neg_ℤ, ◌<ℤ◌, ◌≤ℤ◌, unsigned_abs, int_le, cond, Some, None};
ghost use Rattle.fx_whole.specs.Sums.{sum_to};
ghost use Rattle.fx_whole.specs.Least.{IsLeast};
ghost use Rattle.fx_whole.specs.Nearest.{IsNearest};
ghost use Rattle.mj_optimum.specs.Problem.{Problem, IsRegular};
ghost use Rattle.mj_optimum.specs.Cost.{reach, cost, gradient};
ghost use Rattle.mj_optimum.specs.Feasible.{IsFeasible, HoldsZero};
ghost use Rattle.mj_optimum.specs.Enclosure.{BoundHolds, BoxHolds, IsOnly, away, parabola};
ghost use Rattle.mj_optimum.specs.Shortfall.{depth, shortfall, total_shortfall, bound2};
ghost use Rattle.mj_optimum.specs.Box.{HasRisen, rise, lo, hi};
ghost use Rattle.mj_optimum.specs.Sweep.{LiesBetween, change, divisor, drop_of, iterate, put_at, row_change};
ghost use Rattle.mj_optimum.specs.Stop.{stop_of};
ghost use Rattle.mj_optimum.specs.declared.stop.Stop.TheVariants.{NoRows, Tolerance, Limit};

// ---- the cost

/// The cost of `n / d` is that of `f`, one parabola for each row, and the squares of what the way
/// from `f` to `n / d` adds to `u`; all times `d^2`.
pub fn cost_expands()
    ensures { (p : Problem) (n f : ℕ → ℤ) (d : ℤ) → cost p n d
        ≡ (d *ℤ d) *ℤ cost p f (pos 1)
        +ℤ sum_to p.m (λ i. parabola (gradient p f i) (p.r i) (away n d f i) d)
        +ℤ sum_to p.nv (λ k. reach p (away n d f) k *ℤ reach p (away n d f) k) }
{}

/// The gradient as a sum over all pairs of rows, without `u`: row `i` of `(G G^T + R) f + b`.
pub fn gradient_over_rows()
    ensures { (p : Problem) (f : ℕ → ℤ) (i : ℕ) → gradient p f i
        ≡ sum_to p.m (λ j. sum_to p.nv (λ k. p.g i k *ℤ p.g j k) *ℤ f j)
        +ℤ p.r i *ℤ f i
        +ℤ pos (2 ^ 36) *ℤ p.b i }
{}

/// What one force that is set to `x` changes: `u` moves along its row, and the cost changes by the
/// parabola of the whole diagonal.
pub fn one_force_changes()
    ensures reach { (p : Problem) (f : ℕ → ℤ) (i : ℕ) (x : ℤ) (k : ℕ) → i < p.m
        → reach p (put_at f i x) k ≡ reach p f k +ℤ p.g i k *ℤ (x -ℤ f i) }
    ensures cost { (p : Problem) (f : ℕ → ℤ) (i : ℕ) (x : ℤ) → i < p.m
        → cost p (put_at f i x) (pos 1)
        ≡ cost p f (pos 1) +ℤ change (gradient p f i) (divisor p i) (x -ℤ f i) }
{}

// ---- the certificate

/// Within a row's bounds its parabola falls by at most its shortfall, whether or not `f` is
/// feasible.
pub fn parabola_is_least()
    ensures { (p : Problem) (n f : ℕ → ℤ) (d : ℤ) → IsRegular p → pos 0 <ℤ d → IsFeasible p n d
        → (i : ℕ) → i < p.m
        → pos 0 ≤ℤ (parabola (gradient p f i) (p.r i) (away n d f i) d
        +ℤ (d *ℤ d) *ℤ shortfall p f i) }
{}

/// Past its vertex a parabola rises: beyond a step `k` at which it is at least `t` it is above `t`.
pub fn rise_past_vertex()
    ensures { (g r t s d : ℤ) (k : ℕ) → pos 0 <ℤ r → pos 0 <ℤ d → HasRisen g r t k
        → (d *ℤ pos k) <ℤ s → ((d *ℤ d) *ℤ t) <ℤ parabola g r s d }
{}

/// The rise is the least step past the vertex at which the parabola is at least `t`.
pub fn rise_is_least()
    ensures { (g r t : ℤ) → pos 0 <ℤ r → IsLeast (HasRisen g r t) (rise g r t) }
{}

/// No feasible rational force costs less than the bound, whatever forces it was made from.
pub fn bound_holds()
    ensures { (p : Problem) (f : ℕ → ℤ) → IsRegular p → BoundHolds p (bound2 p f) }
{}

/// Every feasible rational force that costs no more than `f` is within the box.
pub fn box_holds()
    ensures { (p : Problem) (f : ℕ → ℤ) → IsRegular p → BoxHolds p f (lo p f) (hi p f) }
{}

/// Where no row falls short, no feasible rational force costs less than `f`.
pub fn optimum_holds()
    ensures { (p : Problem) (f : ℕ → ℤ) → IsRegular p → total_shortfall p f ≡ pos 0
        → BoundHolds p (cost p f (pos 1)) }
{}

/// A feasible force than which none costs less is the only one of its cost.
pub fn optimum_is_only()
    ensures { (p : Problem) (f : ℕ → ℤ) → IsRegular p → IsFeasible p f (pos 1)
        → BoundHolds p (cost p f (pos 1)) → IsOnly p f }
{}

/// The shortfall of a row with the low bound 0 and no high one.
pub fn shortfall_from_zero()
    ensures { (p : Problem) (f : ℕ → ℤ) (i : ℕ) → p.low i ≡ Some (pos 0) → p.high i ≡ None
        → pos 0 ≤ℤ f i → pos 0 ≤ℤ p.r i
        → shortfall p f i
        ≡ cond (int_le (p.r i *ℤ f i) (gradient p f i))
        (f i *ℤ (pos 2 *ℤ gradient p f i -ℤ p.r i *ℤ f i))
        (depth (unsigned_abs (gradient p f i)) (unsigned_abs (p.r i))) }
{}

// ---- the sweeps

/// No change of a force that goes the way of the nearest step, and no further, raises the cost.
pub fn change_never_rises()
    ensures { (slope d q c : ℤ) → pos 0 <ℤ d → IsNearest (neg_ℤ slope) d q → LiesBetween q c
        → change slope d c ≤ℤ pos 0 }
{}

/// Where 0 is within the bounds, so are the forces after each sweep.
pub fn iterate_is_feasible()
    ensures { (p : Problem) (s : ℕ) → HoldsZero p → IsFeasible p (iterate p s) (pos 1) }
{}

/// No sweep raises the cost, and what it lowers it by is the sum of what its rows do.
pub fn sweep_lowers_cost()
    ensures falls { (p : Problem) (s : ℕ) → HoldsZero p
        → cost p (iterate p (suc s)) (pos 1) ≤ℤ cost p (iterate p s) (pos 1) }
    ensures below_zero { (p : Problem) (s : ℕ) → HoldsZero p
        → cost p (iterate p s) (pos 1) ≤ℤ pos 0 }
    ensures drop { (p : Problem) (s : ℕ) → drop_of p s
        ≡ neg_ℤ (sum_to p.m (row_change p (iterate p s))) }
{}

/// The stop is after the first sweep whose drop is within the tolerance, or at the limit.
pub fn stop_is_first()
    ensures no_rows { (p : Problem) (tolerance : ℤ) (limit : ℕ) → p.m ≡ 0
        → stop_of p tolerance limit ≡ NoRows }
    ensures within_tolerance { (p : Problem) (tolerance : ℤ) (limit s : ℕ) → 0 < p.m → s < limit
        → ((k : ℕ) → k < s → (tolerance *ℤ pos (2 ^ 56)) <ℤ drop_of p k)
        → drop_of p s ≤ℤ (tolerance *ℤ pos (2 ^ 56))
        → stop_of p tolerance limit ≡ Tolerance (suc s) }
    ensures at_limit { (p : Problem) (tolerance : ℤ) (limit : ℕ) → 0 < p.m
        → ((k : ℕ) → k < limit → (tolerance *ℤ pos (2 ^ 56)) <ℤ drop_of p k)
        → stop_of p tolerance limit ≡ Limit limit }
{}
