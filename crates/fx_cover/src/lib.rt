//! Covering of vectors: products, sums and roundings of vectors with radii cover those of the exact
//! vectors that they may stand for. Each function is a law, and its body is empty.
#![tactic(auto)]

ghost use Rattle.std.specs.Prelude.{◌+◌, ◌-◌, ◌^◌, ◌≤◌, ℕ, ℤ};
ghost use Rattle.fx_near.specs.Covers.{Covers};
ghost use Rattle.fx_near.specs.Widths.{settled_radius};
ghost use Rattle.fx_vec.specs.Settling.{settled6, radii6};
ghost use Rattle.fx_vec.specs.Spatial as spatial;
ghost use Rattle.fx_vec.specs.Widths as width;
ghost use Rattle.fx_cover.specs.Covering.{Covers6};

/// The power of a covered force on a covered motion covers the exact power, at the sum of their
/// scales.
pub fn pair_covers()
    ensures { (s f n m : spatial.Spatial ℤ) (rs rf : spatial.Spatial ℕ) (a b g k : ℕ)
        → Covers6 s rs a n g → Covers6 f rf b m k
        → Covers (spatial.pair s f) (width.pair_width s rs f rf) (a + b) (spatial.pair n m)
        (2 ^ (g + k)) }
{}

/// The rate of a covered motion that moves with a covered velocity covers the exact rate.
pub fn motion_cross_covers()
    ensures { (v s n m : spatial.Spatial ℤ) (rv rs : spatial.Spatial ℕ) (f h g k : ℕ)
        → Covers6 v rv f n g → Covers6 s rs h m k
        → Covers6 (spatial.motion_cross v s) (width.motion_cross_width v rv s rs) (f + h)
        (spatial.motion_cross n m) (g + k) }
{}

/// The same of a force.
pub fn force_cross_covers()
    ensures { (v w n m : spatial.Spatial ℤ) (rv rf : spatial.Spatial ℕ) (f h g k : ℕ)
        → Covers6 v rv f n g → Covers6 w rf h m k
        → Covers6 (spatial.force_cross v w) (width.force_cross_width v rv w rf) (f + h)
        (spatial.force_cross n m) (g + k) }
{}

/// The momentum of an exact inertia at scale `e` that moves with a covered velocity covers the exact
/// momentum.
pub fn inertia_covers()
    ensures { (i : spatial.Inertia) (s n : spatial.Spatial ℤ) (r : spatial.Spatial ℕ) (e f g : ℕ)
        → Covers6 s r f n g
        → Covers6 (spatial.inertia_times i s) (width.inertia_width i r) (e + f)
        (spatial.inertia_times i n) (e + g) }
{}

/// Six covered sums that are rounded from scale `p` to scale `f` cover what they covered before.
pub fn settled6_covers()
    ensures { (s n : spatial.Spatial ℤ) (w : spatial.Spatial ℕ) (f p g : ℕ) → f ≤ p
        → Covers6 s w p n g
        → Covers6 (settled6 s (p - f)) (radii6 settled_radius s w (p - f)) f n g }
{}
