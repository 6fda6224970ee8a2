// Laws over the definitions of specs/, for the layers above to stand on.
ghost use Rattle.std.specs.Prelude.{◌≡◌, ℕ, suc, ◌+◌, ◌-◌, ◌^◌, ◌<◌, ◌==◌, cond, ℤ, length};
ghost use Rattle.fx_near.specs.Covers.{Covers};
ghost use Rattle.fx_vec.specs.Spatial.{Spatial, Inertia, plus_inertia, inertia_times};
ghost use Rattle.mj_types.specs.declared.model.Model.{Model};
ghost use Rattle.mj_types.specs.Parts.{parent_of, body_of};
ghost use Rattle.mj_inertia.specs.CompositeBodies.{composite};
ghost use Rattle.mj_inertia.specs.MassEntries as spec;

/// Where each body's entry is added to its parent's, from the last body to the first, each comes to
/// hold the sum over all bodies at or below it. `g s` is what the entries are after `s` bodies.
pub fn carried_up_is_composite()
    ensures { (m : Model) (inertia : ℕ → Inertia) (g : ℕ → ℕ → Inertia)
        → ((b : ℕ) → b < length m.bodies → g 0 b ≡ inertia b)
        → ((s b : ℕ) → s < length m.bodies → b < length m.bodies → g (s + 1) b
        ≡ cond (suc b == parent_of m.bodies (suc (length m.bodies - 1 - s)))
        (plus_inertia (g s b) (g s (length m.bodies - 1 - s))) (g s b))
        → (b : ℕ) → b < length m.bodies → g (length m.bodies) b ≡ composite m inertia b }
{}

/// The momentum of the composite inertia of a dof's body is the sum of the momenta of all bodies
/// that the dof moves.
pub fn composite_momentum_is_sum()
    ensures { (m : Model) (column : ℕ → Spatial ℤ) (inertia : ℕ → Inertia) (j : ℕ) → j < m.nv
        → inertia_times (composite m inertia (body_of m.dofs j - 1)) (column j)
        ≡ spec.momentum_sum m column inertia j }
{}

/// An entry of the mass matrix and its radius cover the sum with no rounding at all.
pub fn radii_cover_unrounded()
    ensures { (m : Model) (column : ℕ → Spatial ℤ) (inertia : ℕ → Inertia) (i j : ℕ)
        → Covers (spec.entry m (column i)
        (spec.momentum (spec.momentum_sum m column inertia j)) i j)
        (spec.rounded_radius (column i) (spec.momentum (spec.momentum_sum m column inertia j))
        (spec.momentum_radius (spec.momentum_sum m column inertia j)))
        40 (spec.unrounded m column inertia i j) (2 ^ 104) }
{}

/// The mass matrix is symmetric.
pub fn mass_is_symmetric()
    ensures { (m : Model) (column : ℕ → Spatial ℤ) (inertia : ℕ → Inertia) (i j : ℕ)
        → spec.mass m column inertia i j ≡ spec.mass m column inertia j i }
{}
