// Laws over the definitions of specs/.
ghost use Rattle.std.specs.Prelude.{ℕ, ℤ, pos, ◌*◌, ◌^◌, ◌≤◌, ◌-ℤ◌, ◌*ℤ◌, unsigned_abs};
ghost use Rattle.fx_near.specs.Widths.{settled_radius};
ghost use Rattle.mj_bias.specs.Biases.{bias};
ghost use Rattle.mj_bias.specs.Exact.{exact_bias};
ghost use Rattle.mj_bias.specs.Radii.{bias_radius};
ghost use Rattle.mj_types.specs.declared.model.Model.{Model};
ghost use Rattle.mj_types.specs.Placed.{Placing};

/// The radii of the kind `Band` cover the bias forces that are rounded nowhere, which are whole
/// numbers at scale 200.
pub fn bias_radii_cover()
    ensures { (model : Model) (placing : Placing) (speed : ℕ → ℤ) (i : ℕ)
        → unsigned_abs (exact_bias model placing speed i
        -ℤ bias model placing speed i *ℤ pos (2 ^ 168))
        ≤ bias_radius settled_radius model placing speed i * 2 ^ 168 }
{}
