// Laws over the definitions of specs/.
ghost use Rattle.std.specs.Prelude.{ℤ, pos, ◌<ℤ◌, Option};
ghost use Rattle.mj_optimum.specs.Feasible.{IsAbove, IsBelow};
ghost use Rattle.mj_inverse.specs.Rows.{row_force, IsRowOptimum};

/// The force of each row by itself is within one unit of the row's rational optimum.
pub fn row_forces_are_best()
    ensures { (low high : Option ℤ) (r w : ℤ) → pos 0 <ℤ r → IsAbove low (pos 0) (pos 1)
        → IsBelow high (pos 0) (pos 1) → IsRowOptimum low high r w (row_force low high r w) }
{}
