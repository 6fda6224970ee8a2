// A row's Jacobian, a number for each dof, while it is written.
ghost use Rattle.std.specs.Prelude.{◌≡◌, ℕ, ◌^◌, ◌<◌, ◌≤◌, ◌==◌, pos, ◌+ℤ◌, neg_ℤ, unsigned_abs, length};
ghost use Rattle.fx_whole.specs.Sums.{when};
ghost use Rattle.mj_types.specs.Parts.{number_at};

use fx_num::Fix;

/// Writes 0 at each dof.
pub(crate) fn clear(jacobian: &mut [Fix<32>])
    ensures { (d : ℕ) → number_at jacobian.new d ≡ pos 0 }
{
    for d in 0..jacobian.len() {
        jacobian[d] = Fix::from_raw(0);
    }
}

/// Adds `n` at a dof.
pub(crate) fn add_at(jacobian: &mut [Fix<32>], place: usize, n: &Fix<32>)
    requires place { place < length jacobian.old }
    requires old { unsigned_abs (number_at jacobian.old place) ≤ 2 ^ 60 }
    requires small { unsigned_abs n.now.mid ≤ 2 ^ 60 }
    ensures { (d : ℕ) → number_at jacobian.new d
        ≡ number_at jacobian.old d +ℤ when (d == place) n.now.mid }
{
    jacobian[place] = Fix::from_raw(jacobian[place].mid + n.mid);
}

/// Turns the sign at each dof.
pub(crate) fn negate(jacobian: &mut [Fix<32>])
    requires { (d : ℕ) → unsigned_abs (number_at jacobian.old d) ≤ 2 ^ 48 }
    ensures { (d : ℕ) → number_at jacobian.new d ≡ neg_ℤ (number_at jacobian.old d) }
{
    for d in 0..jacobian.len() {
        jacobian[d] = Fix::from_raw(-jacobian[d].mid);
    }
}
