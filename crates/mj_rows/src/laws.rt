// Laws of the edges of a contact.
ghost use Rattle.std.specs.Prelude.{◌≡◌, ℕ, ◌<◌, pos, ◌+ℤ◌, ◌*ℤ◌, false};
ghost use Rattle.fx_vec.specs.Views.{mids};
ghost use Rattle.mj_types.specs.declared.carriers.Contact.{Contact};
ghost use Rattle.mj_types.specs.declared.model.Model.{Model};
ghost use Rattle.mj_types.specs.Placed.{Placing};
ghost use Rattle.mj_rows.specs.Edges.{edge_jacobian, slope_along, does_move};
ghost use Rattle.mj_rows.specs.Mixing.{first_geom, second_geom};

/// The four edges of a contact with friction add up to four times the row along its normal.
pub fn edges_add_up()
    ensures { (m : Model) (x : Placing) (c : Contact) (d : ℕ) → d < m.nv
        → edge_jacobian m x c 1 d +ℤ edge_jacobian m x c 2 d
        +ℤ edge_jacobian m x c 3 d +ℤ edge_jacobian m x c 4 d
        ≡ pos 4 *ℤ slope_along m x c (mids c.normal) d }
{}

/// A dof that moves neither geom of a contact has 0 in each of its rows, and so has one that moves both.
pub fn unmoved_is_zero()
    ensures { (m : Model) (x : Placing) (c : Contact) (edge d : ℕ)
        → does_move m d (first_geom m c) ≡ does_move m d (second_geom m c)
        → edge_jacobian m x c edge d ≡ pos 0 }
{}
