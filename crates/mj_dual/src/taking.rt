// Rows are taken one after another into the list of rows and the dual.
ghost use Rattle.std.specs.Prelude.{◌≡◌, ℕ, length, ◌+◌, ◌^◌, ◌<◌, ◌≤◌, ◌++◌, ◌∷◌, [], unsigned_abs, is_none, IfSome, None, false};
ghost use Rattle.fx_whole.specs.First.{refusal_of};
ghost use Rattle.mj_types.specs.Duals.{MayBeRow, MayBeSolved};
ghost use Rattle.mj_types.specs.Parts.{number_at};
ghost use Rattle.mj_types.specs.Problems.{HasSpare, HaveSameRoom, IsSolvable};
ghost use Rattle.mj_rows.specs.Constraint.{Constraint, row_of, row_fault};
ghost use Rattle.mj_rows.specs.Working.{IsReady};
ghost use Rattle.mj_dual.specs.Reductions.{dynamics};
ghost use Rattle.mj_dual.specs.Taking as spec;

use crate::reducing::reduce;
use fx_num::Fix;
use mj_types::{Dual, DualRow, Factor, Model, OutOfRange, Row, Rows, State};

// Adds a row and its Jacobian to the list.
fn list_row(row: &Row, idle: bool, jacobian: &[Fix<32>], rows: &mut Rows)
    requires list_room { length rows.old.list.list < rows.old.list.most }
    requires jac_room { length rows.old.jac.list + length jacobian.now ≤ rows.old.jac.most }
    ensures list { rows.new.list ≡ record {
      list = rows.old.list.list ++ (record row.now { idle = idle }) ∷ [];
      most = rows.old.list.most;
    } }
    ensures jac { rows.new.jac ≡ record {
      list = rows.old.jac.list ++ jacobian.now;
      most = rows.old.jac.most;
    } }
    ensures row { rows.new.row ≡ rows.old.row }
    ensures reduced { rows.new.reduced ≡ rows.old.reduced }
{
    rows.list.push(Row { idle, ..*row });
    rows.jac.append(jacobian);
}

// Adds an entry to the dual, where there is one.
fn hold(entry: &Option<DualRow>, reduced: &[Fix<24>], out: &mut Dual)
    requires spare { HasSpare out.old }
    requires lawful { IfSome entry.now (λ row. MayBeRow out.old.nv reduced.now row) }
    requires solvable { IsSolvable out.old }
    requires solved { IfSome entry.now (λ row. MayBeSolved out.old.nv reduced.now row) }
    ensures solvable { IsSolvable out.new }
    ensures held { spec.IsHeld entry.now reduced.now out.old out.new }
    ensures room { HaveSameRoom out.old out.new }
{
    if let Some(row) = entry {
        out.push(reduced, *row);
    }
}

/// Reduces the row of a constraint, of which the Jacobian is given, and adds it to the list, and to
/// the dual unless it is idle. `reduced` is working room. The refusal is that of `reduce`, and then
/// nothing is added.
pub(crate) fn take_row(
    model: &Model,
    state: &State,
    factor: &Factor,
    smooth: &[Fix<32>],
    row: &Row,
    jacobian: &[Fix<32>],
    reduced: &mut [Fix<24>],
    rows: &mut Rows,
    out: &mut Dual,
) -> Result<(), OutOfRange>
    requires dynamics { spec.HasDynamics model.now state.now factor.now smooth.now }
    requires ready { IsReady row.now }
    requires jacobian { length jacobian.now ≡ model.now.nv }
    requires small { (d : ℕ) → unsigned_abs (number_at jacobian.now d) ≤ 2 ^ 48 }
    requires reduced { length reduced.old ≡ model.now.nv }
    requires open_ { spec.CanTake model.now (number_at factor.now.d) rows.old out.old }
    requires spare { length rows.old.list.list < model.now.njmax }
    ensures { (c : Constraint) → row.now ≡ row_of false c → number_at jacobian.now ≡ c.jacobian
        → row_fault model.now.nv (length rows.old.list.list + 1) c ≡ None
        → spec.HasAdded model.now (dynamics model.now state.now factor.now smooth.now) (c ∷ [])
        (refusal_of result) rows.old rows.new out.old out.new }
{
    let number = rows.list.len() + 1;
    let roots = rows.row.as_slice();
    let entry = reduce(
        model, state, factor, roots, smooth, number, row, jacobian, reduced,
    )?;
    list_row(row, entry.is_none(), jacobian, rows);
    hold(&entry, reduced, out);
    Ok(())
}
