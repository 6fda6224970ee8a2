// All rows of a state, and the dual of those that aren't idle.
ghost use Rattle.std.specs.Prelude.{◌≡◌, ℕ, length, ◌+◌, ◌*◌, ◌^◌, ◌<◌, ◌≤◌, ◌++◌, [], unsigned_abs, OnOk};
ghost use Rattle.fx_whole.specs.First.{refusal_of};
ghost use Rattle.mj_types.specs.Applieds.{AreApplied};
ghost use Rattle.mj_types.specs.Parts.{number_at};
ghost use Rattle.mj_types.specs.Placed.{AreFrames, placing_of};
ghost use Rattle.mj_types.specs.Problems.{HasRoom, HaveSameRoom, IsSolvable};
ghost use Rattle.mj_types.specs.Rooms.{ContactsRoom};
ghost use Rattle.mj_types.specs.RowRooms.{RowsRoom};
ghost use Rattle.mj_types.specs.States.{Fits};
ghost use Rattle.mj_types.specs.StepValues.{active_count, dual_values};
ghost use Rattle.mj_contact.specs.Sizes.{AreUsable};
ghost use Rattle.mj_factor.specs.Stored.{IsFactor};
ghost use Rattle.mj_rows.specs.Constraints as all;
ghost use Rattle.mj_dual.specs.Assembly as spec;
ghost use Rattle.mj_dual.specs.Reductions.{dynamics};
ghost use Rattle.mj_dual.specs.Taking.{CanTake, HasDynamics, HasAdded};

use crate::contacts::take_contacts;
use crate::joints::{take_equalities, take_frictions, take_joint_limits};
use crate::tendons::take_tendon_limits;
use fx_num::Fix;
use mj_factor::pivot_roots;
use mj_rows::{Slope, judge_count, no_slopes};
use mj_types::{Applied, Contacts, Dual, Factor, Frames, Model, OutOfRange, Rows, State};

// Takes the rows of equalities, of joint friction and of joint limits.
fn take_joints(
    model: &Model,
    state: &State,
    factor: &Factor,
    smooth: &[Fix<32>],
    jacobian: &mut [Fix<32>],
    reduced: &mut [Fix<24>],
    rows: &mut Rows,
    out: &mut Dual,
) -> Result<(), OutOfRange>
    requires dynamics { HasDynamics model.now state.now factor.now smooth.now }
    requires jacobian { length jacobian.old ≡ model.now.nv }
    requires reduced { length reduced.old ≡ model.now.nv }
    requires open_ { CanTake model.now (number_at factor.now.d) rows.old out.old }
    requires spare { length rows.old.list.list
        + length (all.all_equalities model.now state.now ++ all.all_frictions model.now
        ++ all.all_joint_limits model.now state.now)
        ≤ model.now.njmax }
    ensures { HasAdded model.now (dynamics model.now state.now factor.now smooth.now)
        (all.all_equalities model.now state.now ++ all.all_frictions model.now
        ++ all.all_joint_limits model.now state.now)
        (refusal_of result) rows.old rows.new out.old out.new }
{
    take_equalities(model, state, factor, smooth, jacobian, reduced, rows, out)?;
    take_frictions(model, state, factor, smooth, jacobian, reduced, rows, out)?;
    take_joint_limits(model, state, factor, smooth, jacobian, reduced, rows, out)?;
    Ok(())
}

// Takes all rows. `slopes` is working room.
fn take_all(
    model: &Model,
    state: &State,
    factor: &Factor,
    smooth: &[Fix<32>],
    frames: &Frames,
    applied: &Applied,
    contacts: &Contacts,
    slopes: &mut [Slope],
    jacobian: &mut [Fix<32>],
    reduced: &mut [Fix<24>],
    rows: &mut Rows,
    out: &mut Dual,
) -> Result<(), OutOfRange>
    requires dynamics { HasDynamics model.now state.now factor.now smooth.now }
    requires frames { AreFrames model.now frames.now }
    requires applied { AreApplied model.now applied.now }
    requires usable { AreUsable (length model.now.geoms) contacts.now.list.list }
    requires contacts_room { ContactsRoom model.now contacts.now }
    requires slopes { length slopes.old ≡ 64 }
    requires jacobian { length jacobian.old ≡ model.now.nv }
    requires reduced { length reduced.old ≡ model.now.nv }
    requires open_ { CanTake model.now (number_at factor.now.d) rows.old out.old }
    requires spare { length rows.old.list.list
        + length (all.constraints_of model.now state.now frames.now applied.now contacts.now)
        ≤ model.now.njmax }
    ensures { HasAdded model.now (dynamics model.now state.now factor.now smooth.now)
        (all.constraints_of model.now state.now frames.now applied.now contacts.now)
        (refusal_of result) rows.old rows.new out.old out.new }
{
    take_joints(model, state, factor, smooth, jacobian, reduced, rows, out)?;
    take_tendon_limits(
        model, state, factor, smooth, applied, jacobian, reduced, rows, out,
    )?;
    take_contacts(
        model, state, factor, smooth, frames, contacts, slopes, jacobian, reduced, rows, out,
    )?;
    Ok(())
}

// Takes all rows out of the list and the dual.
fn clear(rows: &mut Rows, out: &mut Dual)
    ensures list { rows.new.list ≡ record { list = []; most = rows.old.list.most } }
    ensures jac { rows.new.jac ≡ record { list = []; most = rows.old.jac.most } }
    ensures row { rows.new.row ≡ rows.old.row }
    ensures reduced { rows.new.reduced ≡ rows.old.reduced }
    ensures empty { out.new.m ≡ 0 }
    ensures solvable { IsSolvable out.new }
    ensures room { HaveSameRoom out.old out.new }
{
    rows.list.clear();
    rows.jac.clear();
    out.clear();
}

/// The rows of a state and its dual (MuJoCo documentation, Computation chapter). `rows` becomes the
/// list of all constraints' rows in their order - equalities, joint friction, the limits of joints
/// and of tendons, the edges of contacts - with their Jacobians, and tells which of them are idle;
/// `out` becomes the dual of those that aren't, where `place` is each row's number in the list. The
/// first number out of range is how many rows there are, where those are more than the model's
/// most; and then, row after row and named by the row's number, those of its violation and its
/// Jacobian and those of its reduction. Takes no memory.
pub fn assemble(
    model: &Model,
    state: &State,
    frames: &Frames,
    applied: &Applied,
    contacts: &Contacts,
    factor: &Factor,
    smooth: &[Fix<32>],
    rows: &mut Rows,
    out: &mut Dual,
) -> Result<(), OutOfRange>
    requires fits { Fits model.now state.now }
    requires frames { AreFrames model.now frames.now }
    requires applied { AreApplied model.now applied.now }
    requires usable { AreUsable (length model.now.geoms) contacts.now.list.list }
    requires contacts_room { ContactsRoom model.now contacts.now }
    requires factor { IsFactor model.now factor.now }
    requires smooth { length smooth.now ≡ model.now.nv }
    requires accelerations { (k : ℕ) → k < model.now.nv
        → unsigned_abs (number_at smooth.now k) ≤ 2 ^ 56 }
    requires rows_room { RowsRoom model.now rows.old }
    requires dual_room { HasRoom model.now.njmax model.now.nv out.old }
    ensures rows_room { RowsRoom model.now rows.new }
    ensures dual_room { HasRoom model.now.njmax model.now.nv out.new }
    ensures solvable { IsSolvable out.new }
    ensures first { refusal_of result ≡ spec.assembly_fault model.now
        (dynamics model.now state.now factor.now smooth.now)
        (all.constraints_of model.now state.now frames.now applied.now contacts.now) }
    ensures rows { OnOk result (rows.new.list.list ≡ spec.row_list
        (dynamics model.now state.now factor.now smooth.now)
        (all.constraints_of model.now state.now frames.now applied.now contacts.now)) }
    ensures jacobians { OnOk result (spec.HasJacobians model.now.nv
        (all.constraints_of model.now state.now frames.now applied.now contacts.now)
        rows.new.jac.list) }
    ensures dual { OnOk result (dual_values out.new ≡ spec.dual_of
        (dynamics model.now state.now factor.now smooth.now)
        (all.constraints_of model.now state.now frames.now applied.now contacts.now)) }
    ensures count { OnOk result (out.new.m ≡ active_count rows.new.list.list) }
{
    clear(rows, out);
    judge_count(model, state, applied, contacts)?;
    pivot_roots(model, factor, &mut rows.row);
    let mut jacobian = [Fix::from_raw(0); 64];
    let mut reduced = [Fix::from_raw(0); 64];
    take_all(
        model,
        state,
        factor,
        smooth,
        frames,
        applied,
        contacts,
        &mut no_slopes(),
        &mut jacobian[..model.nv],
        &mut reduced[..model.nv],
        rows,
        out,
    )?;
    Ok(())
}
