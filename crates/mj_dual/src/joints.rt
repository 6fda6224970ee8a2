// The rows of equalities, of joint friction and of joint limits.
ghost use Rattle.std.specs.Prelude.{◌≡◌, length, ◌+◌, ◌<◌, ◌≤◌, ◌∷◌, []};
ghost use Rattle.fx_whole.specs.First.{refusal_of};
ghost use Rattle.mj_types.specs.Parts.{number_at};
ghost use Rattle.mj_rows.specs.Constraints.{all_equalities, all_frictions, all_joint_limits};
ghost use Rattle.mj_rows.specs.Joints.{equality_of, frictions};
ghost use Rattle.mj_rows.specs.Limits.{low_limits, high_limits, joint_limits};
ghost use Rattle.mj_dual.specs.Reductions.{dynamics};
ghost use Rattle.mj_dual.specs.Taking.{CanTake, HasDynamics, HasAdded};

use crate::taking::take_row;
use fx_num::Fix;
use mj_rows::{equality, friction, has_friction, has_high, has_low, high, low};
use mj_types::{Dual, Factor, Model, OutOfRange, Rows, State};

// Takes the row of the equality at a place.
fn take_equality(
    model: &Model,
    state: &State,
    factor: &Factor,
    smooth: &[Fix<32>],
    e: usize,
    jacobian: &mut [Fix<32>],
    reduced: &mut [Fix<24>],
    rows: &mut Rows,
    out: &mut Dual,
) -> Result<(), OutOfRange>
    requires dynamics { HasDynamics model.now state.now factor.now smooth.now }
    requires equality { e < length model.now.equalities }
    requires jacobian { length jacobian.old ≡ model.now.nv }
    requires reduced { length reduced.old ≡ model.now.nv }
    requires open_ { CanTake model.now (number_at factor.now.d) rows.old out.old }
    requires spare { length rows.old.list.list + length (equality_of model.now state.now e ∷ [])
        ≤ model.now.njmax }
    ensures { HasAdded model.now (dynamics model.now state.now factor.now smooth.now)
        (equality_of model.now state.now e ∷ [])
        (refusal_of result) rows.old rows.new out.old out.new }
{
    let number = rows.list.len() + 1;
    let row = equality(model, state, e, number, jacobian)?;
    take_row(
        model, state, factor, smooth, &row, jacobian, reduced, rows, out,
    )
}

/// Takes the rows of all equalities.
pub(crate) fn take_equalities(
    model: &Model,
    state: &State,
    factor: &Factor,
    smooth: &[Fix<32>],
    jacobian: &mut [Fix<32>],
    reduced: &mut [Fix<24>],
    rows: &mut Rows,
    out: &mut Dual,
) -> Result<(), OutOfRange>
    requires dynamics { HasDynamics model.now state.now factor.now smooth.now }
    requires jacobian { length jacobian.old ≡ model.now.nv }
    requires reduced { length reduced.old ≡ model.now.nv }
    requires open_ { CanTake model.now (number_at factor.now.d) rows.old out.old }
    requires spare { length rows.old.list.list + length (all_equalities model.now state.now)
        ≤ model.now.njmax }
    ensures { HasAdded model.now (dynamics model.now state.now factor.now smooth.now)
        (all_equalities model.now state.now)
        (refusal_of result) rows.old rows.new out.old out.new }
{
    for e in 0..model.equalities.len() {
        take_equality(
            model, state, factor, smooth, e, jacobian, reduced, rows, out,
        )?;
    }
    Ok(())
}

// Takes the row of a joint's friction, where it stands.
fn take_friction(
    model: &Model,
    state: &State,
    factor: &Factor,
    smooth: &[Fix<32>],
    j: usize,
    jacobian: &mut [Fix<32>],
    reduced: &mut [Fix<24>],
    rows: &mut Rows,
    out: &mut Dual,
) -> Result<(), OutOfRange>
    requires dynamics { HasDynamics model.now state.now factor.now smooth.now }
    requires joint { j < length model.now.joints }
    requires jacobian { length jacobian.old ≡ model.now.nv }
    requires reduced { length reduced.old ≡ model.now.nv }
    requires open_ { CanTake model.now (number_at factor.now.d) rows.old out.old }
    requires spare { length rows.old.list.list + length (frictions model.now j)
        ≤ model.now.njmax }
    ensures { HasAdded model.now (dynamics model.now state.now factor.now smooth.now)
        (frictions model.now j)
        (refusal_of result) rows.old rows.new out.old out.new }
{
    if has_friction(model, j) {
        let row = friction(model, j, jacobian);
        take_row(
            model, state, factor, smooth, &row, jacobian, reduced, rows, out,
        )
    } else {
        Ok(())
    }
}

/// Takes the rows of all joints' friction.
pub(crate) fn take_frictions(
    model: &Model,
    state: &State,
    factor: &Factor,
    smooth: &[Fix<32>],
    jacobian: &mut [Fix<32>],
    reduced: &mut [Fix<24>],
    rows: &mut Rows,
    out: &mut Dual,
) -> Result<(), OutOfRange>
    requires dynamics { HasDynamics model.now state.now factor.now smooth.now }
    requires jacobian { length jacobian.old ≡ model.now.nv }
    requires reduced { length reduced.old ≡ model.now.nv }
    requires open_ { CanTake model.now (number_at factor.now.d) rows.old out.old }
    requires spare { length rows.old.list.list + length (all_frictions model.now)
        ≤ model.now.njmax }
    ensures { HasAdded model.now (dynamics model.now state.now factor.now smooth.now)
        (all_frictions model.now)
        (refusal_of result) rows.old rows.new out.old out.new }
{
    for j in 0..model.joints.len() {
        take_friction(
            model, state, factor, smooth, j, jacobian, reduced, rows, out,
        )?;
    }
    Ok(())
}

// Takes the row of a joint's low limit, where it stands.
fn take_low(
    model: &Model,
    state: &State,
    factor: &Factor,
    smooth: &[Fix<32>],
    j: usize,
    jacobian: &mut [Fix<32>],
    reduced: &mut [Fix<24>],
    rows: &mut Rows,
    out: &mut Dual,
) -> Result<(), OutOfRange>
    requires dynamics { HasDynamics model.now state.now factor.now smooth.now }
    requires joint { j < length model.now.joints }
    requires jacobian { length jacobian.old ≡ model.now.nv }
    requires reduced { length reduced.old ≡ model.now.nv }
    requires open_ { CanTake model.now (number_at factor.now.d) rows.old out.old }
    requires spare { length rows.old.list.list + length (low_limits model.now state.now j)
        ≤ model.now.njmax }
    ensures { HasAdded model.now (dynamics model.now state.now factor.now smooth.now)
        (low_limits model.now state.now j)
        (refusal_of result) rows.old rows.new out.old out.new }
{
    if has_low(model, state, j) {
        let row = low(model, state, j, jacobian);
        take_row(
            model, state, factor, smooth, &row, jacobian, reduced, rows, out,
        )
    } else {
        Ok(())
    }
}

// Takes the row of a joint's high limit, where it stands.
fn take_high(
    model: &Model,
    state: &State,
    factor: &Factor,
    smooth: &[Fix<32>],
    j: usize,
    jacobian: &mut [Fix<32>],
    reduced: &mut [Fix<24>],
    rows: &mut Rows,
    out: &mut Dual,
) -> Result<(), OutOfRange>
    requires dynamics { HasDynamics model.now state.now factor.now smooth.now }
    requires joint { j < length model.now.joints }
    requires jacobian { length jacobian.old ≡ model.now.nv }
    requires reduced { length reduced.old ≡ model.now.nv }
    requires open_ { CanTake model.now (number_at factor.now.d) rows.old out.old }
    requires spare { length rows.old.list.list + length (high_limits model.now state.now j)
        ≤ model.now.njmax }
    ensures { HasAdded model.now (dynamics model.now state.now factor.now smooth.now)
        (high_limits model.now state.now j)
        (refusal_of result) rows.old rows.new out.old out.new }
{
    if has_high(model, state, j) {
        let row = high(model, state, j, jacobian);
        take_row(
            model, state, factor, smooth, &row, jacobian, reduced, rows, out,
        )
    } else {
        Ok(())
    }
}

// Takes the rows of a joint's limits.
fn take_limits(
    model: &Model,
    state: &State,
    factor: &Factor,
    smooth: &[Fix<32>],
    j: usize,
    jacobian: &mut [Fix<32>],
    reduced: &mut [Fix<24>],
    rows: &mut Rows,
    out: &mut Dual,
) -> Result<(), OutOfRange>
    requires dynamics { HasDynamics model.now state.now factor.now smooth.now }
    requires joint { j < length model.now.joints }
    requires jacobian { length jacobian.old ≡ model.now.nv }
    requires reduced { length reduced.old ≡ model.now.nv }
    requires open_ { CanTake model.now (number_at factor.now.d) rows.old out.old }
    requires spare { length rows.old.list.list + length (joint_limits model.now state.now j)
        ≤ model.now.njmax }
    ensures { HasAdded model.now (dynamics model.now state.now factor.now smooth.now)
        (joint_limits model.now state.now j)
        (refusal_of result) rows.old rows.new out.old out.new }
{
    take_low(
        model, state, factor, smooth, j, jacobian, reduced, rows, out,
    )?;
    take_high(
        model, state, factor, smooth, j, jacobian, reduced, rows, out,
    )?;
    Ok(())
}

/// Takes the rows of all joints' limits.
pub(crate) fn take_joint_limits(
    model: &Model,
    state: &State,
    factor: &Factor,
    smooth: &[Fix<32>],
    jacobian: &mut [Fix<32>],
    reduced: &mut [Fix<24>],
    rows: &mut Rows,
    out: &mut Dual,
) -> Result<(), OutOfRange>
    requires dynamics { HasDynamics model.now state.now factor.now smooth.now }
    requires jacobian { length jacobian.old ≡ model.now.nv }
    requires reduced { length reduced.old ≡ model.now.nv }
    requires open_ { CanTake model.now (number_at factor.now.d) rows.old out.old }
    requires spare { length rows.old.list.list + length (all_joint_limits model.now state.now)
        ≤ model.now.njmax }
    ensures { HasAdded model.now (dynamics model.now state.now factor.now smooth.now)
        (all_joint_limits model.now state.now)
        (refusal_of result) rows.old rows.new out.old out.new }
{
    for j in 0..model.joints.len() {
        take_limits(
            model, state, factor, smooth, j, jacobian, reduced, rows, out,
        )?;
    }
    Ok(())
}
