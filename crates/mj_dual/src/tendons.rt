// The rows of tendon limits.
ghost use Rattle.std.specs.Prelude.{◌≡◌, length, ◌+◌, ◌<◌, ◌≤◌, ◌∷◌, []};
ghost use Rattle.fx_whole.specs.First.{refusal_of};
ghost use Rattle.mj_types.specs.Applieds.{AreApplied};
ghost use Rattle.mj_types.specs.Parts.{number_at};
ghost use Rattle.mj_rows.specs.Constraints.{all_tendon_limits};
ghost use Rattle.mj_rows.specs.Limits.{tendon_low_limits, tendon_high_limits, tendon_limits};
ghost use Rattle.mj_dual.specs.Reductions.{dynamics};
ghost use Rattle.mj_dual.specs.Taking.{CanTake, HasDynamics, HasAdded};

use crate::taking::take_row;
use fx_num::Fix;
use mj_rows::{has_tendon_high, has_tendon_low, tendon_high, tendon_low};
use mj_types::{Applied, Dual, Factor, Model, OutOfRange, Rows, State};

// Takes the row of a tendon's low limit, where it stands.
fn take_low(
    model: &Model,
    state: &State,
    factor: &Factor,
    smooth: &[Fix<32>],
    applied: &Applied,
    t: usize,
    jacobian: &mut [Fix<32>],
    reduced: &mut [Fix<24>],
    rows: &mut Rows,
    out: &mut Dual,
) -> Result<(), OutOfRange>
    requires dynamics { HasDynamics model.now state.now factor.now smooth.now }
    requires applied { AreApplied model.now applied.now }
    requires tendon { t < length model.now.tendons }
    requires jacobian { length jacobian.old ≡ model.now.nv }
    requires reduced { length reduced.old ≡ model.now.nv }
    requires open_ { CanTake model.now (number_at factor.now.d) rows.old out.old }
    requires spare { length rows.old.list.list
        + length (tendon_low_limits model.now (number_at applied.now.length) t)
        ≤ model.now.njmax }
    ensures { HasAdded model.now (dynamics model.now state.now factor.now smooth.now)
        (tendon_low_limits model.now (number_at applied.now.length) t)
        (refusal_of result) rows.old rows.new out.old out.new }
{
    if has_tendon_low(model, applied, t) {
        let row = tendon_low(model, applied, t, jacobian);
        take_row(
            model, state, factor, smooth, &row, jacobian, reduced, rows, out,
        )
    } else {
        Ok(())
    }
}

// Takes the row of a tendon's high limit, where it stands.
fn take_high(
    model: &Model,
    state: &State,
    factor: &Factor,
    smooth: &[Fix<32>],
    applied: &Applied,
    t: usize,
    jacobian: &mut [Fix<32>],
    reduced: &mut [Fix<24>],
    rows: &mut Rows,
    out: &mut Dual,
) -> Result<(), OutOfRange>
    requires dynamics { HasDynamics model.now state.now factor.now smooth.now }
    requires applied { AreApplied model.now applied.now }
    requires tendon { t < length model.now.tendons }
    requires jacobian { length jacobian.old ≡ model.now.nv }
    requires reduced { length reduced.old ≡ model.now.nv }
    requires open_ { CanTake model.now (number_at factor.now.d) rows.old out.old }
    requires spare { length rows.old.list.list
        + length (tendon_high_limits model.now (number_at applied.now.length) t)
        ≤ model.now.njmax }
    ensures { HasAdded model.now (dynamics model.now state.now factor.now smooth.now)
        (tendon_high_limits model.now (number_at applied.now.length) t)
        (refusal_of result) rows.old rows.new out.old out.new }
{
    if has_tendon_high(model, applied, t) {
        let row = tendon_high(model, applied, t, jacobian);
        take_row(
            model, state, factor, smooth, &row, jacobian, reduced, rows, out,
        )
    } else {
        Ok(())
    }
}

// Takes the rows of a tendon's limits.
fn take_limits(
    model: &Model,
    state: &State,
    factor: &Factor,
    smooth: &[Fix<32>],
    applied: &Applied,
    t: usize,
    jacobian: &mut [Fix<32>],
    reduced: &mut [Fix<24>],
    rows: &mut Rows,
    out: &mut Dual,
) -> Result<(), OutOfRange>
    requires dynamics { HasDynamics model.now state.now factor.now smooth.now }
    requires applied { AreApplied model.now applied.now }
    requires tendon { t < length model.now.tendons }
    requires jacobian { length jacobian.old ≡ model.now.nv }
    requires reduced { length reduced.old ≡ model.now.nv }
    requires open_ { CanTake model.now (number_at factor.now.d) rows.old out.old }
    requires spare { length rows.old.list.list
        + length (tendon_limits model.now (number_at applied.now.length) t)
        ≤ model.now.njmax }
    ensures { HasAdded model.now (dynamics model.now state.now factor.now smooth.now)
        (tendon_limits model.now (number_at applied.now.length) t)
        (refusal_of result) rows.old rows.new out.old out.new }
{
    take_low(
        model, state, factor, smooth, applied, t, jacobian, reduced, rows, out,
    )?;
    take_high(
        model, state, factor, smooth, applied, t, jacobian, reduced, rows, out,
    )?;
    Ok(())
}

/// Takes the rows of all tendons' limits.
pub(crate) fn take_tendon_limits(
    model: &Model,
    state: &State,
    factor: &Factor,
    smooth: &[Fix<32>],
    applied: &Applied,
    jacobian: &mut [Fix<32>],
    reduced: &mut [Fix<24>],
    rows: &mut Rows,
    out: &mut Dual,
) -> Result<(), OutOfRange>
    requires dynamics { HasDynamics model.now state.now factor.now smooth.now }
    requires applied { AreApplied model.now applied.now }
    requires jacobian { length jacobian.old ≡ model.now.nv }
    requires reduced { length reduced.old ≡ model.now.nv }
    requires open_ { CanTake model.now (number_at factor.now.d) rows.old out.old }
    requires spare { length rows.old.list.list
        + length (all_tendon_limits model.now (number_at applied.now.length))
        ≤ model.now.njmax }
    ensures { HasAdded model.now (dynamics model.now state.now factor.now smooth.now)
        (all_tendon_limits model.now (number_at applied.now.length))
        (refusal_of result) rows.old rows.new out.old out.new }
{
    for t in 0..model.tendons.len() {
        take_limits(
            model, state, factor, smooth, applied, t, jacobian, reduced, rows, out,
        )?;
    }
    Ok(())
}
