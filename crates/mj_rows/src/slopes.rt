// How each dof moves the two geoms of a contact apart, along the normal and the two tangents.
ghost use Rattle.std.specs.Prelude.{◌≡◌, ◌^◌, ◌<◌, ◌≤◌, neg_ℤ, unsigned_abs, length, IfOk, OnOk};
ghost use Rattle.fx_whole.specs.First.{refusal_of};
ghost use Rattle.fx_vec.specs.Sizes.{Within};
ghost use Rattle.fx_vec.specs.Settling.{along};
ghost use Rattle.fx_vec.specs.Views.{mids};
ghost use Rattle.mj_types.specs.declared.range.Quantity.TheVariants as kind;
ghost use Rattle.mj_types.specs.Placed.{AreFrames, placing_of};
ghost use Rattle.mj_types.specs.Ranges.{unless};
ghost use Rattle.mj_contact.specs.Sizes.{IsUsable};
ghost use Rattle.mj_rows.specs.Constraint as constraint;
ghost use Rattle.mj_rows.specs.Edges as spec;
ghost use Rattle.mj_rows.specs.Mixing.{first_geom, second_geom};
ghost use Rattle.mj_rows.specs.Slopes.{IsSlope, AreSlopes};

use crate::levers::lever_of;
use crate::mixing::geom_of;
use fx_num::{Fix, Plain};
use fx_vec::{V3, project};
use mj_types::{Contact, Frames, Model, OutOfRange};

/// How a dof moves the two geoms of a contact apart: along the normal and the two tangents.
#[derive(Clone, Copy)]
pub struct Slope {
    pub normal: Fix<32>,
    pub first: Fix<32>,
    pub second: Fix<32>,
}

/// Working room for the slopes of one contact: those of 64 dofs.
pub fn no_slopes() -> [Slope; 64] {
    let zero = Fix::from_raw(0);
    [Slope {
        normal: zero,
        first: zero,
        second: zero,
    }; 64]
}

// `-n`.
fn negative(n: &Fix<32>) -> Fix<32>
    requires { unsigned_abs n.now.mid ≤ 2 ^ 62 }
    ensures { result.mid ≡ neg_ℤ n.now.mid }
{
    Fix::from_raw(-n.mid)
}

// What the second geom moves by more than the first along a direction, where what moves does so at `e`.
pub(crate) fn slope_along(
    first: bool,
    second: bool,
    n: &V3<Plain, 32>,
    e: &V3<Plain, 32>,
) -> Fix<32>
    requires direction { Within (mids n.now) (2 ^ 34) }
    requires velocity { Within (mids e.now) (2 ^ 48) }
    ensures { result.mid ≡ spec.apart first second (along (mids n.now) (mids e.now)) }
{
    if first {
        if second {
            Fix::from_raw(0)
        } else {
            negative(&project(n, e))
        }
    } else if second {
        project(n, e)
    } else {
        Fix::from_raw(0)
    }
}

// Whether a dof moves the first geom of a contact, and whether it moves the second.
fn moves_first(model: &Model, contact: &Contact, d: usize) -> bool
    requires contact { IsUsable (length model.now.geoms) contact.now }
    requires dof { d < model.now.nv }
    ensures { result ≡ spec.does_move model.now d (first_geom model.now contact.now) }
{
    model.moves(d, geom_of(model, contact.a).body)
}

fn moves_second(model: &Model, contact: &Contact, d: usize) -> bool
    requires contact { IsUsable (length model.now.geoms) contact.now }
    requires dof { d < model.now.nv }
    ensures { result ≡ spec.does_move model.now d (second_geom model.now contact.now) }
{
    model.moves(d, geom_of(model, contact.b).body)
}

// The slopes of a dof, from the velocity that it gives to the contact's point.
fn slope_from(
    model: &Model,
    frames: &Frames,
    contact: &Contact,
    d: usize,
    e: &V3<Plain, 32>,
) -> Slope
    requires contact { IsUsable (length model.now.geoms) contact.now }
    requires dof { d < model.now.nv }
    requires near { Within (mids e.now) (2 ^ 48) }
    requires lever { mids e.now ≡ spec.lever_of model.now (placing_of frames.now) contact.now d }
    ensures { IsSlope model.now (placing_of frames.now) contact.now d result }
{
    let _room = frames.column.len();
    let first = moves_first(model, contact, d);
    let second = moves_second(model, contact, d);
    Slope {
        normal: slope_along(first, second, &contact.normal, e),
        first: slope_along(first, second, &contact.t1, e),
        second: slope_along(first, second, &contact.t2, e),
    }
}

// The slopes of a dof.
fn slope_of(
    model: &Model,
    frames: &Frames,
    contact: &Contact,
    d: usize,
    number: usize,
) -> Result<Slope, OutOfRange>
    requires frames { AreFrames model.now frames.now }
    requires contact { IsUsable (length model.now.geoms) contact.now }
    requires dof { d < model.now.nv }
    ensures slope { IfOk result (λ s. IsSlope model.now (placing_of frames.now) contact.now d s) }
    ensures first { refusal_of result ≡ unless (constraint.is_near
        (spec.lever_of model.now (placing_of frames.now) contact.now d)) kind.Jacobian number }
{
    let e = lever_of(model, frames, contact, d, number)?;
    Ok(slope_from(model, frames, contact, d, &e))
}

/// Writes how each dof moves the two geoms of a contact apart, from the velocity that the dof gives to
/// the contact's point (MuJoCo documentation, Computation, constraints). `number` is that of the
/// contact's first row in the list of rows. The refusal is that of the first such velocity that passes
/// 2^16; those of dofs that move neither geom are judged too. Takes no memory.
pub fn contact_slopes(
    model: &Model,
    frames: &Frames,
    contact: &Contact,
    number: usize,
    out: &mut [Slope],
) -> Result<(), OutOfRange>
    requires frames { AreFrames model.now frames.now }
    requires contact { IsUsable (length model.now.geoms) contact.now }
    requires room { length out.old ≡ 64 }
    ensures slopes { OnOk result (AreSlopes model.now (placing_of frames.now) contact.now
        model.now.nv out.new) }
    ensures first { refusal_of result ≡ constraint.levers_fault model.now.nv number
        (spec.lever_of model.now (placing_of frames.now) contact.now) }
{
    for d in 0..model.nv {
        out[d] = slope_of(model, frames, contact, d, number)?;
    }
    Ok(())
}
