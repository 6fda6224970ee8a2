// The rows of contacts: of the edges of their friction pyramids.
ghost use Rattle.std.specs.Prelude.{◌≡◌, length, ◌+◌, ◌<◌, ◌≤◌, ◌∷◌, []};
ghost use Rattle.fx_whole.specs.First.{refusal_of};
ghost use Rattle.mj_types.specs.Parts.{number_at};
ghost use Rattle.mj_types.specs.Placed.{AreFrames, placing_of};
ghost use Rattle.mj_types.specs.Rooms.{ContactsRoom};
ghost use Rattle.mj_contact.specs.Sizes.{AreUsable, IsUsable};
ghost use Rattle.mj_rows.specs.Constraints.{all_edges};
ghost use Rattle.mj_rows.specs.Edges as spec;
ghost use Rattle.mj_rows.specs.Slopes.{AreSlopes};
ghost use Rattle.mj_dual.specs.Reductions.{dynamics};
ghost use Rattle.mj_dual.specs.Taking.{CanTake, HasDynamics, HasAdded};

use crate::taking::take_row;
use fx_num::Fix;
use mj_rows::{Slope, contact_slopes, edge, edge_count, first_edge};
use mj_types::{Contact, Contacts, Dual, Factor, Frames, Model, OutOfRange, Rows, State};

// Takes the row of an edge of the contact at place `k`, from the contact's slopes.
fn take_edge(
    model: &Model,
    state: &State,
    factor: &Factor,
    smooth: &[Fix<32>],
    frames: &Frames,
    contact: &Contact,
    k: usize,
    number: u32,
    slopes: &[Slope],
    jacobian: &mut [Fix<32>],
    reduced: &mut [Fix<24>],
    rows: &mut Rows,
    out: &mut Dual,
) -> Result<(), OutOfRange>
    requires dynamics { HasDynamics model.now state.now factor.now smooth.now }
    requires usable { IsUsable (length model.now.geoms) contact.now }
    requires place { k < 1024 }
    requires slopes { AreSlopes model.now (placing_of frames.now) contact.now model.now.nv
        slopes.now }
    requires jacobian { length jacobian.old ≡ model.now.nv }
    requires reduced { length reduced.old ≡ model.now.nv }
    requires open_ { CanTake model.now (number_at factor.now.d) rows.old out.old }
    requires spare { length rows.old.list.list
        + length (spec.edge_of model.now (placing_of frames.now) contact.now k number ∷ [])
        ≤ model.now.njmax }
    ensures { HasAdded model.now (dynamics model.now state.now factor.now smooth.now)
        (spec.edge_of model.now (placing_of frames.now) contact.now k number ∷ [])
        (refusal_of result) rows.old rows.new out.old out.new }
{
    let place = rows.list.len() + 1;
    let row = edge(model, frames, contact, k, number, place, slopes, jacobian)?;
    take_row(
        model, state, factor, smooth, &row, jacobian, reduced, rows, out,
    )
}

// The number of the edge `i` from the first one on.
fn edge_number(first: u32, i: usize) -> u32
    requires first { first ≤ 1 }
    requires few { i < 4 }
    ensures { result ≡ first + i }
{
    first + i as u32
}

// Takes the rows of all edges of a contact, from its slopes.
fn take_edges(
    model: &Model,
    state: &State,
    factor: &Factor,
    smooth: &[Fix<32>],
    frames: &Frames,
    contact: &Contact,
    k: usize,
    slopes: &[Slope],
    jacobian: &mut [Fix<32>],
    reduced: &mut [Fix<24>],
    rows: &mut Rows,
    out: &mut Dual,
) -> Result<(), OutOfRange>
    requires dynamics { HasDynamics model.now state.now factor.now smooth.now }
    requires usable { IsUsable (length model.now.geoms) contact.now }
    requires place { k < 1024 }
    requires slopes { AreSlopes model.now (placing_of frames.now) contact.now model.now.nv
        slopes.now }
    requires jacobian { length jacobian.old ≡ model.now.nv }
    requires reduced { length reduced.old ≡ model.now.nv }
    requires open_ { CanTake model.now (number_at factor.now.d) rows.old out.old }
    requires spare { length rows.old.list.list
        + length (spec.edges model.now (placing_of frames.now) contact.now k)
        ≤ model.now.njmax }
    ensures { HasAdded model.now (dynamics model.now state.now factor.now smooth.now)
        (spec.edges model.now (placing_of frames.now) contact.now k)
        (refusal_of result) rows.old rows.new out.old out.new }
{
    let first = first_edge(model, contact);
    for i in 0..edge_count(model, contact) {
        take_edge(
            model,
            state,
            factor,
            smooth,
            frames,
            contact,
            k,
            edge_number(first, i),
            slopes,
            jacobian,
            reduced,
            rows,
            out,
        )?;
    }
    Ok(())
}

// Takes the rows of a contact. `slopes` is working room.
fn take_contact(
    model: &Model,
    state: &State,
    factor: &Factor,
    smooth: &[Fix<32>],
    frames: &Frames,
    contact: &Contact,
    k: usize,
    slopes: &mut [Slope],
    jacobian: &mut [Fix<32>],
    reduced: &mut [Fix<24>],
    rows: &mut Rows,
    out: &mut Dual,
) -> Result<(), OutOfRange>
    requires dynamics { HasDynamics model.now state.now factor.now smooth.now }
    requires frames { AreFrames model.now frames.now }
    requires usable { IsUsable (length model.now.geoms) contact.now }
    requires place { k < 1024 }
    requires slopes { length slopes.old ≡ 64 }
    requires jacobian { length jacobian.old ≡ model.now.nv }
    requires reduced { length reduced.old ≡ model.now.nv }
    requires open_ { CanTake model.now (number_at factor.now.d) rows.old out.old }
    requires spare { length rows.old.list.list
        + length (spec.edges model.now (placing_of frames.now) contact.now k)
        ≤ model.now.njmax }
    ensures { HasAdded model.now (dynamics model.now state.now factor.now smooth.now)
        (spec.edges model.now (placing_of frames.now) contact.now k)
        (refusal_of result) rows.old rows.new out.old out.new }
{
    let place = rows.list.len() + 1;
    contact_slopes(model, frames, contact, place, slopes)?;
    take_edges(
        model, state, factor, smooth, frames, contact, k, slopes, jacobian, reduced, rows, out,
    )
}

/// Takes the rows of all contacts. `slopes` is working room.
pub(crate) fn take_contacts(
    model: &Model,
    state: &State,
    factor: &Factor,
    smooth: &[Fix<32>],
    frames: &Frames,
    contacts: &Contacts,
    slopes: &mut [Slope],
    jacobian: &mut [Fix<32>],
    reduced: &mut [Fix<24>],
    rows: &mut Rows,
    out: &mut Dual,
) -> Result<(), OutOfRange>
    requires dynamics { HasDynamics model.now state.now factor.now smooth.now }
    requires frames { AreFrames model.now frames.now }
    requires usable { AreUsable (length model.now.geoms) contacts.now.list.list }
    requires contacts_room { ContactsRoom model.now contacts.now }
    requires slopes { length slopes.old ≡ 64 }
    requires jacobian { length jacobian.old ≡ model.now.nv }
    requires reduced { length reduced.old ≡ model.now.nv }
    requires open_ { CanTake model.now (number_at factor.now.d) rows.old out.old }
    requires spare { length rows.old.list.list
        + length (all_edges model.now (placing_of frames.now) contacts.now.list.list)
        ≤ model.now.njmax }
    ensures { HasAdded model.now (dynamics model.now state.now factor.now smooth.now)
        (all_edges model.now (placing_of frames.now) contacts.now.list.list)
        (refusal_of result) rows.old rows.new out.old out.new }
{
    for k in 0..contacts.list.len() {
        take_contact(
            model,
            state,
            factor,
            smooth,
            frames,
            contacts.list.entry(k),
            k,
            slopes,
            jacobian,
            reduced,
            rows,
            out,
        )?;
    }
    Ok(())
}
