// All contacts, in order.
ghost use Rattle.std.specs.Prelude.{◌≡◌, [], ◌+◌, ◌-◌, ◌<◌, ◌≤◌, length, IfOk};
ghost use Rattle.fx_whole.specs.First.{refusal_of};
ghost use Rattle.mj_types.specs.Parts.{geom};
ghost use Rattle.mj_types.specs.Placed.{AreFrames, placing_of};
ghost use Rattle.mj_types.specs.Rooms.{ContactsRoom};
ghost use Rattle.mj_contact.specs.Filter as filter;
ghost use Rattle.mj_contact.specs.Growing.{HasAdded};
ghost use Rattle.mj_contact.specs.Lists as spec;
ghost use Rattle.mj_contact.specs.Sizes.{AreUnits, AreUsable};

use crate::filter::{is_moved, is_tested, is_turned};
use crate::pair::{add_in_order, geom_at};
use fx_list::Listing;
use mj_types::{Contact, Contacts, Frames, Model, OutOfRange};

/// Adds the contacts of the geoms at two places, of which it is known that they are tested.
fn add_tested(
    model: &Model,
    frames: &Frames,
    a: usize,
    b: usize,
    out: &mut Listing<Contact>,
) -> Result<(), OutOfRange>
    requires a { a < length model.now.geoms }
    requires b { b < length model.now.geoms }
    requires frames { AreFrames model.now frames.now }
    requires units { AreUnits model.now frames.now }
    requires room { out.old.most ≡ model.now.njmax }
    requires within { length out.old.list ≤ out.old.most }
    requires reach { AreUsable (length model.now.geoms) out.old.list }
    ensures added { HasAdded out.old (spec.found_turned model.now (placing_of frames.now) a b)
        (refusal_of result) out.new }
    ensures reach { AreUsable (length model.now.geoms) out.new.list }
{
    if is_turned(geom_at(model, a), geom_at(model, b)) {
        add_in_order(model, frames, b, a, out)
    } else {
        add_in_order(model, frames, a, b, out)
    }
}

/// Adds the contacts of the geoms at two places, where it is known whether the first one's body is
/// moved.
fn add_pair(
    model: &Model,
    frames: &Frames,
    a: usize,
    moved: bool,
    b: usize,
    out: &mut Listing<Contact>,
) -> Result<(), OutOfRange>
    requires a { a < length model.now.geoms }
    requires b { b < length model.now.geoms }
    requires moved { moved ≡ filter.is_moved model.now (geom model.now.geoms a).body }
    requires frames { AreFrames model.now frames.now }
    requires units { AreUnits model.now frames.now }
    requires room { out.old.most ≡ model.now.njmax }
    requires within { length out.old.list ≤ out.old.most }
    requires reach { AreUsable (length model.now.geoms) out.old.list }
    ensures added { HasAdded out.old (spec.found model.now (placing_of frames.now) a b)
        (refusal_of result) out.new }
    ensures reach { AreUsable (length model.now.geoms) out.new.list }
{
    if is_tested(model, geom_at(model, a), moved, geom_at(model, b)) {
        add_tested(model, frames, a, b, out)
    } else {
        Ok(())
    }
}

/// Adds the contacts of a geom with each later one.
fn add_with_later(
    model: &Model,
    frames: &Frames,
    a: usize,
    out: &mut Listing<Contact>,
) -> Result<(), OutOfRange>
    requires a { a < length model.now.geoms }
    requires frames { AreFrames model.now frames.now }
    requires units { AreUnits model.now frames.now }
    requires room { out.old.most ≡ model.now.njmax }
    requires within { length out.old.list ≤ out.old.most }
    requires reach { AreUsable (length model.now.geoms) out.old.list }
    ensures added { HasAdded out.old (spec.found_with_later model.now (placing_of frames.now) a)
        (refusal_of result) out.new }
    ensures reach { AreUsable (length model.now.geoms) out.new.list }
{
    let moved = is_moved(model, geom_at(model, a).body);
    let later = model.geoms.len() - (a + 1);
    for i in 0..later {
        add_pair(model, frames, a, moved, a + 1 + i, out)?;
    }
    Ok(())
}

/// Adds all contacts.
fn add_all(model: &Model, frames: &Frames, out: &mut Listing<Contact>) -> Result<(), OutOfRange>
    requires frames { AreFrames model.now frames.now }
    requires units { AreUnits model.now frames.now }
    requires room { out.old.most ≡ model.now.njmax }
    requires within { length out.old.list ≤ out.old.most }
    requires reach { AreUsable (length model.now.geoms) out.old.list }
    ensures added { HasAdded out.old (spec.contact_list model.now (placing_of frames.now))
        (refusal_of result) out.new }
    ensures reach { AreUsable (length model.now.geoms) out.new.list }
{
    for a in 0..model.geoms.len() {
        add_with_later(model, frames, a, out)?;
    }
    Ok(())
}

/// The contacts of a state (MuJoCo documentation, Computation, collision detection): over all pairs of
/// geoms in lexicographic order, the contacts of those that are tested. A pair is tested where the
/// masks of the two have a bit in common, their bodies differ, neither body is the other's parent
/// unless that is the world, a dof moves one of the bodies, and not both are planes. Geom 1 is the one
/// of the earlier kind of plane, sphere and capsule, else the earlier one, and the normal points from
/// it to geom 2. A contact stands where the distance is below the larger margin of the two. Numbers are
/// at scale 32, each rounded once. The refusal is the number of rows, one past the model's most,
/// exactly where there are more contacts than that. Takes no memory.
pub fn contacts(model: &Model, frames: &Frames, out: &mut Contacts) -> Result<(), OutOfRange>
    requires frames { AreFrames model.now frames.now }
    requires units { AreUnits model.now frames.now }
    requires room { ContactsRoom model.now out.old }
    ensures room { ContactsRoom model.now out.new }
    ensures first { refusal_of result ≡ spec.contacts_fault model.now (placing_of frames.now) }
    ensures list { IfOk result (λ _. out.new.list.list
        ≡ spec.contact_list model.now (placing_of frames.now)) }
    ensures reach { AreUsable (length model.now.geoms) out.new.list.list }
{
    out.list.clear();
    add_all(model, frames, &mut out.list)?;
    Ok(())
}
