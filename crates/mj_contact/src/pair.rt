// The contacts of a pair of geoms.
ghost use Rattle.std.specs.Prelude.{◌≡◌, ◌+◌, ◌^◌, ◌<◌, ◌≤◌, length, ◌∷◌, [], IfSome};
ghost use Rattle.fx_whole.specs.First.{refusal_of};
ghost use Rattle.mj_types.specs.Lawful.{IsGeom, IsUpTo};
ghost use Rattle.mj_types.specs.Parts.{geom};
ghost use Rattle.mj_types.specs.Placed.{AreFrames, placing_of};
ghost use Rattle.mj_touch.specs.Meetings.{meeting_of, meetings_of, met, IsNear, AreNear};
ghost use Rattle.mj_touch.specs.Solids.{IsShape};
ghost use Rattle.mj_contact.specs.Growing.{HasAdded};
ghost use Rattle.mj_contact.specs.Lists as spec;
ghost use Rattle.mj_contact.specs.Sizes.{AreUnits, AreUsable, IsUsable};

use fx_list::Listing;
use fx_num::Fix;
use mj_touch::{Shape, Touch, Touches, tangents, touches};
use mj_types::{Contact, Frames, Geom, Model, OutOfRange, Quantity};

/// A geom.
pub(crate) fn geom_at(model: &Model, g: usize) -> &Geom
    requires { g < length model.now.geoms }
    ensures value { result.now ≡ geom model.now.geoms g }
    ensures lawful { IsGeom result.now }
    ensures body { result.now.body ≤ length model.now.bodies }
{
    model.geoms.entry(g)
}

/// A geom in its place.
fn shape_at(model: &Model, frames: &Frames, g: usize) -> Shape
    requires geom { g < length model.now.geoms }
    requires frames { AreFrames model.now frames.now }
    requires units { AreUnits model.now frames.now }
    ensures value { result ≡ spec.shape_at model.now (placing_of frames.now) g }
    ensures shape { IsShape result }
{
    let geom = geom_at(model, g);
    Shape {
        kind: geom.kind,
        center: frames.gpos.at(g),
        turn: frames.gquat.at(g),
        radius: geom.radius,
        half: geom.half,
    }
}

/// The larger margin of two geoms.
fn margin(a: &Geom, b: &Geom) -> Fix<32>
    requires a { IsGeom a.now }
    requires b { IsGeom b.now }
    ensures value { result.mid ≡ spec.margin a.now b.now }
    ensures range { IsUpTo result (2 ^ 42) }
{
    if a.margin.mid < b.margin.mid {
        b.margin
    } else {
        a.margin
    }
}

/// The contact of the geoms at two places that touch.
fn contact(model: &Model, a: usize, b: usize, touch: &Touch) -> Contact
    requires a { a < length model.now.geoms }
    requires b { b < length model.now.geoms }
    requires near { IsNear touch.now }
    ensures value { result ≡ spec.contact_of a b (meeting_of touch.now) }
    ensures usable { IsUsable (length model.now.geoms) result }
{
    let frame = tangents(&touch.normal);
    let _count = model.geoms.len();
    Contact {
        a: a + 1,
        b: b + 1,
        dist: touch.dist,
        point: touch.point,
        normal: touch.normal,
        t1: frame.t1,
        t2: frame.t2,
    }
}

/// Adds a contact, where there is room.
fn push(model: &Model, x: Contact, out: &mut Listing<Contact>) -> Result<(), OutOfRange>
    requires room { out.old.most ≡ model.now.njmax }
    requires within { length out.old.list ≤ out.old.most }
    requires usable { IsUsable (length model.now.geoms) x }
    requires reach { AreUsable (length model.now.geoms) out.old.list }
    ensures added { HasAdded out.old (x ∷ []) (refusal_of result) out.new }
    ensures reach { AreUsable (length model.now.geoms) out.new.list }
{
    let _count = model.geoms.len();
    if out.len() < out.most() {
        out.push(x);
        Ok(())
    } else {
        Err(OutOfRange {
            kind: Quantity::Rows,
            index: out.most() + 1,
        })
    }
}

/// Adds the contact of two geoms, where they touch.
fn add(
    model: &Model,
    a: usize,
    b: usize,
    touch: &Option<Touch>,
    out: &mut Listing<Contact>,
) -> Result<(), OutOfRange>
    requires a { a < length model.now.geoms }
    requires b { b < length model.now.geoms }
    requires near { IfSome touch.now (λ t. IsNear t) }
    requires room { out.old.most ≡ model.now.njmax }
    requires within { length out.old.list ≤ out.old.most }
    requires reach { AreUsable (length model.now.geoms) out.old.list }
    ensures added { HasAdded out.old (spec.listed a b (met touch.now)) (refusal_of result) out.new }
    ensures reach { AreUsable (length model.now.geoms) out.new.list }
{
    match touch {
        Some(touch) => push(model, contact(model, a, b, touch), out),
        None => Ok(()),
    }
}

/// Adds the contacts of two geoms.
fn add_both(
    model: &Model,
    a: usize,
    b: usize,
    touches: &Touches,
    out: &mut Listing<Contact>,
) -> Result<(), OutOfRange>
    requires a { a < length model.now.geoms }
    requires b { b < length model.now.geoms }
    requires near { AreNear touches.now }
    requires room { out.old.most ≡ model.now.njmax }
    requires within { length out.old.list ≤ out.old.most }
    requires reach { AreUsable (length model.now.geoms) out.old.list }
    ensures added { HasAdded out.old (spec.all_listed a b (meetings_of touches.now))
        (refusal_of result) out.new }
    ensures reach { AreUsable (length model.now.geoms) out.new.list }
{
    add(model, a, b, &touches.first, out)?;
    add(model, a, b, &touches.second, out)?;
    Ok(())
}

/// Adds the contacts of the geoms at two places, of which the first is of the earlier kind.
#[tactic(auto, unfolding(crate::specs::Lists::found_in_order))]
pub(crate) fn add_in_order(
    model: &Model,
    frames: &Frames,
    a: usize,
    b: usize,
    out: &mut Listing<Contact>,
) -> Result<(), OutOfRange>
    requires a { a < length model.now.geoms }
    requires b { b < length model.now.geoms }
    requires frames { AreFrames model.now frames.now }
    requires units { AreUnits model.now frames.now }
    requires room { out.old.most ≡ model.now.njmax }
    requires within { length out.old.list ≤ out.old.most }
    requires reach { AreUsable (length model.now.geoms) out.old.list }
    ensures added { HasAdded out.old (spec.found_in_order model.now (placing_of frames.now) a b)
        (refusal_of result) out.new }
    ensures reach { AreUsable (length model.now.geoms) out.new.list }
{
    let margin = margin(geom_at(model, a), geom_at(model, b));
    let first = shape_at(model, frames, a);
    let second = shape_at(model, frames, b);
    add_both(model, a, b, &touches(&first, &second, &margin), out)
}
