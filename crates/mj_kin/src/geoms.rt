// Each geom in its place, which is fixed in its body.
ghost use Rattle.std.specs.Prelude.{◌≡◌, ◌≢◌, ℕ, ◌+◌, ◌^◌, ◌<◌, ◌≤◌, length, IfOk};
ghost use Rattle.fx_whole.specs.First.{refusal_of, first_to};
ghost use Rattle.fx_vec.specs.Quaternions.{quaternion};
ghost use Rattle.fx_vec.specs.Sizes.{Within};
ghost use Rattle.fx_vec.specs.Views.{mids};
ghost use Rattle.mj_quat.specs.Rotation.{IsUnit};
ghost use Rattle.mj_types.specs.Lawful.{IsGeom};
ghost use Rattle.mj_types.specs.Parts.{geom};
ghost use Rattle.mj_kin.specs.Placings as spec;
ghost use Rattle.mj_kin.specs.Working as working;

use crate::frame::Frame;
use crate::leaves::{attach, frame_of};
use fx_list::Array;
use fx_num::Plain;
use fx_vec::{Q4, V3};
use mj_types::{Geom, Model, OutOfRange, Quantity, State};

/// A geom.
fn geom_at(model: &Model, g: usize) -> &Geom
    requires { g < length model.now.geoms }
    ensures value { result.now ≡ geom model.now.geoms g }
    ensures lawful { IsGeom result.now }
    ensures body { result.now.body ≤ length model.now.bodies }
{
    model.geoms.entry(g)
}

/// The frame of a geom, attached to its body's, which the lists hold.
fn geom_frame(
    model: &Model,
    _state: &State,
    g: usize,
    pos: &Array<V3<Plain, 32>>,
    quat: &Array<Q4>,
) -> Result<Frame, OutOfRange>
    requires geom { g < length model.now.geoms }
    requires positions { length pos.now ≡ length model.now.bodies }
    requires orientations { length quat.now ≡ length model.now.bodies }
    requires posed { working.ArePosed model.now _state.now pos.now quat.now
        (length model.now.bodies) }
    ensures pose { IfOk result (λ f. working.pose_of f ≡ spec.geom_pose model.now _state.now g) }
    ensures unit { IfOk result (λ f. IsUnit (quaternion f.quat)) }
    ensures near { IfOk result (λ f. Within (mids f.pos) (2 ^ 46)) }
    ensures first { refusal_of result ≡ spec.geom_fault model.now _state.now g }
{
    let geom = geom_at(model, g);
    let body = frame_of(geom.body, pos, quat);
    attach(&body, &geom.pos, &geom.quat, Quantity::GeomNorm, g + 1)
}

/// Writes a geom's frame down.
fn write_geom(g: usize, frame: &Frame, pos: &mut Array<V3<Plain, 32>>, quat: &mut Array<Q4>)
    requires positions { g < length pos.old }
    requires orientations { g < length quat.old }
    ensures positions { length pos.new ≡ length pos.old }
    ensures orientations { length quat.new ≡ length quat.old }
    ensures pose { working.entry_pose pos.new quat.new g ≡ working.pose_of frame.now }
    ensures others { (k : ℕ) → k ≢ g
        → working.entry_pose pos.new quat.new k ≡ working.entry_pose pos.old quat.old k }
{
    pos.put(g, frame.pos);
    quat.put(g, frame.quat);
}

/// Places a geom, where those before it are placed.
fn place_geom(
    model: &Model,
    state: &State,
    g: usize,
    pos: &Array<V3<Plain, 32>>,
    quat: &Array<Q4>,
    gpos: &mut Array<V3<Plain, 32>>,
    gquat: &mut Array<Q4>,
) -> Result<(), OutOfRange>
    requires geom { g < length model.now.geoms }
    requires positions { length pos.now ≡ length model.now.bodies }
    requires orientations { length quat.now ≡ length model.now.bodies }
    requires posed { working.ArePosed model.now state.now pos.now quat.now
        (length model.now.bodies) }
    requires places { length gpos.old ≡ length model.now.geoms }
    requires turns { length gquat.old ≡ length model.now.geoms }
    requires set { working.AreSet model.now state.now gpos.old gquat.old g }
    ensures places { length gpos.new ≡ length model.now.geoms }
    ensures turns { length gquat.new ≡ length model.now.geoms }
    ensures set { IfOk result (λ _. working.AreSet model.now state.now gpos.new gquat.new (g + 1)) }
    ensures first { refusal_of result ≡ spec.geom_fault model.now state.now g }
{
    let frame = geom_frame(model, state, g, pos, quat)?;
    write_geom(g, &frame, gpos, gquat);
    Ok(())
}

/// Places all geoms.
pub(crate) fn place_geoms(
    model: &Model,
    state: &State,
    pos: &Array<V3<Plain, 32>>,
    quat: &Array<Q4>,
    gpos: &mut Array<V3<Plain, 32>>,
    gquat: &mut Array<Q4>,
) -> Result<(), OutOfRange>
    requires positions { length pos.now ≡ length model.now.bodies }
    requires orientations { length quat.now ≡ length model.now.bodies }
    requires posed { working.ArePosed model.now state.now pos.now quat.now
        (length model.now.bodies) }
    requires places { length gpos.old ≡ length model.now.geoms }
    requires turns { length gquat.old ≡ length model.now.geoms }
    ensures places { length gpos.new ≡ length model.now.geoms }
    ensures turns { length gquat.new ≡ length model.now.geoms }
    ensures set { IfOk result (λ _. working.AreSet model.now state.now gpos.new gquat.new
        (length model.now.geoms)) }
    ensures first { refusal_of result ≡ first_to (length model.now.geoms)
        (spec.geom_fault model.now state.now) }
{
    for g in 0..model.geoms.len() {
        place_geom(model, state, g, pos, quat, gpos, gquat)?;
    }
    Ok(())
}
