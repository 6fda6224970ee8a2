// Geoms.
ghost use Rattle.std.specs.Prelude.{◌<◌, length};
ghost use Rattle.mj_form.specs.Reading.{Reads};
ghost use Rattle.mj_form.specs.Steps.{Step};
ghost use Rattle.mj_walk.specs.Tables as spec;

use crate::names::geom_name;
use fx_list::Array;
use fx_num::Number;
use mj_form::{Refusal, Walker, under_item};
use mj_judge::{
    Extent, condim, geom_kind_of, judge, judge_friction, judge_number, judge_rotation, judge_soft,
    judge_vector, judge_whole, size,
};
use mj_read::{RawBody, RawGeom};
use mj_types::{Geom, GeomKind, ModelFault};
use std::alloc::Global;

fn no_extent() -> Extent {
    Extent {
        radius: Number::from_raw(0),
        half: Number::from_raw(0),
    }
}

/// Judges a geom of the body with that number, or of the world.
fn walk_geom(
    w: &mut Walker,
    before: &[RawBody],
    earlier: &[RawGeom],
    number: usize,
    on_world: bool,
    g: &RawGeom,
) -> Geom
    ensures { Step w.old.refusal w.new.refusal result
        (spec.geom before.now earlier.now number on_world g.now) }
{
    judge(w, "name", geom_name(before, earlier, &g.name), ());
    let kind = judge(w, "type", geom_kind_of(&g.kind, on_world), GeomKind::Sphere);
    let extent = judge(w, "size", size(kind, &g.size), no_extent());
    let pos = judge_vector(w, "pos", &g.pos, 1 << 42);
    let quat = judge_rotation(w, "quat", &g.quat);
    let contype = judge_whole(w, "contype", &g.contype, 0, 2_147_483_647);
    let conaffinity = judge_whole(w, "conaffinity", &g.conaffinity, 0, 2_147_483_647);
    let dim = judge(w, "condim", condim(&g.condim), 1);
    let friction = judge_friction(w, "friction", &g.friction);
    let margin = judge_number(w, "margin", &g.margin, &0, &(1 << 42));
    let soft = judge_soft(w, "solref", &g.solref, "solimp", &g.solimp);
    Geom {
        kind,
        body: number,
        pos,
        quat,
        radius: extent.radius,
        half: extent.half,
        contype,
        conaffinity,
        condim: dim,
        friction,
        margin,
        soft,
    }
}

fn judge_geom(
    alloc: Global,
    before: &[RawBody],
    own: &[RawGeom],
    number: usize,
    on_world: bool,
    i: usize,
    g: &RawGeom,
) -> Result<Geom, Refusal<ModelFault>>
    requires { i < length own.now }
    ensures { Reads result (spec.geom_item before.now own.now number on_world i g.now) }
{
    let mut w = Walker::new(alloc);
    let x = walk_geom(&mut w, before, &own[..i], number, on_world, g);
    under_item(alloc, "geom", i + 1, w.end(x))
}

/// Judges the geoms of the body with that number or of the world, behind the bodies before.
pub fn judge_geoms(
    alloc: Global,
    before: &[RawBody],
    number: usize,
    on_world: bool,
    own: &[RawGeom],
) -> Result<Array<Geom>, Refusal<ModelFault>>
    ensures { Reads result (spec.geoms before.now number on_world own.now) }
{
    let mut found = Vec::new(alloc);
    for (i, g) in own.iter().enumerate() {
        let x = judge_geom(alloc, before, own, number, on_world, i, g)?;
        found.push(x)?;
    }
    Ok(Array::from_vec(found))
}
