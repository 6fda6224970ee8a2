// Bodies and their inertias.
use crate::defaults::{ORIGIN, UNTURNED};
use crate::geoms::RawGeom;
use crate::joints::RawJoint;
use fx_list::{Array, Text};
use fx_num::Fix;
use mj_form::{NumberAt, TextForm, Walk, Walker};
use toml::Table;

/// A body's mass, with the place and the axes of its inertia.
#[derive(Drop)]
pub struct RawInertial {
    pub pos: Array<Fix<32>>,
    pub quat: Array<Fix<32>>,
    pub mass: Fix<40>,
    pub diaginertia: Array<Fix<40>>,
}

impl Walk for RawInertial {
    ghost use Rattle.mj_read.specs.Tables as spec;

    ghost walked = { λ _. spec.inertial };

    fn walk(w: &mut Walker, _format: u32, t: &Table) -> RawInertial {
        w.only(t, &["pos", "quat", "mass", "diaginertia"]);
        let pos = w.numbers_or::<32, 3, 3>(t, "pos", &ORIGIN);
        let quat = w.numbers_or::<32, 4, 4>(t, "quat", &UNTURNED);
        let mass = w.required::<NumberAt<40>>(t, "mass");
        let diaginertia = w.numbers_or::<40, 3, 3>(t, "diaginertia", &ORIGIN);
        RawInertial {
            pos,
            quat,
            mass,
            diaginertia,
        }
    }
}

/// A body, with its joints and geoms.
#[derive(Drop)]
pub struct RawBody {
    pub name: Text,
    pub parent: Text,
    pub pos: Array<Fix<32>>,
    pub quat: Array<Fix<32>>,
    pub inertial: Option<RawInertial>,
    pub joint: Array<RawJoint>,
    pub geom: Array<RawGeom>,
}

impl Walk for RawBody {
    ghost use Rattle.mj_read.specs.Tables as spec;

    ghost walked = { spec.body };

    fn walk(w: &mut Walker, format: u32, t: &Table) -> RawBody {
        w.only(
            t,
            &["name", "parent", "pos", "quat", "inertial", "joint", "geom"],
        );
        let name = w.required::<TextForm>(t, "name");
        let parent = w.text_or(t, "parent", "world");
        let pos = w.numbers_or::<32, 3, 3>(t, "pos", &ORIGIN);
        let quat = w.numbers_or::<32, 4, 4>(t, "quat", &UNTURNED);
        let inertial = w.inside::<RawInertial>(format, t, "inertial");
        let joint = w.tables::<RawJoint>(format, t, "joint");
        let geom = w.tables::<RawGeom>(format, t, "geom");
        RawBody {
            name,
            parent,
            pos,
            quat,
            inertial,
            joint,
            geom,
        }
    }
}
