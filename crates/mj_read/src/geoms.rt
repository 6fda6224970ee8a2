// Geoms.
ghost use Rattle.std.specs.Prelude.{◌≡◌};
ghost use Rattle.toml.specs.View.{table_view};
ghost use Rattle.mj_read.specs.Tables as spec;

use crate::defaults::{FRICTION, ORIGIN, SOLIMP, SOLREF, UNTURNED};
use fx_list::{Array, Text};
use fx_num::Fix;
use mj_form::{Numbers, TextForm, Walk, Walker, has_key, holds_text};
use toml::Table;

/// A geom. It has a size, unless it is a plane.
#[derive(Drop)]
pub struct RawGeom {
    pub name: Option<Text>,
    pub kind: Text,
    pub size: Option<Array<Fix<32>>>,
    pub pos: Array<Fix<32>>,
    pub quat: Array<Fix<32>>,
    pub contype: i64,
    pub conaffinity: i64,
    pub condim: i64,
    pub friction: Array<Fix<32>>,
    pub margin: Fix<32>,
    pub solref: Array<Fix<32>>,
    pub solimp: Array<Fix<32>>,
}

impl Walk for RawGeom {
    ghost use Rattle.mj_read.specs.Tables as spec;

    ghost walked = { λ _. spec.geom };

    fn walk(w: &mut Walker, _format: u32, t: &Table) -> RawGeom {
        w.only(
            t,
            &[
                "name",
                "type",
                "size",
                "pos",
                "quat",
                "contype",
                "conaffinity",
                "condim",
                "friction",
                "margin",
                "solref",
                "solimp",
            ],
        );
        let name = w.optional::<TextForm>(t, "name");
        let kind = w.text_or(t, "type", "sphere");
        w.must("size", has_size(t));
        let size = w.optional::<Numbers<32, 1, 3>>(t, "size");
        let pos = w.numbers_or::<32, 3, 3>(t, "pos", &ORIGIN);
        let quat = w.numbers_or::<32, 4, 4>(t, "quat", &UNTURNED);
        let contype = w.whole_or(t, "contype", 1);
        let conaffinity = w.whole_or(t, "conaffinity", 1);
        let condim = w.whole_or(t, "condim", 3);
        let friction = w.numbers_or::<32, 1, 3>(t, "friction", &FRICTION);
        let margin = w.number_or::<32>(t, "margin", 0);
        let solref = w.filled::<32, 1, 2>(t, "solref", &SOLREF);
        let solimp = w.filled::<32, 1, 5>(t, "solimp", &SOLIMP);
        RawGeom {
            name,
            kind,
            size,
            pos,
            quat,
            contype,
            conaffinity,
            condim,
            friction,
            margin,
            solref,
            solimp,
        }
    }
}

/// Whether the table has what a geom's size asks: a size, unless it is a plane.
fn has_size(t: &Table) -> bool
    ensures { result ≡ spec.has_size (table_view t.now) }
{
    holds_text(t, "type", "plane") || has_key(t, "size")
}
