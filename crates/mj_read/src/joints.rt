// Joints.
ghost use Rattle.toml.specs.View.{table_view};
ghost use Rattle.mj_form.specs.Keys.{only};
ghost use Rattle.mj_form.specs.Steps.{Step};
ghost use Rattle.mj_read.specs.Tables as spec;

use crate::defaults::{ORIGIN, SOLIMP, SOLREF, UPWARD};
use fx_list::{Array, Text};
use fx_num::Fix;
use mj_form::{Numbers, TextForm, Walk, Walker, holds_text};
use toml::Table;

/// A joint. Of a free joint and a ball only some keys may be given; the others have their defaults.
#[derive(Drop)]
pub struct RawJoint {
    pub name: Option<Text>,
    pub kind: Text,
    pub pos: Array<Fix<32>>,
    pub axis: Array<Fix<32>>,
    pub range: Option<Array<Fix<32>>>,
    pub margin: Fix<32>,
    pub stiffness: Fix<32>,
    pub damping: Fix<32>,
    pub springref: Fix<32>,
    pub armature: Fix<40>,
    pub frictionloss: Fix<32>,
    pub solreflimit: Array<Fix<32>>,
    pub solimplimit: Array<Fix<32>>,
    pub solreffriction: Array<Fix<32>>,
    pub solimpfriction: Array<Fix<32>>,
}

impl Walk for RawJoint {
    ghost use Rattle.mj_read.specs.Tables as spec;

    ghost walked = { spec.joint };

    fn walk(w: &mut Walker, format: u32, t: &Table) -> RawJoint {
        only_joint_keys(w, format, t);
        let name = w.optional::<TextForm>(t, "name");
        let kind = w.text_or(t, "type", "hinge");
        let pos = w.numbers_or::<32, 3, 3>(t, "pos", &ORIGIN);
        let axis = w.numbers_or::<32, 3, 3>(t, "axis", &UPWARD);
        let range = w.optional::<Numbers<32, 2, 2>>(t, "range");
        let margin = w.number_or::<32>(t, "margin", 0);
        let stiffness = w.number_or::<32>(t, "stiffness", 0);
        let damping = w.number_or::<32>(t, "damping", 0);
        let springref = w.number_or::<32>(t, "springref", 0);
        let armature = w.number_or::<40>(t, "armature", 0);
        let frictionloss = w.number_or::<32>(t, "frictionloss", 0);
        let solreflimit = w.filled::<32, 1, 2>(t, "solreflimit", &SOLREF);
        let solimplimit = w.filled::<32, 1, 5>(t, "solimplimit", &SOLIMP);
        let solreffriction = w.filled::<32, 1, 2>(t, "solreffriction", &SOLREF);
        let solimpfriction = w.filled::<32, 1, 5>(t, "solimpfriction", &SOLIMP);
        RawJoint {
            name,
            kind,
            pos,
            axis,
            range,
            margin,
            stiffness,
            damping,
            springref,
            armature,
            frictionloss,
            solreflimit,
            solimplimit,
            solreffriction,
            solimpfriction,
        }
    }
}

/// Refuses the least key by bytes that a hinge or a slide doesn't have in this format.
fn only_hinge_keys(w: &mut Walker, format: u32, t: &Table)
    ensures { Step w.old.refusal w.new.refusal tt
        (only (spec.all_joint_keys format) (table_view t.now)) }
{
    if format == 2 {
        w.only(
            t,
            &[
                "name",
                "type",
                "pos",
                "axis",
                "range",
                "margin",
                "stiffness",
                "damping",
                "springref",
                "armature",
                "solreflimit",
                "solimplimit",
                "frictionloss",
                "solreffriction",
                "solimpfriction",
            ],
        );
    } else {
        w.only(
            t,
            &[
                "name",
                "type",
                "pos",
                "axis",
                "range",
                "margin",
                "stiffness",
                "damping",
                "springref",
                "armature",
                "solreflimit",
                "solimplimit",
            ],
        );
    }
}

/// Refuses the least key by bytes that a joint of this type doesn't have in this format.
fn only_joint_keys(w: &mut Walker, format: u32, t: &Table)
    ensures { Step w.old.refusal w.new.refusal tt
        (only (spec.joint_keys format (table_view t.now)) (table_view t.now)) }
{
    if holds_text(t, "type", "free") {
        w.only(t, &["name", "type", "damping", "armature"]);
    } else if holds_text(t, "type", "ball") {
        w.only(t, &["name", "type", "pos", "damping", "armature"]);
    } else {
        only_hinge_keys(w, format, t);
    }
}
