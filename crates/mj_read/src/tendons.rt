// Tendons.
use crate::defaults::{SOLIMP, SOLREF};
use fx_list::{Array, Text};
use fx_num::Fix;
use mj_form::{NumberAt, Numbers, TextForm, Walk, Walker};
use toml::Table;

/// A joint of a tendon, and its coefficient.
#[derive(Drop)]
pub struct RawTerm {
    pub joint: Text,
    pub coef: Fix<32>,
}

impl Walk for RawTerm {
    ghost use Rattle.mj_read.specs.Tables as spec;

    ghost walked = { λ _. spec.term };

    fn walk(w: &mut Walker, _format: u32, t: &Table) -> RawTerm {
        w.only(t, &["joint", "coef"]);
        let joint = w.required::<TextForm>(t, "joint");
        let coef = w.required::<NumberAt<32>>(t, "coef");
        RawTerm { joint, coef }
    }
}

/// A tendon over joints.
#[derive(Drop)]
pub struct RawTendon {
    pub name: Option<Text>,
    pub joint: Array<RawTerm>,
    pub range: Option<Array<Fix<32>>>,
    pub margin: Fix<32>,
    pub stiffness: Fix<32>,
    pub damping: Fix<32>,
    pub solreflimit: Array<Fix<32>>,
    pub solimplimit: Array<Fix<32>>,
    pub springlength: Fix<32>,
}

impl Walk for RawTendon {
    ghost use Rattle.mj_read.specs.Tables as spec;

    ghost walked = { λ _. spec.tendon };

    fn walk(w: &mut Walker, format: u32, t: &Table) -> RawTendon {
        w.only(
            t,
            &[
                "name",
                "joint",
                "range",
                "margin",
                "stiffness",
                "damping",
                "solreflimit",
                "solimplimit",
                "springlength",
            ],
        );
        let name = w.optional::<TextForm>(t, "name");
        let joint = w.required_tables::<RawTerm>(format, t, "joint");
        let range = w.optional::<Numbers<32, 2, 2>>(t, "range");
        let margin = w.number_or::<32>(t, "margin", 0);
        let stiffness = w.number_or::<32>(t, "stiffness", 0);
        let damping = w.number_or::<32>(t, "damping", 0);
        let solreflimit = w.filled::<32, 1, 2>(t, "solreflimit", &SOLREF);
        let solimplimit = w.filled::<32, 1, 5>(t, "solimplimit", &SOLIMP);
        let springlength = w.number_or::<32>(t, "springlength", 0);
        RawTendon {
            name,
            joint,
            range,
            margin,
            stiffness,
            damping,
            solreflimit,
            solimplimit,
            springlength,
        }
    }
}
