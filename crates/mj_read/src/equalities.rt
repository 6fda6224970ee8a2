// Equalities of joints.
use crate::defaults::{POLYCOEF, SOLIMP, SOLREF};
use fx_list::{Array, Text};
use fx_num::Fix;
use mj_form::{TextForm, Walk, Walker};
use toml::Table;

/// An equality of two joints, or of one joint and a constant.
#[derive(Drop)]
pub struct RawEquality {
    pub name: Option<Text>,
    pub joint1: Text,
    pub joint2: Option<Text>,
    pub polycoef: Array<Fix<32>>,
    pub solref: Array<Fix<32>>,
    pub solimp: Array<Fix<32>>,
}

impl Walk for RawEquality {
    ghost use Rattle.mj_read.specs.Tables as spec;

    ghost walked = { λ _. spec.equality };

    fn walk(w: &mut Walker, _format: u32, t: &Table) -> RawEquality {
        w.only(
            t,
            &["name", "joint1", "joint2", "polycoef", "solref", "solimp"],
        );
        let name = w.optional::<TextForm>(t, "name");
        let joint1 = w.required::<TextForm>(t, "joint1");
        let joint2 = w.optional::<TextForm>(t, "joint2");
        let polycoef = w.filled::<32, 1, 2>(t, "polycoef", &POLYCOEF);
        let solref = w.filled::<32, 1, 2>(t, "solref", &SOLREF);
        let solimp = w.filled::<32, 1, 5>(t, "solimp", &SOLIMP);
        RawEquality {
            name,
            joint1,
            joint2,
            polycoef,
            solref,
            solimp,
        }
    }
}
