// Motors.
ghost use Rattle.std.specs.Prelude.{◌≡◌};
ghost use Rattle.toml.specs.View.{table_view};
ghost use Rattle.mj_read.specs.Tables as spec;

use crate::defaults::ONE;
use fx_list::{Array, Text};
use fx_num::Fix;
use mj_form::{Numbers, TextForm, Walk, Walker, has_key};
use toml::Table;

/// A motor on a joint or a tendon.
#[derive(Drop)]
pub struct RawMotor {
    pub name: Option<Text>,
    pub joint: Option<Text>,
    pub tendon: Option<Text>,
    pub gear: Fix<32>,
    pub ctrlrange: Option<Array<Fix<32>>>,
}

impl Walk for RawMotor {
    ghost use Rattle.mj_read.specs.Tables as spec;

    ghost walked = { λ _. spec.motor };

    fn walk(w: &mut Walker, _format: u32, t: &Table) -> RawMotor {
        w.only(t, &["name", "joint", "tendon", "gear", "ctrlrange"]);
        let name = w.optional::<TextForm>(t, "name");
        w.must("joint", names_drive(t));
        let joint = w.optional::<TextForm>(t, "joint");
        let tendon = w.optional::<TextForm>(t, "tendon");
        let gear = w.number_or::<32>(t, "gear", ONE);
        let ctrlrange = w.optional::<Numbers<32, 2, 2>>(t, "ctrlrange");
        RawMotor {
            name,
            joint,
            tendon,
            gear,
            ctrlrange,
        }
    }
}

/// Whether the table names a joint or a tendon.
fn names_drive(t: &Table) -> bool
    ensures { result ≡ spec.names_drive (table_view t.now) }
{
    has_key(t, "joint") || has_key(t, "tendon")
}
