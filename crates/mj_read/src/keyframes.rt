// The keyframe.
use fx_list::Array;
use fx_num::Fix;
use mj_form::{AllNumbers, Walk, Walker};
use toml::Table;

/// The start of a run.
#[derive(Drop)]
pub struct RawKeyframe {
    pub qpos: Option<Array<Fix<32>>>,
    pub qvel: Option<Array<Fix<32>>>,
}

impl Walk for RawKeyframe {
    ghost use Rattle.mj_read.specs.Tables as spec;

    ghost walked = { λ _. spec.keyframe };

    fn walk(w: &mut Walker, _format: u32, t: &Table) -> RawKeyframe {
        w.only(t, &["qpos", "qvel"]);
        let qpos = w.optional::<AllNumbers<32>>(t, "qpos");
        let qvel = w.optional::<AllNumbers<32>>(t, "qvel");
        RawKeyframe { qpos, qvel }
    }
}
