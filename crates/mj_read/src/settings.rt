// The option table.
use crate::defaults::{GRAVITY, TIMESTEP, TOLERANCE};
use fx_list::{Array, Text};
use fx_num::Fix;
use mj_form::{Walk, Walker};
use toml::Table;

/// The option table.
#[derive(Drop)]
pub struct RawOption {
    pub timestep: Fix<32>,
    pub gravity: Array<Fix<32>>,
    pub iterations: i64,
    pub tolerance: Fix<32>,
    pub njmax: i64,
    pub integrator: Text,
    pub cone: Text,
    pub solver: Text,
}

impl Walk for RawOption {
    ghost use Rattle.mj_read.specs.Tables as spec;

    ghost walked = { λ _. spec.option };

    fn walk(w: &mut Walker, _format: u32, t: &Table) -> RawOption {
        w.only(
            t,
            &[
                "timestep",
                "gravity",
                "iterations",
                "tolerance",
                "njmax",
                "integrator",
                "cone",
                "solver",
            ],
        );
        let timestep = w.number_or::<32>(t, "timestep", TIMESTEP);
        let gravity = w.numbers_or::<32, 3, 3>(t, "gravity", &GRAVITY);
        let iterations = w.whole_or(t, "iterations", 100);
        let tolerance = w.number_or::<32>(t, "tolerance", TOLERANCE);
        let njmax = w.whole_or(t, "njmax", 512);
        let integrator = w.text_or(t, "integrator", "Euler");
        let cone = w.text_or(t, "cone", "pyramidal");
        let solver = w.text_or(t, "solver", "PGS");
        RawOption {
            timestep,
            gravity,
            iterations,
            tolerance,
            njmax,
            integrator,
            cone,
            solver,
        }
    }
}
