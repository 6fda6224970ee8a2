// The option table.
ghost use Rattle.std.specs.Prelude.{◌++◌, codes};
ghost use Rattle.mj_form.specs.Reading as reading;
ghost use Rattle.mj_form.specs.Reading.{Reads};
ghost use Rattle.mj_form.specs.Steps.{Step};
ghost use Rattle.mj_walk.specs.Tables as spec;

use fx_num::{Fix, Plain};
use fx_vec::V3;
use mj_form::{Refusal, Walker, under_key};
use mj_judge::{judge_number, judge_text, judge_vector, judge_whole};
use mj_read::RawOption;
use mj_types::ModelFault;
use std::alloc::Global;

/// The options of a model: the time step, gravity, the solver's iterations and tolerance, and how many
/// rows a step may have.
#[derive(Clone, Copy)]
pub struct Settings {
    pub h: Fix<32>,
    pub gravity: V3<Plain, 32>,
    pub iterations: u32,
    pub tolerance: Fix<32>,
    pub njmax: u32,
}

/// Judges the options.
fn walk_option(w: &mut Walker, o: &RawOption) -> Settings
    ensures { Step w.old.refusal w.new.refusal result (spec.option o.now) }
{
    let h = judge_number(w, "timestep", &o.timestep, &1, &(1 << 32));
    let gravity = judge_vector(w, "gravity", &o.gravity, 1 << 42);
    let iterations = judge_whole(w, "iterations", &o.iterations, 1, 10_000);
    let tolerance = judge_number(w, "tolerance", &o.tolerance, &0, &(1 << 32));
    let njmax = judge_whole(w, "njmax", &o.njmax, 1, 1_024);
    judge_text(w, "integrator", &o.integrator, b"Euler");
    judge_text(w, "cone", &o.cone, b"pyramidal");
    judge_text(w, "solver", &o.solver, b"PGS");
    Settings {
        h,
        gravity,
        iterations,
        tolerance,
        njmax,
    }
}

/// Judges the option table.
pub fn judge_option(alloc: Global, o: &RawOption) -> Result<Settings, Refusal<ModelFault>>
    ensures { Reads result (reading.under (codes "option" ++ codes ".") (spec.option o.now)) }
{
    let mut w = Walker::new(alloc);
    let x = walk_option(&mut w, o);
    under_key(alloc, "option", w.end(x))
}
