// A bench: a generated model runs with a generated tape, and its steps are summed.
ghost use Rattle.std.specs.Prelude.{◌≡◌, ◌≤◌, length};
ghost use Rattle.mj_gen.specs.Chain.{chain_text};
ghost use Rattle.mj_run.specs.Controls.{tape_of as taped, Serves};
ghost use Rattle.mj_run.specs.Run.{start};
ghost use Rattle.mj_step.specs.Workspace.{MadeFor};
ghost use Rattle.mj_tape.specs.Judging.{tape_verdict};
ghost use Rattle.mj_top.specs.Ends.{Ends, EndsMeant, EndsOrMemory};
ghost use Rattle.mj_top.specs.Outcome as spec;
ghost use Rattle.mj_types.specs.States.{Fits};

use crate::top::{TAPE_ROOM, answered, refuse_model, refuse_tape, status_of};
use mj_gen::{chain_model, sine_tape};
use mj_io::{NoMemory, Page, Sink, finish};
use mj_run::{Controls, Runner, sum_run};
use mj_tape::tape;
use mj_trace::send_summary;
use mj_types::{Model, ModelCode, Status, TapeFault};
use mj_valid::judge;
use std::alloc::Global;

// A summed run in the room that was made for it.
fn sum_on<S: Sink>(
    sink: &mut S,
    model: &Model,
    runner: &mut Runner,
    controls: &Controls,
    steps: u32,
) -> Status
    requires made { MadeFor model.now runner.old.work }
    requires fits { Fits model.now runner.old.state }
    requires start { runner.old.state ≡ start model.now }
    requires serves { Serves controls.now (length model.now.motors) steps }
    ensures { Ends S.holds S.faults (spec.summed steps model.now (taped controls.now))
        sink.old result sink.new }
{
    let sum = sum_run(model, runner, controls, steps);
    let mut page = Page::new();
    send_summary(sink, &mut page, &sum, &runner.state);
    let written = finish(sink, &mut page);
    answered(written, status_of(sum.end))
}

// A summed run of an accepted model.
fn sum_model<S: Sink>(
    alloc: Global,
    sink: &mut S,
    model: &Model,
    controls: &Controls,
    steps: u32,
) -> Status
    requires { Serves controls.now (length model.now.motors) steps }
    ensures { EndsOrMemory S.holds S.faults (spec.summed steps model.now (taped controls.now))
        sink.old result sink.new }
{
    match Runner::new(alloc, model) {
        Ok(runner) => {
            let mut runner = runner;
            let status = sum_on(sink, model, &mut runner, controls, steps);
            drop(runner);
            status
        }
        Err(NoMemory) => Status::Memory,
    }
}

// A generated tape.
fn sum_tape_text<S: Sink>(
    alloc: Global,
    sink: &mut S,
    model: &Model,
    bytes: &[u8],
    steps: u32,
) -> Status
    ensures { EndsOrMemory S.holds S.faults
        (spec.with_summed_tape steps model.now
        (tape_verdict
        (length model.now.motors) steps spec.tape_room bytes.now)) sink.old result sink.new }
{
    match tape(alloc, model, bytes, steps, TAPE_ROOM) {
        Ok(tape) => sum_model(alloc, sink, model, &Controls::Taped(tape), steps),
        Err(fault) => match fault {
            TapeFault::Memory => Status::Memory,
            _ => refuse_tape(sink, 1, fault),
        },
    }
}

// An accepted model.
fn bench_model<S: Sink>(
    alloc: Global,
    sink: &mut S,
    model: &Model,
    seed: u32,
    links: u32,
    steps: u32,
) -> Status
    requires steps { steps ≤ 10000 }
    requires links { links ≤ 64 }
    ensures { EndsOrMemory S.holds S.faults (spec.benched seed links steps model.now)
        sink.old result sink.new }
{
    match sine_tape(alloc, seed, steps, links) {
        Ok(text) => sum_tape_text(alloc, sink, model, text.as_slice(), steps),
        Err(NoMemory) => Status::Memory,
    }
}

// A generated model, which is judged as a file is.
fn bench_text<S: Sink>(
    alloc: Global,
    sink: &mut S,
    bytes: &[u8],
    seed: u32,
    links: u32,
    steps: u32,
) -> Status
    requires text { bytes.now ≡ chain_text seed links }
    requires steps { steps ≤ 10000 }
    requires links { links ≤ 64 }
    ensures { EndsMeant S.holds S.faults (spec.IsBenchOutcome seed links steps)
        sink.old result sink.new }
{
    match judge(alloc, bytes) {
        Ok(model) => {
            let status = bench_model(alloc, sink, &model, seed, links, steps);
            drop(model);
            status
        }
        Err(fault) => match fault.code {
            ModelCode::Memory => Status::Memory,
            _ => refuse_model(sink, fault),
        },
    }
}

/// Generates a model of so many links, runs it for so many steps with the generated tape, and writes
/// what the steps come to.
pub(crate) fn bench<S: Sink>(
    alloc: Global,
    sink: &mut S,
    seed: u32,
    links: u32,
    steps: u32,
) -> Status
    requires steps { steps ≤ 10000 }
    requires links { links ≤ 64 }
    ensures { EndsMeant S.holds S.faults (spec.IsBenchOutcome seed links steps)
        sink.old result sink.new }
{
    match chain_model(alloc, seed, links) {
        Ok(text) => bench_text(alloc, sink, text.as_slice(), seed, links, steps),
        Err(NoMemory) => Status::Memory,
    }
}
