// A run: the steps one after another, each told as it is done.
ghost use Rattle.std.specs.Prelude.{◌≡◌, ◌+◌, ◌-◌, ◌*◌, ◌<◌, ◌^◌, true, false, length, take, drop, ℕ, IsTrue, IfOk, IfErr, MatchResult, None};
ghost use Rattle.fx_whole.specs.First.{refusal_of};
ghost use Rattle.mj_io.specs.Sent.{Sent};
ghost use Rattle.mj_passive.specs.Forces.{AreControls};
ghost use Rattle.mj_step.specs.Steps.{step_state};
ghost use Rattle.mj_step.specs.Workspace.{MadeFor};
ghost use Rattle.mj_types.specs.States.{Fits};
ghost use Rattle.mj_run.specs.Controls as spec;
ghost use Rattle.mj_run.specs.Course.{done_blocks, end_of};
ghost use Rattle.mj_run.specs.Run.{start, course, trace_text};
ghost use Rattle.mj_run.specs.Told.{told_fault, told_text};

use crate::telling::send_step;
use fx_list::Array;
use fx_num::{Fix, Number};
use mj_io::{Failed, Page, Sink};
use mj_step::Work;
use mj_trace::{send_end, send_header};
use mj_types::{End, Inverse, Model, NoMemory, OutOfRange, State, Tape, Wants};
use std::alloc::Global;

/// What drives a run: nothing, so that every control is 0, or a tape.
#[derive(Drop)]
pub enum Controls {
    Rest(Array<Fix<32>>),
    Taped(Tape),
}

impl Controls {
    /// Zeros for each motor of a model.
    pub fn rest(alloc: Global, model: &Model) -> Result<Controls, NoMemory>
        ensures serves { IfOk result
            (λ c. (steps : ℕ) → spec.Serves c (length model.now.motors) steps) }
        ensures rest { IfOk result (λ c. spec.tape_of c ≡ None) }
    {
        match Array::filled(alloc, model.motors.len(), Number { mid: 0, rad: () }) {
            Ok(zeros) => Ok(Controls::Rest(zeros)),
            Err(_) => Err(NoMemory),
        }
    }

    /// The controls of the step after `done` others, of a run of `steps` steps of `width` motors.
    pub(crate) fn at(&self, width: usize, steps: u32, done: u32) -> &[Fix<32>]
        requires serves { spec.Serves self.now width steps }
        requires step { done < steps }
        ensures value { result.now ≡ spec.controls_at width (spec.tape_of self.now) done }
    {
        match self {
            Controls::Rest(zeros) => zeros.as_slice(),
            Controls::Taped(tape) => record_of(tape, done as usize),
        }
    }
}

// Record `k` of a tape.
fn record_of(tape: &Tape, k: usize) -> &[Fix<32>]
    requires { k < tape.now.rows }
    ensures { result.now ≡ take tape.now.width (drop (k * tape.now.width) tape.now.values) }
{
    let values = tape.values.as_slice();
    let begin = k * tape.width;
    &values[begin..begin + tape.width]
}

/// A run under way: its workspace, the state that it has come to, and room for the inverse dynamics of
/// its steps. The fields are public so that contracts can name them.
#[derive(Drop)]
pub struct Runner {
    pub work: Work,
    pub state: State,
    pub inverse: Inverse,
}

impl Runner {
    /// The room of a model's runs, at their start.
    pub fn new(alloc: Global, model: &Model) -> Result<Runner, NoMemory>
        ensures made { IfOk result (λ r. MadeFor model.now r.work) }
        ensures fits { IfOk result (λ r. Fits model.now r.state) }
        ensures start { IfOk result (λ r. r.state ≡ start model.now) }
        ensures inverse { IfOk result (λ r. length r.inverse.x ≡ model.now.njmax) }
    {
        let state = State::new(alloc, model)?;
        let inverse = Inverse::new(alloc, model)?;
        Ok(Runner {
            work: Work::new(alloc, model)?,
            state,
            inverse,
        })
    }
}

// The end of a run whose step after `done` others is refused.
pub(crate) fn early_end(done: u32, out: &OutOfRange) -> End
    ensures { result ≡ End.OutOfRange (done + 1) out.now.kind out.now.index }
{
    End::OutOfRange {
        step: done as usize + 1,
        kind: out.kind,
        index: out.index,
    }
}

// The steps of a run and their blocks, to the end or to the first refusal. `Failed` where the writing
// stopped.
fn send_steps<S: Sink>(
    sink: &mut S,
    page: &mut Page,
    model: &Model,
    runner: &mut Runner,
    controls: &Controls,
    steps: u32,
    wants: Wants,
) -> Result<End, Failed>
    requires made { MadeFor model.now runner.old.work }
    requires fits { Fits model.now runner.old.state }
    requires start { runner.old.state ≡ start model.now }
    requires inverse { length runner.old.inverse.x ≡ model.now.njmax }
    requires serves { spec.Serves controls.now (length model.now.motors) steps }
    ensures sent { Sent S.holds S.faults sink.old page.old (done_blocks (course wants
        model.now (spec.controls_at (length model.now.motors) (spec.tape_of controls.now))) steps)
        sink.new page.new }
    ensures end { MatchResult result
        (λ end. end ≡ end_of (course wants model.now
        (spec.controls_at (length model.now.motors) (spec.tape_of controls.now))) steps)
        (λ _. page.new.going ≡ false) }
    ensures goes_on { page.old.going ≡ true → IfOk result (λ _. page.new.going ≡ true) }
{
    for done in 0..steps {
        let row = controls.at(model.motors.len(), steps, done);
        match send_step(sink, page, model, runner, row, done, wants) {
            Ok(()) => {}
            Err(out) => return Ok(early_end(done, &out)),
        }
        if !page.is_going() {
            return Err(Failed);
        }
    }
    Ok(End::Done)
}

/// Runs the model for this many steps from its start and sends the trace: the header, a block for each
/// step that is done, with its dual, a ball around its acceleration and its inverse dynamics where `wants`
/// says so, and the end, which is the answer. Where the inverse dynamics are wanted, the run also ends at
/// a step of which one of their numbers is out of range. `Failed` where the writing stopped; what was
/// sent is a prefix of the trace.
pub fn send_run<S: Sink>(
    sink: &mut S,
    page: &mut Page,
    model: &Model,
    runner: &mut Runner,
    controls: &Controls,
    steps: u32,
    wants: Wants,
) -> Result<End, Failed>
    requires made { MadeFor model.now runner.old.work }
    requires fits { Fits model.now runner.old.state }
    requires start { runner.old.state ≡ start model.now }
    requires inverse { length runner.old.inverse.x ≡ model.now.njmax }
    requires serves { spec.Serves controls.now (length model.now.motors) steps }
    ensures sent { Sent S.holds S.faults sink.old page.old (trace_text wants model.now
        (spec.controls_at (length model.now.motors) (spec.tape_of controls.now)) steps)
        sink.new page.new }
    ensures end { MatchResult result
        (λ end. end ≡ end_of (course wants model.now
        (spec.controls_at (length model.now.motors) (spec.tape_of controls.now))) steps)
        (λ _. page.new.going ≡ false) }
{
    send_header(sink, page, model, steps);
    let end = send_steps(sink, page, model, runner, controls, steps, wants)?;
    send_end(sink, page, &end);
    Ok(end)
}
