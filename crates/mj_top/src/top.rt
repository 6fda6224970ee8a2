// The top call: what a command does, from its words to its answer.
ghost use Rattle.std.specs.Prelude.{◌≡◌, IsTrue, false, None, Some, length, map, string_bytes};
ghost use Rattle.mj_step.specs.Workspace.{MadeFor};
ghost use Rattle.mj_tape.specs.Judging.{tape_verdict};
ghost use Rattle.mj_types.specs.States.{Fits};
ghost use Rattle.mj_run.specs.Controls.{tape_of as taped, Serves};
ghost use Rattle.mj_words.specs.Words as command;
ghost use Rattle.mj_run.specs.Run.{start};
ghost use Rattle.mj_top.specs.Headline.{reads_files, Promise};
ghost use Rattle.mj_top.specs.Outcome as spec;
ghost use Rattle.mj_top.specs.Ends.{Answers, LeavesSink, HasCause, HasLaterCause, TapeRose, AreModel, IsMeant, Ends, EndsOrMemory, IsRun, unless_failed};

use crate::batch::batch;
use crate::bench::bench;
use crate::checking::check_file;
use mj_fan::{Gate, NoGate};
use mj_gen::chain_model;
use mj_io::{Cabinet, CabinetFault, Failed, NoMemory, Page, Sink, finish, send};
use mj_run::{Controls, Runner, send_run, told_forces_are_best};
use mj_step::{solutions_are_in_balls, steps_are_certified, steps_are_covered};
use mj_tape::tape;
use mj_trace::{send_model_refusal, send_tape_refusal, send_words_refusal};
use mj_types::{End, Model, ModelCode, ModelFault, Status, TapeFault, Wants};
use mj_valid::judge;
use mj_words::{
    Command, bad_place, bench_link_count, bench_step_count, command_of, link_count, model_of,
    seed_of, step_count, tape_of, wants_ball, wants_dual, wants_inverse,
};
use std::alloc::Global;
use std::thread::Threads;

/// A model's file is read with one byte more than its limit.
pub(crate) const MODEL_CAP: usize = 1_048_577;

/// A tape's file is read with one byte more than its limit.
pub(crate) const TAPE_CAP: usize = 67_108_865;

/// How many values the tapes of a command may hold together.
pub(crate) const TAPE_ROOM: usize = 4_000_000;

// The status, unless the writing failed.
pub(crate) fn answered(written: Result<(), Failed>, status: Status) -> Status
    ensures { result ≡ unless_failed written status }
{
    match written {
        Ok(()) => status,
        Err(Failed) => Status::WriteFault,
    }
}

// The answer to a run's end.
pub(crate) fn status_of(end: End) -> Status
    ensures { result ≡ spec.status_of end }
{
    match end {
        End::Done => Status::Done,
        End::OutOfRange { step, kind, index } => Status::OutOfRange { step, kind, index },
    }
}

// Refused words. Takes no memory.
fn refuse_words<S: Sink>(sink: &mut S, at: usize) -> Status
    ensures { Ends S.holds S.faults (spec.words_refused at) sink.old result sink.new }
{
    let mut page = Page::new();
    send_words_refusal(sink, &mut page, at);
    let written = finish(sink, &mut page);
    answered(written, Status::BadWords { at })
}

// A refused model.
pub(crate) fn refuse_model<S: Sink>(sink: &mut S, fault: ModelFault) -> Status
    ensures { Ends S.holds S.faults (spec.model_refused fault) sink.old result sink.new }
{
    let mut page = Page::new();
    send_model_refusal(sink, &mut page, &fault);
    let written = finish(sink, &mut page);
    answered(written, Status::BadModel(fault))
}

// A refused tape, by its number.
pub(crate) fn refuse_tape<S: Sink>(sink: &mut S, number: usize, fault: TapeFault) -> Status
    ensures { Ends S.holds S.faults (spec.tape_refused number fault) sink.old result sink.new }
{
    let mut page = Page::new();
    send_tape_refusal(sink, &mut page, number, fault);
    let written = finish(sink, &mut page);
    answered(
        written,
        Status::BadTape {
            tape: number,
            fault,
        },
    )
}

// A run in the room that was made for it.
fn run_on<S: Sink>(
    sink: &mut S,
    model: &Model,
    runner: &mut Runner,
    controls: &Controls,
    steps: u32,
    wants: Wants,
) -> Status
    requires made { MadeFor model.now runner.old.work }
    requires fits { Fits model.now runner.old.state }
    requires start { runner.old.state ≡ start model.now }
    requires inverse { length runner.old.inverse.x ≡ model.now.njmax }
    requires serves { Serves controls.now (length model.now.motors) steps }
    ensures { Ends S.holds S.faults (spec.ran wants steps model.now (taped controls.now))
        sink.old result sink.new }
{
    let mut page = Page::new();
    match send_run(sink, &mut page, model, runner, controls, steps, wants) {
        Ok(end) => {
            let written = finish(sink, &mut page);
            answered(written, status_of(end))
        }
        Err(Failed) => Status::WriteFault,
    }
}

// A run of an accepted model.
fn run_model<S: Sink>(
    alloc: Global,
    sink: &mut S,
    model: &Model,
    controls: &Controls,
    steps: u32,
    wants: Wants,
) -> Status
    requires { Serves controls.now (length model.now.motors) steps }
    ensures { EndsOrMemory S.holds S.faults (spec.ran wants steps model.now (taped controls.now))
        sink.old result sink.new }
{
    match Runner::new(alloc, model) {
        Ok(runner) => {
            let mut runner = runner;
            let status = run_on(sink, model, &mut runner, controls, steps, wants);
            drop(runner);
            status
        }
        Err(NoMemory) => Status::Memory,
    }
}

// A run without a tape.
fn run_at_rest<S: Sink>(
    alloc: Global,
    sink: &mut S,
    model: &Model,
    steps: u32,
    wants: Wants,
) -> Status
    ensures { EndsOrMemory S.holds S.faults (spec.ran wants steps model.now None)
        sink.old result sink.new }
{
    match Controls::rest(alloc, model) {
        Ok(controls) => run_model(alloc, sink, model, &controls, steps, wants),
        Err(NoMemory) => Status::Memory,
    }
}

// A tape's file that was read.
fn run_tape_file<S: Sink>(
    alloc: Global,
    sink: &mut S,
    model: &Model,
    bytes: &[u8],
    steps: u32,
    wants: Wants,
) -> Status
    ensures { EndsOrMemory S.holds S.faults
        (spec.with_tape wants steps model.now
        (tape_verdict
        (length model.now.motors) steps spec.tape_room bytes.now)) sink.old result sink.new }
{
    match tape(alloc, model, bytes, steps, TAPE_ROOM) {
        Ok(tape) => run_model(alloc, sink, model, &Controls::Taped(tape), steps, wants),
        Err(fault) => match fault {
            TapeFault::Memory => Status::Memory,
            _ => refuse_tape(sink, 1, fault),
        },
    }
}

// What the words ask for beside the blocks of a run.
fn wants_of(words: &[String]) -> Wants
    ensures { result ≡ spec.wants_of (map string_bytes words.now) }
{
    Wants {
        dual: wants_dual(words),
        ball: wants_ball(words),
        inverse: wants_inverse(words),
    }
}

// A model that runs, with the tape where one is named.
fn run_with_tape<C: Cabinet, S: Sink>(
    alloc: Global,
    words: &[String],
    model: &Model,
    cabinet: &mut C,
    sink: &mut S,
) -> Status
    ensures outcome { IsTrue (C.tells cabinet.old) →
        Answers (λ o. spec.with_tape_name (C.holds cabinet.old)
        (spec.wants_of (map string_bytes words.now))
        (command.step_count (map string_bytes words.now)) model.now
        (command.tape_of (map string_bytes words.now)) ≡ Some o) result (S.holds sink.old)
        (S.holds sink.new) }
    ensures nothing { LeavesSink S.faults result sink.old sink.new }
    ensures cause { HasLaterCause (TapeRose (command.tape_of (map string_bytes words.now))
        (C.faults cabinet.old) (C.faults cabinet.new)) result (S.faults sink.old)
        (S.faults sink.new) }
{
    let steps = step_count(words);
    let wants = wants_of(words);
    match tape_of(words) {
        None => run_at_rest(alloc, sink, model, steps, wants),
        Some(name) => match cabinet.read(alloc, name, TAPE_CAP) {
            Ok(bytes) => run_tape_file(alloc, sink, model, bytes.as_slice(), steps, wants),
            Err(CabinetFault::Failed) => Status::ReadFault,
            Err(CabinetFault::Memory) => Status::Memory,
        },
    }
}

// A model's file that was read.
fn run_model_file<C: Cabinet, S: Sink>(
    alloc: Global,
    words: &[String],
    bytes: &[u8],
    cabinet: &mut C,
    sink: &mut S,
) -> Status
    ensures outcome { IsTrue (C.tells cabinet.old) →
        Answers (spec.IsFileOutcome (C.holds cabinet.old)
        (spec.wants_of (map string_bytes words.now))
        (command.step_count (map string_bytes words.now))
        (command.tape_of (map string_bytes words.now)) bytes.now) result
        (S.holds sink.old) (S.holds sink.new) }
    ensures nothing { LeavesSink S.faults result sink.old sink.new }
    ensures cause { HasLaterCause (TapeRose (command.tape_of (map string_bytes words.now))
        (C.faults cabinet.old) (C.faults cabinet.new)) result (S.faults sink.old)
        (S.faults sink.new) }
    ensures accepted { result ≡ Status.ReadFault → AreModel bytes.now }
{
    match judge(alloc, bytes) {
        Ok(model) => {
            let status = run_with_tape(alloc, words, &model, cabinet, sink);
            drop(model);
            status
        }
        Err(fault) => match fault.code {
            ModelCode::Memory => Status::Memory,
            _ => refuse_model(sink, fault),
        },
    }
}

// A text that ends well.
fn write_whole<S: Sink>(sink: &mut S, text: &[u8]) -> Status
    ensures { Ends S.holds S.faults (spec.written text.now) sink.old result sink.new }
{
    let mut page = Page::new();
    send(sink, &mut page, text);
    let written = finish(sink, &mut page);
    answered(written, Status::Done)
}

// A generated model.
fn generate<S: Sink>(alloc: Global, sink: &mut S, seed: u32, links: u32) -> Status
    ensures { EndsOrMemory S.holds S.faults (spec.generated seed links) sink.old result sink.new }
{
    match chain_model(alloc, seed, links) {
        Ok(text) => write_whole(sink, text.as_slice()),
        Err(NoMemory) => Status::Memory,
    }
}

// A run, or the inverse dynamics of one: the model's file is read.
fn run_files<C: Cabinet, S: Sink>(
    alloc: Global,
    words: &[String],
    cabinet: &mut C,
    sink: &mut S,
) -> Status
    requires good { command.bad_place (map string_bytes words.now) ≡ None }
    requires run { IsRun (command.command_of (map string_bytes words.now)) }
    ensures outcome { IsTrue (C.tells cabinet.old) →
        Answers (spec.IsOutcome (map string_bytes words.now) (C.holds cabinet.old)) result
        (S.holds sink.old) (S.holds sink.new) }
    ensures nothing { LeavesSink S.faults result sink.old sink.new }
    ensures cause { HasCause (map string_bytes words.now) (C.tells cabinet.old)
        (C.holds cabinet.old) result (C.faults cabinet.old) (C.faults cabinet.new)
        (S.faults sink.old) (S.faults sink.new) }
{
    match cabinet.read(alloc, model_of(words), MODEL_CAP) {
        Ok(bytes) => run_model_file(alloc, words, bytes.as_slice(), cabinet, sink),
        Err(CabinetFault::Failed) => Status::ReadFault,
        Err(CabinetFault::Memory) => Status::Memory,
    }
}

// Words that are accepted.
fn run_accepted<R: Threads + Sync, C: Cabinet, S: Sink, G: Gate>(
    rt: &R,
    alloc: Global,
    words: &[String],
    cabinet: &mut C,
    sink: &mut S,
    gate: &G,
) -> Status
    requires { command.bad_place (map string_bytes words.now) ≡ None }
    ensures outcome { (IsTrue (reads_files (command.command_of (map string_bytes words.now)))
        → IsTrue (C.tells cabinet.old)) →
        Answers (spec.IsOutcome (map string_bytes words.now) (C.holds cabinet.old)) result
        (S.holds sink.old) (S.holds sink.new) }
    ensures nothing { LeavesSink S.faults result sink.old sink.new }
    ensures cause { HasCause (map string_bytes words.now) (C.tells cabinet.old)
        (C.holds cabinet.old) result (C.faults cabinet.old) (C.faults cabinet.new)
        (S.faults sink.old) (S.faults sink.new) }
    ensures unread { reads_files (command.command_of (map string_bytes words.now)) ≡ false →
        cabinet.new ≡ cabinet.old }
{
    match command_of(words) {
        Command::Run => run_files(alloc, words, cabinet, sink),
        Command::Inverse => run_files(alloc, words, cabinet, sink),
        Command::Gen => generate(alloc, sink, seed_of(words), link_count(words)),
        Command::Bench => bench(
            alloc,
            sink,
            seed_of(words),
            bench_link_count(words),
            bench_step_count(words),
        ),
        Command::Batch => batch(rt, alloc, words, cabinet, sink, gate),
        Command::Check => check_file(alloc, words, cabinet, sink),
    }
}

/// Does what the words' command does, and writes its text, or the one line of a refusal, to the sink:
/// `run` reads a model from the cabinet, runs it and writes the trace, and `inverse` does so with the forces of
/// each step's rows one by one; `gen` writes a generated model;
/// `bench` runs one with a generated tape and writes the summary; `batch` runs a model with each of
/// several tapes by as many threads as the words let work, and writes their summaries; `check` judges a
/// dump without a model, and writes one line of what it found. In a batch the
/// gate is called ahead of each tape's run with the tape's number, in the thread that runs it.
///
/// All that is promised is one record, `Promise` (specs/Headline). `headline`: where the cabinet tells and
/// the words are accepted, an answer of `Done`, `OutOfRange` or `Rejected` means of a run that there are one model, which its
/// file's bytes are judged to be, and its tapes, that the sink gained the text of their run, and that in each
/// step that has a block the forces are feasible, bound and box hold, radii and residual cover what
/// rounding did, a ball holds each rational solution of the equation of motion, and each force by itself is
/// within one unit of its row's optimum; and of a check that the line is the verdict of the file's bytes, and that
/// in each block of an accepted one the forces are feasible and bound and box hold. `ends`: where all input is accepted the answer is such an end, unless a count of faults
/// rose or memory was wanted. `outcome`: the answer and what the sink gains are those of the outcome, but for
/// `ReadFault`, `WriteFault` and `Memory`. `complete`: where no count rose, the answer is the outcome's, or
/// `Memory`. `cause`: when each answer may come. `nothing`: after `ReadFault` and `Memory` the sink was not
/// touched, and but for `WriteFault` its count of faults is as it was. `unread`: where no file is read, the
/// cabinet was not touched. `certified`, `covered`, `enclosed` and `best` hold for all models, controls and
/// steps, whatever the cabinet tells.
pub fn run_gated<R: Threads + Sync, C: Cabinet, S: Sink, G: Gate>(
    rt: &R,
    alloc: Global,
    words: &[String],
    cabinet: &mut C,
    sink: &mut S,
    gate: &G,
) -> Status
    ensures { Promise C.tells C.holds C.faults S.holds S.faults (map string_bytes words.now)
        cabinet.old cabinet.new sink.old sink.new result }
{
    steps_are_covered();
    steps_are_certified();
    solutions_are_in_balls();
    told_forces_are_best();
    match bad_place(words) {
        Some(at) => refuse_words(sink, at),
        None => run_accepted(rt, alloc, words, cabinet, sink, gate),
    }
}

/// The same with a gate that does nothing: what the program does.
pub fn run_words<R: Threads + Sync, C: Cabinet, S: Sink>(
    rt: &R,
    alloc: Global,
    words: &[String],
    cabinet: &mut C,
    sink: &mut S,
) -> Status
    ensures { Promise C.tells C.holds C.faults S.holds S.faults (map string_bytes words.now)
        cabinet.old cabinet.new sink.old sink.new result }
{
    run_gated(rt, alloc, words, cabinet, sink, &NoGate)
}
