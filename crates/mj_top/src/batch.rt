// A batch: a model runs with each of several tapes, and their steps are summed.
ghost use Rattle.std.specs.Prelude.{◌≡◌, ◌+◌, ◌<◌, ◌≤◌, ℕ, Bool, List, [], Option, None, IsTrue, map, length, string_bytes};
ghost use Rattle.mj_run.specs.Batch.{AreJobsOf};
ghost use Rattle.mj_tape.specs.Judging.{TapeValues};
ghost use Rattle.mj_types.specs.declared.model.Model.{Model};
ghost use Rattle.mj_words.specs.Words as command;
ghost use Rattle.mj_top.specs.Ends.{Answers, LeavesSink, HasCause, HasLaterCause, NthTapeRose, AcceptsTapes, AcceptsTapesOf, Ends};
ghost use Rattle.mj_top.specs.Outcome as spec;
ghost use Rattle.mj_top.specs.Taking.{ReadsOn, TakesBytes, TakesFile, HasTaken, TakesNext, TakesAll, EndsStopped};

use crate::top::{MODEL_CAP, TAPE_CAP, TAPE_ROOM, answered, refuse_model, refuse_tape, status_of};
use mj_fan::Gate;
use mj_io::{Cabinet, CabinetFault, NoMemory, Page, Sink, finish};
use mj_run::{RunJob, add_job, run_batch};
use mj_tape::tape;
use mj_types::{Model, ModelCode, Status, TapeFault};
use mj_valid::judge;
use mj_words::{Command, model_of, step_count, tape_count, tape_name, worker_count};
use std::alloc::Global;
use std::thread::Threads;

/// Why no tape more is taken: a read failed, memory was wanted, or a tape is refused.
#[derive(Clone, Copy)]
pub enum Stopped {
    ReadFault,
    Memory,
    Refused { tape: usize, fault: TapeFault },
}

// Judges a tape's bytes and adds its job; the answer is how many values more the tapes after it may
// hold.
fn add_tape_bytes<'m>(
    alloc: Global,
    model: &'m Model,
    bytes: &[u8],
    steps: u32,
    room: usize,
    jobs: &mut Vec<RunJob<'m>>,
) -> Result<usize, TapeFault>
    requires few { length jobs.old.items ≤ 64 }
    ensures { TakesBytes model.now steps room bytes.now jobs.old.items jobs.new.items result }
{
    match tape(alloc, model, bytes, steps, room) {
        Ok(tape) => {
            let left = room.saturating_sub(tape.values.len());
            match add_job(alloc, model, jobs, tape, steps) {
                Ok(()) => Ok(left),
                Err(NoMemory) => Err(TapeFault::Memory),
            }
        }
        Err(fault) => Err(fault),
    }
}

// A tape's file that was read, of the tape after `k` others.
fn add_tape_file<'m>(
    alloc: Global,
    words: &[String],
    k: usize,
    model: &'m Model,
    bytes: &[u8],
    room: usize,
    jobs: &mut Vec<RunJob<'m>>,
) -> Result<usize, Stopped>
    requires few { length jobs.old.items ≤ 64 }
    requires place { k < 64 }
    ensures { TakesFile model.now (command.step_count (map string_bytes words.now)) room k
        bytes.now jobs.old.items jobs.new.items result }
{
    match add_tape_bytes(alloc, model, bytes, step_count(words), room, jobs) {
        Ok(left) => Ok(left),
        Err(fault) => match fault {
            TapeFault::Memory => Err(Stopped::Memory),
            _ => Err(Stopped::Refused { tape: k + 1, fault }),
        },
    }
}

// Reads and judges the tape after `k` others, and adds its job.
fn add_tape<'m, C: Cabinet>(
    alloc: Global,
    words: &[String],
    k: usize,
    model: &'m Model,
    cabinet: &mut C,
    room: usize,
    jobs: &mut Vec<RunJob<'m>>,
) -> Result<usize, Stopped>
    requires named { k < command.tape_count (map string_bytes words.now) }
    requires place { k < 64 }
    requires few { length jobs.old.items ≤ 64 }
    ensures reads { ReadsOn (C.tells cabinet.old) (C.tells cabinet.new) (C.holds cabinet.old)
        (C.holds cabinet.new) (C.faults cabinet.old) (C.faults cabinet.new) }
    ensures next { (tells : Bool) (held : List ℕ → Option (List ℕ)) (reads : List ℕ → ℕ)
        → ReadsOn tells (C.tells cabinet.old) held (C.holds cabinet.old) reads
        (C.faults cabinet.old)
        → HasTaken (map string_bytes words.now) tells held model.now k room jobs.old.items
        → TakesNext (map string_bytes words.now) tells held model.now k jobs.new.items reads
        (C.faults cabinet.new) result }
{
    match cabinet.read(alloc, tape_name(words, k), TAPE_CAP) {
        Ok(bytes) => add_tape_file(alloc, words, k, model, bytes.as_slice(), room, jobs),
        Err(CabinetFault::Failed) => Err(Stopped::ReadFault),
        Err(CabinetFault::Memory) => Err(Stopped::Memory),
    }
}

// Reads and judges the tapes in their order, and makes a job for each.
fn add_tapes<'m, C: Cabinet>(
    alloc: Global,
    words: &[String],
    model: &'m Model,
    cabinet: &mut C,
    jobs: &mut Vec<RunJob<'m>>,
) -> Result<(), Stopped>
    requires good { command.bad_place (map string_bytes words.now) ≡ None }
    requires batch { command.command_of (map string_bytes words.now) ≡ Command.Batch }
    requires empty { jobs.old.items ≡ [] }
    ensures { TakesAll (map string_bytes words.now) (C.tells cabinet.old) (C.holds cabinet.old)
        model.now jobs.new.items (C.faults cabinet.old) (C.faults cabinet.new) result }
{
    let mut room = TAPE_ROOM;
    for k in 0..tape_count(words) {
        match add_tape(alloc, words, k, model, cabinet, room, jobs) {
            Ok(left) => room = left,
            Err(why) => return Err(why),
        }
    }
    Ok(())
}

// Runs the jobs, and then writes what they have come to.
fn run_jobs<'m, R: Threads + Sync, S: Sink, G: Gate>(
    rt: &R,
    sink: &mut S,
    jobs: &mut [RunJob<'m>],
    workers: usize,
    gate: &G,
) -> Status
    requires { 1 ≤ workers }
    ensures { (m : Model) (n : ℕ) (tapes : List TapeValues) → AreJobsOf m n tapes jobs.old
        → Ends S.holds S.faults (spec.batched n m tapes) sink.old result sink.new }
{
    let mut page = Page::new();
    let end = run_batch(rt, sink, &mut page, jobs, workers, gate);
    let written = finish(sink, &mut page);
    answered(written, status_of(end))
}

// The answer where no tape more is taken.
fn stop<S: Sink>(sink: &mut S, why: Stopped) -> Status
    ensures { EndsStopped S.holds S.faults why sink.old result sink.new }
{
    match why {
        Stopped::ReadFault => Status::ReadFault,
        Stopped::Memory => Status::Memory,
        Stopped::Refused { tape, fault } => refuse_tape(sink, tape, fault),
    }
}

// An accepted model: its tapes are judged, then all run, and then what they come to is written.
fn batch_model<R: Threads + Sync, C: Cabinet, S: Sink, G: Gate>(
    rt: &R,
    alloc: Global,
    words: &[String],
    model: &Model,
    cabinet: &mut C,
    sink: &mut S,
    gate: &G,
) -> Status
    requires good { command.bad_place (map string_bytes words.now) ≡ None }
    requires batch { command.command_of (map string_bytes words.now) ≡ Command.Batch }
    ensures outcome { IsTrue (C.tells cabinet.old) →
        Answers (spec.IsTapesOutcome (C.holds cabinet.old) (map string_bytes words.now) model.now)
        result (S.holds sink.old) (S.holds sink.new) }
    ensures nothing { LeavesSink S.faults result sink.old sink.new }
    ensures cause { HasLaterCause (NthTapeRose (map string_bytes words.now)
        (C.tells cabinet.old)
        (AcceptsTapes (map string_bytes words.now) (C.holds cabinet.old) model.now)
        (C.faults cabinet.old) (C.faults cabinet.new)) result (S.faults sink.old)
        (S.faults sink.new) }
{
    let mut jobs = Vec::new(alloc);
    match add_tapes(alloc, words, model, cabinet, &mut jobs) {
        Ok(()) => {
            let workers = worker_count(words);
            let status = run_jobs(rt, sink, jobs.as_mut_slice(), workers, gate);
            drop(jobs);
            status
        }
        Err(why) => {
            drop(jobs);
            stop(sink, why)
        }
    }
}

// A model's file that was read.
fn batch_file<R: Threads + Sync, C: Cabinet, S: Sink, G: Gate>(
    rt: &R,
    alloc: Global,
    words: &[String],
    bytes: &[u8],
    cabinet: &mut C,
    sink: &mut S,
    gate: &G,
) -> Status
    requires good { command.bad_place (map string_bytes words.now) ≡ None }
    requires batch { command.command_of (map string_bytes words.now) ≡ Command.Batch }
    ensures outcome { IsTrue (C.tells cabinet.old) →
        Answers (spec.IsBatchFileOutcome (C.holds cabinet.old) (map string_bytes words.now)
        bytes.now) result (S.holds sink.old) (S.holds sink.new) }
    ensures nothing { LeavesSink S.faults result sink.old sink.new }
    ensures cause { HasLaterCause (NthTapeRose (map string_bytes words.now)
        (C.tells cabinet.old)
        (AcceptsTapesOf (map string_bytes words.now) (C.holds cabinet.old) bytes.now)
        (C.faults cabinet.old) (C.faults cabinet.new)) result (S.faults sink.old)
        (S.faults sink.new) }
{
    match judge(alloc, bytes) {
        Ok(model) => {
            let status = batch_model(rt, alloc, words, &model, cabinet, sink, gate);
            drop(model);
            status
        }
        Err(fault) => match fault.code {
            ModelCode::Memory => Status::Memory,
            _ => refuse_model(sink, fault),
        },
    }
}

/// Reads and judges the model and each tape in its order, makes all memory of the runs, runs the model
/// with each tape by as many threads as the words let work, and writes each run's summary in the order
/// of the tapes.
pub(crate) fn batch<R: Threads + Sync, C: Cabinet, S: Sink, G: Gate>(
    rt: &R,
    alloc: Global,
    words: &[String],
    cabinet: &mut C,
    sink: &mut S,
    gate: &G,
) -> Status
    requires good { command.bad_place (map string_bytes words.now) ≡ None }
    requires batch { command.command_of (map string_bytes words.now) ≡ Command.Batch }
    ensures outcome { IsTrue (C.tells cabinet.old) →
        Answers (spec.IsOutcome (map string_bytes words.now) (C.holds cabinet.old)) result
        (S.holds sink.old) (S.holds sink.new) }
    ensures nothing { LeavesSink S.faults result sink.old sink.new }
    ensures cause { HasCause (map string_bytes words.now) (C.tells cabinet.old)
        (C.holds cabinet.old) result (C.faults cabinet.old) (C.faults cabinet.new)
        (S.faults sink.old) (S.faults sink.new) }
{
    match cabinet.read(alloc, model_of(words), MODEL_CAP) {
        Ok(bytes) => batch_file(rt, alloc, words, bytes.as_slice(), cabinet, sink, gate),
        Err(CabinetFault::Failed) => Status::ReadFault,
        Err(CabinetFault::Memory) => Status::Memory,
    }
}
