// A dump is checked: judged without a model, line by line and block by block.
ghost use Rattle.std.specs.Prelude.{◌≡◌, IsTrue, None, map, string_bytes};
ghost use Rattle.mj_words.specs.Words as command;
ghost use Rattle.mj_top.specs.Ends.{Answers, LeavesSink, HasCause, Ends, EndsMeant};
ghost use Rattle.mj_top.specs.Outcome as spec;

use crate::top::answered;
use mj_check::check;
use mj_io::{Cabinet, CabinetFault, NoMemory, Sink};
use mj_trace::{accepted, rejected};
use mj_types::{Status, Verdict};
use mj_words::{Command, dump_of};
use std::alloc::Global;

/// A dump's file is read with one byte more than its limit.
pub(crate) const DUMP_CAP: usize = 67_108_865;

// What was found of a dump.
fn tell<S: Sink>(sink: &mut S, verdict: Verdict) -> Status
    ensures { Ends S.holds S.faults (spec.judged_as verdict) sink.old result sink.new }
{
    match verdict {
        Verdict::Accepted { blocks } => {
            let written = accepted(sink, blocks);
            answered(written, Status::Done)
        }
        Verdict::Rejected { line, reason } => {
            let written = rejected(sink, line, reason);
            answered(written, Status::Rejected { line, reason })
        }
    }
}

// A dump's file that was read.
fn check_dump<S: Sink>(alloc: Global, sink: &mut S, bytes: &[u8]) -> Status
    ensures { EndsMeant S.holds S.faults (spec.IsDumpOutcome bytes.now) sink.old result sink.new }
{
    match check(alloc, bytes) {
        Ok(verdict) => tell(sink, verdict),
        Err(NoMemory) => Status::Memory,
    }
}

/// Reads the dump, judges it, and writes the one line of the verdict.
pub(crate) fn check_file<C: Cabinet, S: Sink>(
    alloc: Global,
    words: &[String],
    cabinet: &mut C,
    sink: &mut S,
) -> Status
    requires good { command.bad_place (map string_bytes words.now) ≡ None }
    requires check { command.command_of (map string_bytes words.now) ≡ Command.Check }
    ensures outcome { IsTrue (C.tells cabinet.old) →
        Answers (spec.IsOutcome (map string_bytes words.now) (C.holds cabinet.old)) result
        (S.holds sink.old) (S.holds sink.new) }
    ensures nothing { LeavesSink S.faults result sink.old sink.new }
    ensures cause { HasCause (map string_bytes words.now) (C.tells cabinet.old)
        (C.holds cabinet.old) result (C.faults cabinet.old) (C.faults cabinet.new)
        (S.faults sink.old) (S.faults sink.new) }
{
    match cabinet.read(alloc, dump_of(words), DUMP_CAP) {
        Ok(bytes) => check_dump(alloc, sink, bytes.as_slice()),
        Err(CabinetFault::Failed) => Status::ReadFault,
        Err(CabinetFault::Memory) => Status::Memory,
    }
}
