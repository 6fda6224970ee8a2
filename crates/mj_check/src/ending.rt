// The last line of a dump, behind which nothing stands.
ghost use Rattle.std.specs.Prelude.{◌≡◌, ◌<◌, ◌≤◌, ◌+◌, ◌^◌, IsTrue, IfOk, true};
ghost use Rattle.mj_trace.specs.Trace.{end_text};
ghost use Rattle.mj_types.specs.declared.range.End.{End};
ghost use Rattle.mj_reading.specs.Reading.{Read, Anything};
ghost use Rattle.mj_check.specs.Alike.{Alike};
ghost use Rattle.mj_check.specs.Judging.{Passes, found_as};
ghost use Rattle.mj_check.specs.Lines as spec;
ghost use Rattle.mj_check.specs.Verdict.{IsEnding};

use crate::rejection::Rejection;
use crate::sources::read_kind;
use mj_reading::Scan;
use mj_types::Reason;

// Reads the line of an end where all steps were done.
fn read_done(scan: &mut Scan<'_>, count: usize, steps: usize)
    requires { steps ≤ count }
    ensures { (e : End) × Read Alike (spec.IsEnd count steps) end_text Anything
        scan.old e scan.new }
{
    if count == steps {
        scan.word(b"end done\n");
    } else {
        scan.stop();
    }
}

// Reads the line of an end at a number out of range, in the step after so many.
fn read_early(scan: &mut Scan<'_>, count: usize, steps: usize)
    requires { count < steps }
    ensures { (e : End) × Read Alike (spec.IsEnd count steps) end_text Anything
        scan.old e scan.new }
{
    scan.numbered(b"end out-of-range step=", count + 1);
    scan.word(b" kind=");
    read_kind(scan);
    scan.word(b" index=");
    scan.number_from_one();
    scan.word(b"\n");
}

// Reads the last line.
fn read_end(scan: &mut Scan<'_>, count: usize, steps: usize)
    ensures { (e : End) × Read Alike (spec.IsEnd count steps) end_text Anything
        scan.old e scan.new }
{
    if count < steps {
        read_early(scan, count, steps);
    } else {
        read_done(scan, count, steps);
    }
}

// The last line, in form.
fn find_end(scan: &mut Scan<'_>, line: usize, count: usize, steps: usize) -> Result<(), Rejection>
    requires going { scan.old.going ≡ true }
    ensures going { IfOk result (λ _. scan.new.going ≡ true) }
    ensures line { Passes (spec.IsEnd count steps) end_text line scan.old.rest
        (found_as (λ _. scan.new.rest) result) }
{
    read_end(scan, count, steps);
    if scan.is_going() {
        Ok(())
    } else {
        Err(Rejection {
            line,
            reason: Reason::Form,
        })
    }
}

// The last line, and that nothing follows it.
pub(crate) fn judge_end(
    scan: &mut Scan<'_>,
    line: usize,
    count: usize,
    steps: usize,
) -> Result<(), Rejection>
    requires going { scan.old.going ≡ true }
    requires few { line + 1 < 2 ^ 64 }
    ensures { IsEnding count steps (line, scan.old.rest) result }
{
    find_end(scan, line, count, steps)?;
    if scan.is_done() {
        Ok(())
    } else {
        Err(Rejection {
            line: line + 1,
            reason: Reason::Form,
        })
    }
}
