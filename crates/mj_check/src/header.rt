// The first line of a dump.
ghost use Rattle.std.specs.Prelude.{◌≡◌, IfOk, true};
ghost use Rattle.mj_reading.specs.Reading.{Read, Is, Anything};
ghost use Rattle.mj_check.specs.Judging.{Line, found_as};
ghost use Rattle.mj_check.specs.Lines as spec;

use crate::rejection::Rejection;
use mj_reading::Scan;
use mj_types::Reason;

/// What the first line tells: the format, how many positions and velocities there are, and how many
/// steps were asked for.
#[derive(Clone, Copy)]
pub struct Header {
    pub format: usize,
    pub nq: usize,
    pub nv: usize,
    pub steps: usize,
}

// Reads the first line.
fn read_header(scan: &mut Scan<'_>) -> Header
    ensures { Read Is spec.IsHeader spec.header_line Anything scan.old result scan.new }
{
    let format = scan.labelled(b"trace ", 1, 2);
    let nq = scan.labelled(b" nq=", 1, 128);
    let nv = scan.labelled(b" nv=", 1, 64);
    let steps = scan.labelled(b" steps=", 0, 1_000_000);
    scan.word(b"\n");
    Header {
        format,
        nq,
        nv,
        steps,
    }
}

// The first line, in form.
pub(crate) fn find_header(scan: &mut Scan<'_>) -> Result<Header, Rejection>
    requires going { scan.old.going ≡ true }
    ensures going { IfOk result (λ _. scan.new.going ≡ true) }
    ensures good { IfOk result spec.IsHeader }
    ensures line { Line spec.IsHeader spec.header_line 1 scan.old.rest
        (found_as (λ h. (h, scan.new.rest)) result) }
{
    let header = read_header(scan);
    if scan.is_going() {
        Ok(header)
    } else {
        Err(Rejection {
            line: 1,
            reason: Reason::Form,
        })
    }
}
