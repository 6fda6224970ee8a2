// How many rows a block has.
ghost use Rattle.std.specs.Prelude.{◌≡◌, IfOk, true};
ghost use Rattle.mj_reading.specs.Reading.{Read, Is, Anything};
ghost use Rattle.mj_check.specs.Judging.{Line, found_as};
ghost use Rattle.mj_check.specs.Rows as spec;

use crate::rejection::Rejection;
use mj_reading::Scan;
use mj_types::Reason;

/// How many rows there are, and how many of them are idle.
#[derive(Clone, Copy)]
pub struct Counts {
    pub rows: usize,
    pub idle: usize,
}

// Reads the line of the counts.
fn read_counts(scan: &mut Scan<'_>) -> Counts
    ensures { Read Is spec.AreCounts spec.counts_line Anything scan.old result scan.new }
{
    let rows = scan.labelled(b"rows ", 0, 1024);
    let idle = scan.labelled(b" idle ", 0, rows);
    scan.word(b"\n");
    Counts { rows, idle }
}

// The line of the counts, in form.
pub(crate) fn find_counts(scan: &mut Scan<'_>, line: usize) -> Result<Counts, Rejection>
    requires going { scan.old.going ≡ true }
    ensures going { IfOk result (λ _. scan.new.going ≡ true) }
    ensures good { IfOk result spec.AreCounts }
    ensures line { Line spec.AreCounts spec.counts_line line scan.old.rest
        (found_as (λ c. (c, scan.new.rest)) result) }
{
    let counts = read_counts(scan);
    if scan.is_going() {
        Ok(counts)
    } else {
        Err(Rejection {
            line,
            reason: Reason::Form,
        })
    }
}
