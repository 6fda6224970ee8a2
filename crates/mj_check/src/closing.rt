// The lines behind a block's rows: how the solver stopped, and the cost.
ghost use Rattle.std.specs.Prelude.{◌≡◌, ◌<◌, IsTrue, IfOk, true, pos};
ghost use Rattle.mj_optimum.specs.declared.stop.Stop.{Stop};
ghost use Rattle.mj_trace.specs.Block.{stop_text};
ghost use Rattle.mj_reading.specs.Reading.{Read, Anything};
ghost use Rattle.mj_check.specs.Alike.{Alike};
ghost use Rattle.mj_check.specs.Judging.{Line, Passes, found_as};
ghost use Rattle.mj_check.specs.Lines as spec;

use crate::numbers::{Pair, read_pair};
use crate::rejection::Rejection;
use mj_reading::Scan;
use mj_types::Reason;

// Reads the line of the stop where there are rows: after a sweep within the tolerance, or at the limit.
fn read_sweeps(scan: &mut Scan<'_>, m: usize)
    requires { 0 < m }
    ensures { (s : Stop) × Read Alike (spec.IsStop m) stop_text Anything scan.old s scan.new }
{
    if scan.begins(b"stop tolerance ") {
        scan.word(b"stop tolerance ");
        scan.number_from_one();
        scan.word(b"\n");
    } else {
        scan.word(b"stop limit ");
        scan.number_from_one();
        scan.word(b"\n");
    }
}

// Reads the line of the stop, where so many rows aren't idle.
fn read_stop(scan: &mut Scan<'_>, m: usize)
    ensures { (s : Stop) × Read Alike (spec.IsStop m) stop_text Anything scan.old s scan.new }
{
    if m == 0 {
        scan.word(b"stop none\n");
    } else {
        read_sweeps(scan, m);
    }
}

// The line of the stop, in form.
pub(crate) fn find_stop(scan: &mut Scan<'_>, line: usize, m: usize) -> Result<(), Rejection>
    requires going { scan.old.going ≡ true }
    ensures going { IfOk result (λ _. scan.new.going ≡ true) }
    ensures line { Passes (spec.IsStop m) stop_text line scan.old.rest
        (found_as (λ _. scan.new.rest) result) }
{
    read_stop(scan, m);
    if scan.is_going() {
        Ok(())
    } else {
        Err(Rejection {
            line,
            reason: Reason::Form,
        })
    }
}

// Whether a cost may stand where so many rows aren't idle: without rows it is 0, and so is its bound.
fn may_cost(cost: &Pair, m: usize) -> bool
    ensures yes { IsTrue result → spec.IsPair cost.now → spec.IsCost m cost.now }
    ensures only { spec.IsCost m cost.now → IsTrue result }
{
    m > 0 || cost.first.raw == 0 && cost.second.raw == 0
}

// The line of the cost, in form.
pub(crate) fn find_cost(scan: &mut Scan<'_>, line: usize, m: usize) -> Result<Pair, Rejection>
    requires going { scan.old.going ≡ true }
    ensures going { IfOk result (λ _. scan.new.going ≡ true) }
    ensures line { Line (spec.IsCost m) spec.cost_line line scan.old.rest
        (found_as (λ x. (x, scan.new.rest)) result) }
{
    let cost = read_pair(scan, b"cost ");
    let stands = may_cost(&cost, m);
    if scan.is_going() && stands {
        Ok(cost)
    } else {
        Err(Rejection {
            line,
            reason: Reason::Form,
        })
    }
}
