// The line of a ball around a block's acceleration.
ghost use Rattle.std.specs.Prelude.{◌≡◌, ◌≤◌, ◌+◌, ◌<◌, ◌^◌, IsTrue, IfOk, true, Some};
ghost use Rattle.mj_reading.specs.Reading.{Read, Is, Anything};
ghost use Rattle.mj_check.specs.Judging.{Passes, found_as};
ghost use Rattle.mj_check.specs.Lines as spec;
ghost use Rattle.mj_check.specs.Verdict.{IsBallAt};

use crate::numbers::read_spaced;
use crate::rejection::Rejection;
use fx_num::Wide;
use mj_reading::Scan;
use mj_types::Reason;

/// What the line of a ball tells: the shift, the least curvature and the radius. It is judged for its
/// form alone.
#[derive(Clone, Copy)]
pub struct BallTold {
    pub shift: Wide<0>,
    pub low: Wide<0>,
    pub radius: Wide<0>,
}

// Reads the line of a ball that was found.
fn read_found_ball(scan: &mut Scan<'_>) -> BallTold
    ensures { Read Is spec.IsBallTold (λ x. spec.ball_line (Some x)) Anything
        scan.old result scan.new }
{
    scan.word(b"ball ");
    let shift = scan.number();
    let low = read_spaced(scan);
    let radius = read_spaced(scan);
    scan.word(b"\n");
    BallTold { shift, low, radius }
}

// Reads the line of a ball.
fn read_ball(scan: &mut Scan<'_>) -> Option<BallTold>
    ensures { Read Is spec.IsBall spec.ball_line Anything scan.old result scan.new }
{
    if scan.begins(b"ball none\n") {
        scan.word(b"ball none\n");
        None
    } else {
        Some(read_found_ball(scan))
    }
}

// The line of a ball, in form.
fn find_ball(scan: &mut Scan<'_>, line: usize) -> Result<(), Rejection>
    requires going { scan.old.going ≡ true }
    ensures going { IfOk result (λ _. scan.new.going ≡ true) }
    ensures line { Passes spec.IsBall spec.ball_line line scan.old.rest
        (found_as (λ _. scan.new.rest) result) }
{
    read_ball(scan);
    if scan.is_going() {
        Ok(())
    } else {
        Err(Rejection {
            line,
            reason: Reason::Form,
        })
    }
}

// The line of a ball, if one begins here; gives the line behind it.
pub(crate) fn judge_ball(scan: &mut Scan<'_>, line: usize) -> Result<usize, Rejection>
    requires going { scan.old.going ≡ true }
    requires few { line + 1 < 2 ^ 64 }
    ensures going { IfOk result (λ _. scan.new.going ≡ true) }
    ensures next { IfOk result (λ n. n ≤ line + 1) }
    ensures ball { IsBallAt line scan.old.rest (found_as (λ n. (n, scan.new.rest)) result) }
{
    if scan.begins(b"ball ") {
        find_ball(scan, line)?;
        Ok(line + 1)
    } else {
        Ok(line)
    }
}
