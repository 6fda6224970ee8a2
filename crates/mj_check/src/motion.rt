// The first lines of a block: the step, its positions, velocities and accelerations, the residual, and
// the radii.
ghost use Rattle.std.specs.Prelude.{◌≡◌, ◌≤◌, ◌<◌, ◌+◌, ◌^◌, IsTrue, IfOk, length, true, codes};
ghost use Rattle.mj_types.specs.Duals.{wide_at};
ghost use Rattle.mj_reading.specs.Reading.{Read, Is, IsRaw, Any, Anything};
ghost use Rattle.mj_check.specs.Judging.{Line, found_as};
ghost use Rattle.mj_check.specs.Lines as spec;
ghost use Rattle.mj_check.specs.Verdict.{BeginsStep};

use crate::header::Header;
use crate::numbers::{Pair, read_numbers, read_pair};
use crate::rejection::Rejection;
use fx_list::Array;
use fx_num::Wide;
use mj_reading::Scan;
use mj_types::Reason;

// Reads the first line of the block of a step.
fn read_step(scan: &mut Scan<'_>, k: usize)
    ensures { Read Is Any (λ (u : Unit {0}). spec.step_line k) Anything scan.old tt scan.new }
{
    scan.numbered(b"step ", k);
    scan.word(b"\n");
}

// Whether the block of a step begins here.
pub(crate) fn begins_step(scan: &Scan<'_>, k: usize) -> bool
    requires { scan.now.going ≡ true }
    ensures yes { IsTrue result → BeginsStep k scan.now.rest }
    ensures only { BeginsStep k scan.now.rest → IsTrue result }
{
    let mut ahead = scan.copy();
    read_step(&mut ahead, k);
    ahead.is_going()
}

// The first line of the block of a step, in form.
fn find_step(scan: &mut Scan<'_>, line: usize, k: usize) -> Result<(), Rejection>
    requires going { scan.old.going ≡ true }
    ensures going { IfOk result (λ _. scan.new.going ≡ true) }
    ensures line { Line Any (λ (u : Unit {0}). spec.step_line k) line scan.old.rest
        (found_as (λ _. (tt, scan.new.rest)) result) }
{
    read_step(scan, k);
    if scan.is_going() {
        Ok(())
    } else {
        Err(Rejection {
            line,
            reason: Reason::Form,
        })
    }
}

// Reads a line of a label and so many numbers.
fn read_list(scan: &mut Scan<'_>, label: &[u8], n: usize, numbers: &mut Array<Wide<0>>)
    requires { n ≤ length numbers.old }
    ensures len { length numbers.new ≡ length numbers.old }
    ensures read { Read (spec.Agree n) (spec.AreWide n) (spec.numbers_line label.now n)
        Anything scan.old (wide_at numbers.new) scan.new }
{
    scan.word(label);
    read_numbers(scan, numbers, n);
    scan.word(b"\n");
}

// A line of a label and so many numbers, in form.
fn find_list(
    scan: &mut Scan<'_>,
    line: usize,
    label: &[u8],
    n: usize,
    numbers: &mut Array<Wide<0>>,
) -> Result<(), Rejection>
    requires going { scan.old.going ≡ true }
    requires room { n ≤ length numbers.old }
    ensures going { IfOk result (λ _. scan.new.going ≡ true) }
    ensures len { length numbers.new ≡ length numbers.old }
    ensures line { Line (spec.AreWide n) (spec.numbers_line label.now n) line scan.old.rest
        (found_as (λ _. (wide_at numbers.new, scan.new.rest)) result) }
{
    read_list(scan, label, n, numbers);
    if scan.is_going() {
        Ok(())
    } else {
        Err(Rejection {
            line,
            reason: Reason::Form,
        })
    }
}

// Reads the line of the residual.
fn read_residual(scan: &mut Scan<'_>) -> Wide<0>
    ensures { Read Is IsRaw spec.residual_line Anything scan.old result scan.new }
{
    scan.word(b"residual ");
    let residual = scan.number();
    scan.word(b"\n");
    residual
}

// The line of the residual, in form.
fn find_residual(scan: &mut Scan<'_>, line: usize) -> Result<Wide<0>, Rejection>
    requires going { scan.old.going ≡ true }
    ensures going { IfOk result (λ _. scan.new.going ≡ true) }
    ensures line { Line IsRaw spec.residual_line line scan.old.rest
        (found_as (λ x. (x, scan.new.rest)) result) }
{
    let residual = read_residual(scan);
    if scan.is_going() {
        Ok(residual)
    } else {
        Err(Rejection {
            line,
            reason: Reason::Form,
        })
    }
}

// The line of the radii, in form.
fn find_radii(scan: &mut Scan<'_>, line: usize) -> Result<Pair, Rejection>
    requires going { scan.old.going ≡ true }
    ensures going { IfOk result (λ _. scan.new.going ≡ true) }
    ensures line { Line spec.IsPair (spec.pair_line (codes "radius ")) line scan.old.rest
        (found_as (λ x. (x, scan.new.rest)) result) }
{
    let radii = read_pair(scan, b"radius ");
    if scan.is_going() {
        Ok(radii)
    } else {
        Err(Rejection {
            line,
            reason: Reason::Form,
        })
    }
}

// The lines up to the rows, from this line on.
pub(crate) fn judge_motion(
    scan: &mut Scan<'_>,
    header: &Header,
    line: usize,
    k: usize,
    numbers: &mut Array<Wide<0>>,
) -> Result<(), Rejection>
    requires going { scan.old.going ≡ true }
    requires q_room { header.now.nq ≤ length numbers.old }
    requires v_room { header.now.nv ≤ length numbers.old }
    requires few { line + 5 < 2 ^ 64 }
    ensures going { IfOk result (λ _. scan.new.going ≡ true) }
    ensures len { length numbers.new ≡ length numbers.old }
    ensures motion { spec.IsMotion header.now k line scan.old.rest
        (found_as (λ _. scan.new.rest) result) }
{
    find_step(scan, line, k)?;
    find_list(scan, line + 1, b"q", header.nq, numbers)?;
    find_list(scan, line + 2, b"v", header.nv, numbers)?;
    find_list(scan, line + 3, b"a", header.nv, numbers)?;
    find_residual(scan, line + 4)?;
    find_radii(scan, line + 5)?;
    Ok(())
}
