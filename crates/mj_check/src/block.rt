// A block of a dump.
ghost use Rattle.std.specs.Prelude.{◌≡◌, ◌≤◌, ◌<◌, ◌+◌, ◌^◌, Bool, List, IfOk, length, true};
ghost use Rattle.fx_list.specs.Held.{Held};
ghost use Rattle.mj_check.specs.Judging.{found_as};
ghost use Rattle.mj_check.specs.Rows.{AreKept, AreCounts};
ghost use Rattle.mj_check.specs.Places.{HasPlaces};
ghost use Rattle.mj_check.specs.Lines.{DualTold, IsHeader};
ghost use Rattle.mj_check.specs.Numbers.{IsJudgedBy};
ghost use Rattle.mj_check.specs.Stated.{States};
ghost use Rattle.mj_check.specs.Verdict as spec;

use crate::ball::judge_ball;
use crate::closing::{find_cost, find_stop};
use crate::counts::find_counts;
use crate::dual::judge_dual;
use crate::header::Header;
use crate::judge::judge;
use crate::motion::judge_motion;
use crate::numbers::Pair;
use crate::rejection::Rejection;
use crate::room::{Room, fill_forces};
use crate::rows::judge_rows;
use mj_reading::Scan;

// The numbers of a block are judged, whose row `n` stands on the line `first + n`.
fn judge_numbers(
    room: &mut Room,
    told: &Pair,
    first: usize,
    cost_line: usize,
) -> Result<(), Rejection>
    requires room { HasPlaces room.old }
    requires few { first + 1024 < 2 ^ 64 }
    requires kept { (bounds : Bool) × AreKept bounds 1024 room.old.rows.list }
    requires states { (duals : List DualTold)
        × States room.old.making.dual room.old.rows.list duals
        × (length duals ≡ length room.old.rows.list) }
    ensures room { HasPlaces room.new }
    ensures nv { room.new.making.dual.nv ≡ room.old.making.dual.nv }
    ensures numbers { (duals : List DualTold) → States room.old.making.dual room.old.rows.list duals
        → length duals ≡ length room.old.rows.list
        → IsJudgedBy room.old.making.dual.nv room.old.rows.list duals told.now first cost_line
        result }
{
    fill_forces(&room.rows, &mut room.forces.f);
    judge(
        &room.making.dual,
        &mut room.forces,
        &mut room.cert,
        &room.rows,
        told,
        first,
        cost_line,
    )
}

// The rest of a block once its rows were read, from the line of the stop on; gives the line behind it.
// Row `n` stands on the line `first + n`.
fn judge_closing(
    scan: &mut Scan<'_>,
    bounds: bool,
    first: usize,
    line: usize,
    room: &mut Room,
) -> Result<usize, Rejection>
    requires going { scan.old.going ≡ true }
    requires room { HasPlaces room.old }
    requires first { first ≤ line }
    requires few { line + 2060 < 2 ^ 64 }
    requires kept { AreKept bounds 1024 room.old.rows.list }
    ensures going { IfOk result (λ _. scan.new.going ≡ true) }
    ensures room { HasPlaces room.new }
    ensures nv { room.new.making.dual.nv ≡ room.old.making.dual.nv }
    ensures next { IfOk result (λ n. n ≤ line + 1028) }
    ensures closed { spec.IsClosed bounds room.old.making.dual.nv first room.old.rows.list line
        scan.old.rest (found_as (λ n. (n, scan.new.rest)) result) }
{
    let m = room.rows.len();
    find_stop(scan, line, m)?;
    let told = find_cost(scan, line + 1, m)?;
    judge_dual(scan, bounds, line + 2, &room.rows, &mut room.making)?;
    judge_numbers(room, &told, first, line + 1)?;
    judge_ball(scan, line + 3 + m)
}

/// The block of a step, from this line on; gives the line behind it.
pub(crate) fn judge_block(
    scan: &mut Scan<'_>,
    header: &Header,
    line: usize,
    k: usize,
    room: &mut Room,
) -> Result<usize, Rejection>
    requires going { scan.old.going ≡ true }
    requires header { IsHeader header.now }
    requires room { HasPlaces room.old }
    requires nv { room.old.making.dual.nv ≡ header.now.nv }
    requires few { line + 4096 < 2 ^ 64 }
    ensures going { IfOk result (λ _. scan.new.going ≡ true) }
    ensures room { HasPlaces room.new }
    ensures nv { room.new.making.dual.nv ≡ header.now.nv }
    ensures next { IfOk result (λ n. n ≤ line + 2060) }
    ensures block { spec.IsBlock header.now k (line, scan.old.rest)
        (found_as (λ n. (n, scan.new.rest)) result) }
{
    let bounds = header.format == 2;
    judge_motion(scan, header, line, k, &mut room.making.numbers)?;
    let counts = find_counts(scan, line + 6)?;
    judge_rows(scan, line + 7, bounds, &counts, &mut room.rows)?;
    judge_closing(scan, bounds, line + 6, line + 7 + counts.rows, room)
}
