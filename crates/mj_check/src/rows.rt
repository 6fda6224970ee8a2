// The lines of a block's rows.
ghost use Rattle.std.specs.Prelude.{◌≡◌, ◌≤◌, ◌<◌, ◌+◌, ◌^◌, ℕ, IsTrue, IfOk, IfSome, length, true, option_map};
ghost use Rattle.fx_list.specs.Held.{Held};
ghost use Rattle.mj_trace.specs.Block.{bound_text};
ghost use Rattle.mj_reading.specs.Reading.{Read, Is, Anything, NoNumber};
ghost use Rattle.mj_check.specs.Judging.{Line, found_as};
ghost use Rattle.mj_check.specs.Rows as spec;

use crate::counts::Counts;
use crate::numbers::read_spaced;
use crate::rejection::Rejection;
use crate::sources::{SourceTold, read_source};
use fx_list::Listing;
use fx_num::Wide;
use mj_reading::Scan;
use mj_types::Reason;

/// A row's bounds, each of which may be missing, at 2^-20.
#[derive(Clone, Copy)]
pub struct Bounds {
    pub low: Option<Wide<0>>,
    pub high: Option<Wide<0>>,
}

/// What the line of a row that isn't idle tells: its force, the ends of its box, and its bounds, all at
/// 2^-20.
#[derive(Clone, Copy)]
pub struct Told {
    pub f: Wide<0>,
    pub lo: Wide<0>,
    pub hi: Wide<0>,
    pub bounds: Bounds,
}

/// What a row's line tells. An idle row has no force.
#[derive(Clone, Copy)]
pub struct RowTold {
    pub source: SourceTold,
    pub told: Option<Told>,
}

/// A row that isn't idle, and its number in the list of rows, from 1.
#[derive(Clone, Copy)]
pub struct ActiveRow {
    pub place: usize,
    pub told: Told,
}

// Reads a bound after a space.
pub(crate) fn read_bound(scan: &mut Scan<'_>) -> Option<Wide<0>>
    ensures { Read Is spec.IsBound (λ x. bound_text (spec.raw_bound x)) NoNumber
        scan.old result scan.new }
{
    scan.word(b" ");
    scan.optional_number()
}

// Reads both bounds.
fn read_both_bounds(scan: &mut Scan<'_>) -> Bounds
    ensures { Read Is (spec.AreBounds true) (spec.bounds_line true) NoNumber
        scan.old result scan.new }
{
    scan.word(b" in");
    let low = read_bound(scan);
    let high = read_bound(scan);
    Bounds { low, high }
}

// Reads a row's bounds, where they are told.
fn read_bounds(scan: &mut Scan<'_>, bounds: bool) -> Bounds
    ensures { Read Is (spec.AreBounds bounds) (spec.bounds_line bounds) NoNumber
        scan.old result scan.new }
{
    if bounds {
        read_both_bounds(scan)
    } else {
        Bounds {
            low: Some(Wide { raw: 0 }),
            high: None,
        }
    }
}

// Reads what is told of a row that isn't idle.
fn read_told(scan: &mut Scan<'_>, bounds: bool) -> Told
    ensures { Read Is (spec.IsTold bounds) (spec.told_line bounds) NoNumber
        scan.old result scan.new }
{
    let f = read_spaced(scan);
    let lo = read_spaced(scan);
    let hi = read_spaced(scan);
    let bounds = read_bounds(scan, bounds);
    Told { f, lo, hi, bounds }
}

// Reads what follows a row's source.
fn read_rest(scan: &mut Scan<'_>, bounds: bool) -> Option<Told>
    ensures { Read Is (λ x. IfSome x (spec.IsTold bounds)) (spec.rest_line bounds) NoNumber
        scan.old result scan.new }
{
    if scan.begins(b" idle") {
        scan.word(b" idle");
        None
    } else {
        Some(read_told(scan, bounds))
    }
}

// Reads the line of row `i`, from 1.
fn read_row(scan: &mut Scan<'_>, bounds: bool, i: usize) -> RowTold
    ensures { Read Is (spec.MayBeRow bounds) (spec.row_line bounds i) Anything
        scan.old result scan.new }
{
    scan.numbered(b"row ", i);
    scan.word(b" ");
    let source = read_source(scan, bounds);
    let told = read_rest(scan, bounds);
    scan.word(b"\n");
    RowTold { source, told }
}

// Whether a row may stand after `i` rows, of which `active` aren't idle.
fn may_stand(counts: &Counts, i: usize, active: usize, told: &Option<Told>) -> bool
    requires small { active + counts.now.idle < 2 ^ 64 }
    ensures yes { IsTrue result → spec.MayStand counts.now i active told.now }
    ensures only { spec.MayStand counts.now i active told.now → IsTrue result }
{
    match told {
        None => i < active + counts.idle,
        Some(_) => active + counts.idle < counts.rows,
    }
}

// The line of the row after `i` rows, of which `active` aren't idle, in form.
fn find_row(
    scan: &mut Scan<'_>,
    line: usize,
    bounds: bool,
    counts: &Counts,
    i: usize,
    active: usize,
) -> Result<RowTold, Rejection>
    requires going { scan.old.going ≡ true }
    requires small { active + counts.now.idle < 2 ^ 64 }
    requires few { i + 1 < 2 ^ 64 }
    ensures going { IfOk result (λ _. scan.new.going ≡ true) }
    ensures line { Line (spec.IsRow bounds counts.now i active) (spec.row_line bounds (i + 1))
        line scan.old.rest (found_as (λ x. (x, scan.new.rest)) result) }
{
    let row = read_row(scan, bounds, i + 1);
    let stands = may_stand(counts, i, active, &row.told);
    if scan.is_going() && stands {
        Ok(row)
    } else {
        Err(Rejection {
            line,
            reason: Reason::Form,
        })
    }
}

// Whether a number is at most this in size.
fn is_small(x: &Wide<0>, limit: u128) -> bool
    ensures yes { IsTrue result → spec.IsSmall limit x.now }
    ensures only { spec.IsSmall limit x.now → IsTrue result }
{
    x.raw.unsigned_abs() <= limit
}

// Whether a bound is at most 2^30 in size, where it is there.
fn is_small_bound(x: &Option<Wide<0>>) -> bool
    ensures yes { IsTrue result → IfSome x.now (spec.IsSmall (2 ^ 50)) }
    ensures only { IfSome x.now (spec.IsSmall (2 ^ 50)) → IsTrue result }
{
    match x {
        Some(x) => is_small(x, 1 << 50),
        None => true,
    }
}

// Whether what is told of a row is within the limits.
fn is_told_within(x: &Told) -> bool
    ensures yes { IsTrue result → spec.ToldWithin x.now }
    ensures only { spec.ToldWithin x.now → IsTrue result }
{
    is_small(&x.f, 1 << 50)
        && is_small_bound(&x.bounds.low)
        && is_small_bound(&x.bounds.high)
        && is_small(&x.lo, 1 << 51)
        && is_small(&x.hi, 1 << 51)
}

// Whether a row is within the limits.
fn is_row_within(x: &RowTold) -> bool
    ensures yes { IsTrue result → spec.RowWithin x.now }
    ensures only { spec.RowWithin x.now → IsTrue result }
{
    match &x.told {
        Some(told) => is_told_within(told),
        None => true,
    }
}

// The line of a row, in form and within the limits.
fn judge_row(
    scan: &mut Scan<'_>,
    line: usize,
    bounds: bool,
    counts: &Counts,
    i: usize,
    active: usize,
) -> Result<RowTold, Rejection>
    requires going { scan.old.going ≡ true }
    requires small { active + counts.now.idle < 2 ^ 64 }
    requires few { i + 1 < 2 ^ 64 }
    ensures going { IfOk result (λ _. scan.new.going ≡ true) }
    ensures good { IfOk result (spec.IsRow bounds counts.now i active) }
    ensures within { IfOk result spec.RowWithin }
    ensures line { spec.IsRowAt bounds counts.now i active line scan.old.rest
        (found_as (λ x. (x, scan.new.rest)) result) }
{
    let row = find_row(scan, line, bounds, counts, i, active)?;
    if is_row_within(&row) {
        Ok(row)
    } else {
        Err(Rejection {
            line,
            reason: Reason::Limit,
        })
    }
}

// Keeps a row that isn't idle.
fn keep(rows: &mut Listing<ActiveRow>, place: usize, told: Option<Told>)
    requires room { length rows.old.list < rows.old.most }
    ensures list { rows.new.list ≡ spec.with_row place told rows.old.list }
    ensures most { rows.new.most ≡ rows.old.most }
{
    match told {
        Some(told) => rows.push(ActiveRow { place, told }),
        None => {}
    }
}

/// The lines of all rows, from this line on. Those that aren't idle are kept.
pub(crate) fn judge_rows(
    scan: &mut Scan<'_>,
    line: usize,
    bounds: bool,
    counts: &Counts,
    rows: &mut Listing<ActiveRow>,
) -> Result<(), Rejection>
    requires going { scan.old.going ≡ true }
    requires counts { spec.AreCounts counts.now }
    requires room { counts.now.rows ≤ rows.old.most }
    requires few { line + 1024 < 2 ^ 64 }
    ensures going { IfOk result (λ _. scan.new.going ≡ true) }
    ensures most { rows.new.most ≡ rows.old.most }
    ensures kept { IfOk result (λ _. spec.AreKept bounds counts.now.rows rows.new.list) }
    ensures lines { spec.AreRows bounds counts.now line scan.old.rest
        (found_as (λ _. (rows.new.list, scan.new.rest)) result) }
{
    rows.clear();
    for i in 0..counts.rows {
        let row = judge_row(scan, line + i, bounds, counts, i, rows.len())?;
        keep(rows, i + 1, row.told);
    }
    Ok(())
}
