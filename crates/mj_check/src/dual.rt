// The lines of a block's dual.
ghost use Rattle.std.specs.Prelude.{◌≡◌, ◌≤◌, ◌^◌, ◌<◌, ◌+◌, ◌++◌, ◌∷◌, [], ℕ, List, cond, codes, unsigned_abs, IsTrue, IfOk, length, true};
ghost use Rattle.fx_list.specs.Held.{Held};
ghost use Rattle.mj_types.specs.Duals.{wide_at};
ghost use Rattle.mj_types.specs.Problems.{HaveSameRoom};
ghost use Rattle.mj_trace.specs.Block.{bound_text};
ghost use Rattle.mj_reading.specs.Reading.{Read, Is, Any, Anything, NoNumber};
ghost use Rattle.mj_check.specs.Judging.{Line, found_as};
ghost use Rattle.mj_check.specs.Lines as spec;
ghost use Rattle.mj_check.specs.Rows.{AreBounds, AreKept, IsBound, ToldWithin, raw_bound};
ghost use Rattle.mj_check.specs.Stated as stated;
ghost use Rattle.mj_check.specs.Verdict.{IsDual};

use crate::numbers::{read_numbers, read_spaced};
use crate::rejection::Rejection;
use crate::room::push_row;
use crate::rows::{ActiveRow, Bounds, read_bound};
use fx_list::{Array, Listing};
use fx_num::{Fix, Wide};
use mj_reading::Scan;
use mj_types::{Dual, Reason};

/// R and b of a row, at 2^-48 and 2^-32.
#[derive(Clone, Copy)]
pub struct Sides {
    pub r: Wide<0>,
    pub b: Wide<0>,
}

/// What a dual is made in: room for the numbers that a line tells, and for a row of G.
#[derive(Drop)]
pub struct Making {
    pub numbers: Array<Wide<0>>,
    pub row: Array<Fix<24>>,
    pub dual: Dual,
}

// Whether two bounds are the same.
fn is_same_bound(a: &Option<Wide<0>>, b: &Option<Wide<0>>) -> bool
    ensures yes { IsTrue result → a.now ≡ b.now }
    ensures only { a.now ≡ b.now → IsTrue result }
{
    match (a, b) {
        (Some(a), Some(b)) => a.raw == b.raw,
        (None, None) => true,
        _ => false,
    }
}

// Reads this bound after a space.
fn read_known_bound(scan: &mut Scan<'_>, known: &Option<Wide<0>>)
    requires { IsBound known.now }
    ensures { Read Is Any (λ (u : Unit {0}). bound_text (raw_bound known.now)) NoNumber
        scan.old tt scan.new }
{
    let bound = read_bound(scan);
    if !is_same_bound(&bound, known) {
        scan.stop();
    }
}

// Reads these bounds.
fn read_both_again(scan: &mut Scan<'_>, known: &Bounds)
    requires { AreBounds true known.now }
    ensures { Read Is Any (λ (u : Unit {0}). spec.bounds_again true known.now) NoNumber
        scan.old tt scan.new }
{
    read_known_bound(scan, &known.low);
    read_known_bound(scan, &known.high);
}

// Reads a row's bounds again, where they are told.
fn read_bounds_again(scan: &mut Scan<'_>, bounds: bool, known: &Bounds)
    requires { AreBounds bounds known.now }
    ensures { Read Is Any (λ (u : Unit {0}). spec.bounds_again bounds known.now) NoNumber
        scan.old tt scan.new }
{
    if bounds {
        read_both_again(scan, known);
    }
}

// Reads the line of a row, and leaves its numbers of G in a list.
fn read_dual_row(
    scan: &mut Scan<'_>,
    bounds: bool,
    row: &ActiveRow,
    nv: usize,
    numbers: &mut Array<Wide<0>>,
) -> Sides
    requires room { nv ≤ length numbers.old }
    requires bounds { AreBounds bounds row.now.told.bounds }
    ensures len { length numbers.new ≡ length numbers.old }
    ensures read { Read (spec.SameDualTold nv) (spec.IsDualTold nv)
        (spec.dual_line bounds nv row.now) Anything scan.old
        (spec.dual_told result numbers.new) scan.new }
{
    scan.numbered(b"d ", row.place);
    let r = read_spaced(scan);
    let b = read_spaced(scan);
    read_bounds_again(scan, bounds, &row.told.bounds);
    read_numbers(scan, numbers, nv);
    scan.word(b"\n");
    Sides { r, b }
}

// The line of a row, in form.
fn find_dual_row(
    scan: &mut Scan<'_>,
    line: usize,
    bounds: bool,
    row: &ActiveRow,
    nv: usize,
    numbers: &mut Array<Wide<0>>,
) -> Result<Sides, Rejection>
    requires going { scan.old.going ≡ true }
    requires room { nv ≤ length numbers.old }
    requires bounds { AreBounds bounds row.now.told.bounds }
    ensures going { IfOk result (λ _. scan.new.going ≡ true) }
    ensures len { length numbers.new ≡ length numbers.old }
    ensures line { Line (spec.IsDualTold nv) (spec.dual_line bounds nv row.now) line scan.old.rest
        (found_as (λ s. (spec.dual_told s numbers.new, scan.new.rest)) result) }
{
    let sides = read_dual_row(scan, bounds, row, nv, numbers);
    if scan.is_going() {
        Ok(sides)
    } else {
        Err(Rejection {
            line,
            reason: Reason::Form,
        })
    }
}

// Whether each of the first n numbers is at most 2^20 in size.
fn are_small(numbers: &Array<Wide<0>>, n: usize) -> bool
    requires { n ≤ length numbers.now }
    ensures yes { IsTrue result → (k : ℕ) → k < n
        → unsigned_abs (wide_at numbers.now k) ≤ 2 ^ 44 }
    ensures only { ((k : ℕ) → k < n → unsigned_abs (wide_at numbers.now k) ≤ 2 ^ 44)
        → IsTrue result }
{
    for k in 0..n {
        if numbers.at(k).raw.unsigned_abs() > 1 << 44 {
            return false;
        }
    }
    true
}

// Whether R and b are within their limits.
fn are_within(sides: &Sides) -> bool
    ensures yes { IsTrue result → spec.SidesWithin sides.now.r.raw sides.now.b.raw }
    ensures only { spec.SidesWithin sides.now.r.raw sides.now.b.raw → IsTrue result }
{
    sides.r.raw >= 1 && sides.r.raw <= 1 << 72 && sides.b.raw.unsigned_abs() <= 1 << 56
}

// Whether all numbers of a row are within their limits.
fn is_within(sides: &Sides, numbers: &Array<Wide<0>>, nv: usize) -> bool
    requires { nv ≤ length numbers.now }
    ensures yes { IsTrue result → spec.DualWithin nv (spec.dual_told sides.now numbers.now) }
    ensures only { spec.DualWithin nv (spec.dual_told sides.now numbers.now) → IsTrue result }
{
    are_within(sides) && are_small(numbers, nv)
}

// The line of a row, in form and within the limits.
fn judge_dual_row(
    scan: &mut Scan<'_>,
    line: usize,
    bounds: bool,
    row: &ActiveRow,
    nv: usize,
    numbers: &mut Array<Wide<0>>,
) -> Result<Sides, Rejection>
    requires going { scan.old.going ≡ true }
    requires room { nv ≤ length numbers.old }
    requires bounds { AreBounds bounds row.now.told.bounds }
    ensures going { IfOk result (λ _. scan.new.going ≡ true) }
    ensures len { length numbers.new ≡ length numbers.old }
    ensures within { IfOk result (λ s. spec.DualWithin nv (spec.dual_told s numbers.new)) }
    ensures line { spec.IsDualRowAt bounds nv row.now line scan.old.rest
        (found_as (λ s. (spec.dual_told s numbers.new, scan.new.rest)) result) }
{
    let sides = find_dual_row(scan, line, bounds, row, nv, numbers)?;
    if is_within(&sides, numbers, nv) {
        Ok(sides)
    } else {
        Err(Rejection {
            line,
            reason: Reason::Limit,
        })
    }
}

// The line of a row, whose numbers are put into the dual.
fn take_dual_row(
    scan: &mut Scan<'_>,
    line: usize,
    bounds: bool,
    row: &ActiveRow,
    making: &mut Making,
) -> Result<(), Rejection>
    requires going { scan.old.going ≡ true }
    requires room { stated.HasPlaces making.old }
    requires spare { making.old.dual.m < 1024 }
    requires bounds { AreBounds bounds row.now.told.bounds }
    requires within { ToldWithin row.now.told }
    ensures going { IfOk result (λ _. scan.new.going ≡ true) }
    ensures room { stated.HasPlaces making.new }
    ensures nv { making.new.dual.nv ≡ making.old.dual.nv }
    ensures m { IfOk result (λ _. making.new.dual.m ≡ making.old.dual.m + 1) }
    ensures before { IfOk result (λ _. (i : ℕ) → i < making.old.dual.m
        → stated.HasSameRow making.old.dual making.new.dual i) }
    ensures line { (told : spec.DualTold)
        × IfOk result (λ _. stated.StatesRow making.new.dual row.now told making.old.dual.m)
        × spec.IsDualRowAt bounds making.old.dual.nv row.now line scan.old.rest
        (found_as (λ _. (told, scan.new.rest)) result) }
{
    let nv = making.dual.nv;
    let sides = judge_dual_row(scan, line, bounds, row, nv, &mut making.numbers)?;
    push_row(making, row, &sides);
    Ok(())
}

// The lines of all rows, whose numbers are put into an empty dual.
fn judge_dual_rows(
    scan: &mut Scan<'_>,
    line: usize,
    bounds: bool,
    rows: &Listing<ActiveRow>,
    making: &mut Making,
) -> Result<(), Rejection>
    requires going { scan.old.going ≡ true }
    requires room { stated.HasPlaces making.old }
    requires empty { making.old.dual.m ≡ 0 }
    requires few { line + 1024 < 2 ^ 64 }
    requires kept { AreKept bounds 1024 rows.now.list }
    ensures going { IfOk result (λ _. scan.new.going ≡ true) }
    ensures room { stated.HasPlaces making.new }
    ensures nv { making.new.dual.nv ≡ making.old.dual.nv }
    ensures m { IfOk result (λ _. making.new.dual.m ≡ length rows.now.list) }
    ensures lines { (duals : List spec.DualTold)
        × IfOk result (λ _. stated.States making.new.dual rows.now.list duals)
        × spec.AreDualRows bounds making.old.dual.nv rows.now.list (length rows.now.list) line
        scan.old.rest (found_as (λ _. (duals, scan.new.rest)) result) }
{
    for i in 0..rows.len() {
        take_dual_row(scan, line + i, bounds, rows.entry(i), making)?;
    }
    Ok(())
}

// Reads the first line of the dual of so many rows.
fn read_head(scan: &mut Scan<'_>, bounds: bool, m: usize, nv: usize)
    ensures { Read Is Any (λ (u : Unit {0}). spec.head_line bounds m nv) Anything
        scan.old tt scan.new }
{
    scan.numbered(b"dual ", m);
    scan.numbered(b" ", nv);
    read_mark(scan, bounds);
    scan.word(b"\n");
}

// Reads the mark that says that the rows tell their bounds.
fn read_mark(scan: &mut Scan<'_>, bounds: bool)
    ensures { Read Is Any (λ (u : Unit {0}). cond bounds (codes " bounds") []) Anything
        scan.old tt scan.new }
{
    if bounds {
        scan.word(b" bounds");
    }
}

// The first line of the dual of so many rows, in form.
fn find_head(
    scan: &mut Scan<'_>,
    line: usize,
    bounds: bool,
    m: usize,
    nv: usize,
) -> Result<(), Rejection>
    requires going { scan.old.going ≡ true }
    ensures going { IfOk result (λ _. scan.new.going ≡ true) }
    ensures line { Line Any (λ (u : Unit {0}). spec.head_line bounds m nv) line scan.old.rest
        (found_as (λ _. (tt, scan.new.rest)) result) }
{
    read_head(scan, bounds, m, nv);
    if scan.is_going() {
        Ok(())
    } else {
        Err(Rejection {
            line,
            reason: Reason::Form,
        })
    }
}

/// The lines of the dual of these rows, from this line on; it is made.
pub(crate) fn judge_dual(
    scan: &mut Scan<'_>,
    bounds: bool,
    line: usize,
    rows: &Listing<ActiveRow>,
    making: &mut Making,
) -> Result<(), Rejection>
    requires going { scan.old.going ≡ true }
    requires room { stated.HasPlaces making.old }
    requires few { line + 1025 < 2 ^ 64 }
    requires kept { AreKept bounds 1024 rows.now.list }
    ensures going { IfOk result (λ _. scan.new.going ≡ true) }
    ensures room { stated.HasPlaces making.new }
    ensures nv { making.new.dual.nv ≡ making.old.dual.nv }
    ensures m { IfOk result (λ _. making.new.dual.m ≡ length rows.now.list) }
    ensures lines { (duals : List spec.DualTold)
        × IfOk result (λ _. stated.States making.new.dual rows.now.list duals)
        × IsDual bounds making.old.dual.nv rows.now.list line scan.old.rest
        (found_as (λ _. (duals, scan.new.rest)) result) }
{
    let nv = making.dual.nv;
    making.dual.clear();
    find_head(scan, line, bounds, rows.len(), nv)?;
    judge_dual_rows(scan, line + 1, bounds, rows, making)
}
