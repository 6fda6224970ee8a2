// The room in which a block is judged: its rows, its dual, their forces and the certificate.
ghost use Rattle.std.specs.Prelude.{◌≡◌, ◌+◌, ◌≤◌, ◌<◌, ◌^◌, ◌≤ℤ◌, pos, ℕ, length, unsigned_abs, IsTrue, IfOk, IfSome};
ghost use Rattle.fx_list.specs.Held.{Held};
ghost use Rattle.mj_types.specs.Duals.{wide_at, bound, entry_at, IsWithinRanges};
ghost use Rattle.mj_types.specs.Parts.{number_at};
ghost use Rattle.mj_types.specs.Problems as problems;
ghost use Rattle.mj_check.specs.Lines as lines;
ghost use Rattle.mj_check.specs.Rows as told;
ghost use Rattle.mj_check.specs.Rows.{row_at};
ghost use Rattle.mj_check.specs.Stated as spec;

use crate::dual::{Making, Sides};
use crate::rows::ActiveRow;
use fx_list::{Array, Listing};
use fx_num::{Fix, Number, Wide};
use mj_types::{Cert, Dual, DualRow, Forces, NoMemory};
use std::alloc::Global;

/// What a block is judged in.
#[derive(Drop)]
pub struct Room {
    pub rows: Listing<ActiveRow>,
    pub making: Making,
    pub forces: Forces,
    pub cert: Cert,
}

// A number of G that is within its limit.
fn narrow(x: &Wide<0>) -> Fix<24>
    requires { unsigned_abs x.now.raw ≤ 2 ^ 44 }
    ensures { result.mid ≡ x.now.raw }
{
    Number {
        mid: x.raw as i64,
        rad: (),
    }
}

// A right side that is within its limit.
fn narrow_side(x: &Wide<0>) -> Fix<32>
    requires { unsigned_abs x.now.raw ≤ 2 ^ 56 }
    ensures { result.mid ≡ x.now.raw }
{
    Number {
        mid: x.raw as i64,
        rad: (),
    }
}

// A force or bound that is within its limit.
fn narrow_force(x: &Wide<0>) -> Fix<20>
    requires { told.IsSmall (2 ^ 50) x.now }
    ensures value { result.mid ≡ x.now.raw }
    ensures size { unsigned_abs result.mid ≤ 2 ^ 50 }
{
    Number {
        mid: x.raw as i64,
        rad: (),
    }
}

// A bound that is within its limit, where it is there.
fn narrow_bound(x: &Option<Wide<0>>) -> Option<Fix<20>>
    requires { IfSome x.now (told.IsSmall (2 ^ 50)) }
    ensures value { bound result ≡ told.raw_bound x.now }
    ensures size { IfSome result (λ b. unsigned_abs b.mid ≤ 2 ^ 50) }
{
    match x {
        Some(x) => Some(narrow_force(x)),
        None => None,
    }
}

// The first n of the numbers of G.
fn narrow_row(numbers: &Array<Wide<0>>, row: &mut Array<Fix<24>>, n: usize)
    requires room { n ≤ length numbers.now }
    requires width { n ≤ length row.old }
    requires small { (k : ℕ) → k < n → unsigned_abs (wide_at numbers.now k) ≤ 2 ^ 44 }
    ensures len { length row.new ≡ length row.old }
    ensures values { (k : ℕ) → k < n → number_at row.new k ≡ wide_at numbers.now k }
{
    for k in 0..n {
        row.put(k, narrow(numbers.entry(k)));
    }
}

// What a dual holds of a row beside its numbers of G. Its entry of the diagonal isn't told.
fn dual_row(row: &ActiveRow, sides: &Sides) -> DualRow
    requires sides { lines.SidesWithin sides.now.r.raw sides.now.b.raw }
    requires low { IfSome row.now.told.bounds.low (told.IsSmall (2 ^ 50)) }
    requires high { IfSome row.now.told.bounds.high (told.IsSmall (2 ^ 50)) }
    ensures ranges { IsWithinRanges result }
    ensures place { result.place ≡ row.now.place }
    ensures r { result.r.raw ≡ sides.now.r.raw }
    ensures b { result.b.mid ≡ sides.now.b.raw }
    ensures low { bound result.low ≡ told.raw_bound row.now.told.bounds.low }
    ensures high { bound result.high ≡ told.raw_bound row.now.told.bounds.high }
{
    DualRow {
        place: row.place,
        diag: Wide { raw: 0 },
        r: Wide { raw: sides.r.raw },
        b: narrow_side(&sides.b),
        low: narrow_bound(&row.told.bounds.low),
        high: narrow_bound(&row.told.bounds.high),
    }
}

/// Puts a row behind those of the dual, with the numbers of G that its line told.
pub(crate) fn push_row(making: &mut Making, row: &ActiveRow, sides: &Sides)
    requires room { spec.HasPlaces making.old }
    requires spare { making.old.dual.m < 1024 }
    requires within { lines.DualWithin making.old.dual.nv
        (lines.dual_told sides.now making.old.numbers) }
    requires told { told.ToldWithin row.now.told }
    ensures room { spec.HasPlaces making.new }
    ensures nv { making.new.dual.nv ≡ making.old.dual.nv }
    ensures m { making.new.dual.m ≡ making.old.dual.m + 1 }
    ensures before { (i : ℕ) → i < making.old.dual.m
        → spec.HasSameRow making.old.dual making.new.dual i }
    ensures here { spec.StatesRow making.new.dual row.now
        (lines.dual_told sides.now making.old.numbers) making.old.dual.m }
{
    let nv = making.dual.nv;
    narrow_row(&making.numbers, &mut making.row, nv);
    making
        .dual
        .push(making.row.as_slice(), dual_row(row, sides));
}

/// Takes the forces that the rows tell.
pub(crate) fn fill_forces(rows: &Listing<ActiveRow>, f: &mut Array<Fix<20>>)
    requires room { length rows.now.list ≤ length f.old }
    requires within { (i : ℕ) → i < length rows.now.list
        → told.ToldWithin (row_at rows.now.list i).told }
    ensures len { length f.new ≡ length f.old }
    ensures values { (i : ℕ) → i < length rows.now.list
        → number_at f.new i ≡ (row_at rows.now.list i).told.f.raw }
    ensures small { (i : ℕ) → i < length rows.now.list
        → unsigned_abs (number_at f.new i) ≤ 2 ^ 50 }
{
    for i in 0..rows.len() {
        f.put(i, narrow_force(&rows.entry(i).told.f));
    }
}
