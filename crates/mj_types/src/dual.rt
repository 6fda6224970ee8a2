// The dual problem of the contact forces, its forces and their certificate.
ghost use Rattle.std.specs.Prelude.{◌≡◌, ◌+◌, ◌*◌, ◌^◌, ◌<◌, ◌≤◌, ◌+ℤ◌, ◌*ℤ◌, unsigned_abs, ℕ, pos, length, replicate, slice_set, IfOk, IsTrue};
ghost use Rattle.fx_whole.specs.Sums.{sum_to};
ghost use Rattle.mj_types.specs.Duals as duals;
ghost use Rattle.mj_types.specs.Duals.{AreRows, IsSolvableRow, MayBeRow, MayBeSolved, IsWithinRanges, bound, bound_at, entry_at, wide_at};
ghost use Rattle.mj_types.specs.Parts.{number_at, plain};

use crate::NoMemory;
use crate::model::Model;
use crate::room::{filled, zeros};
use fx_list::Array;
use fx_num::{Fix, Wide};
use fx_whole::{Divisor, add_product};
use std::alloc::Global;

/// The dual of a step's rows that aren't idle: forces `f` of least cost
/// `1/2 f (A + R) f + f b` with `A = G G^T`, each within its bounds (MuJoCo documentation,
/// Computation). `m` rows are in use; `g` is row after row, `nv` numbers a row; `diag` is the diagonal
/// of `A`; `place` is each row's number in the list of rows. A bound may be missing.
#[derive(Drop)]
pub struct Dual {
    pub m: usize,
    pub nv: usize,
    pub place: Array<usize>,
    pub g: Array<Fix<24>>,
    pub diag: Array<Wide<48>>,
    pub r: Array<Wide<48>>,
    pub b: Array<Fix<32>>,
    pub low: Array<Option<Fix<20>>>,
    pub high: Array<Option<Fix<20>>>,
    pub ghost rows: { AreRows m nv place g diag r b low high },
}

/// What a dual holds of one row beside its numbers of `G`.
#[derive(Clone, Copy)]
pub struct DualRow {
    pub place: usize,
    pub diag: Wide<48>,
    pub r: Wide<48>,
    pub b: Fix<32>,
    pub low: Option<Fix<20>>,
    pub high: Option<Fix<20>>,
}

/// Forces of a dual's rows, and `u = G^T f`. `divisor` and `used` are a solver's working room: what it
/// divides each row's gradient by, and how many of the row's numbers there are up to the last that
/// isn't 0.
#[derive(Drop)]
pub struct Forces {
    pub f: Array<Fix<20>>,
    pub u: Array<Fix<44>>,
    pub divisor: Array<Divisor>,
    pub used: Array<usize>,
}

/// What a certificate says: twice the cost of the forces, a number that no feasible force's is below,
/// both at 2^-88, and for each row the ends of a box that holds every feasible force that costs no more.
/// `slope` and `depth` are working room: each row's gradient and its shortfall.
#[derive(Drop)]
pub struct Cert {
    pub cost2: i128,
    pub bound2: i128,
    pub lo: Array<Fix<20>>,
    pub hi: Array<Fix<20>>,
    pub slope: Array<Wide<68>>,
    pub depth: Array<Wide<88>>,
}

impl Dual {
    ghost use Rattle.mj_types.specs.Problems as spec;

    /// An empty dual with room for the model's rows.
    pub fn new(alloc: Global, model: &Model) -> Result<Dual, NoMemory>
        ensures room { IfOk result (λ d. spec.HasRoom model.now.njmax model.now.nv d) }
        ensures empty { IfOk result (λ d. d.m ≡ 0) }
    {
        Dual::with_room(alloc, model.njmax, model.nv)
    }

    /// An empty dual with room for so many rows and dofs.
    pub fn with_room(alloc: Global, rows: usize, nv: usize) -> Result<Dual, NoMemory>
        requires rows { rows ≤ 1024 }
        requires dofs { nv ≤ 64 }
        ensures room { IfOk result (λ d. spec.HasRoom rows nv d) }
        ensures empty { IfOk result (λ d. d.m ≡ 0) }
    {
        match (
            filled(alloc, rows, 0),
            zeros(alloc, rows * nv),
            filled(alloc, rows, Wide { raw: 0 }),
            filled(alloc, rows, Wide { raw: 0 }),
            zeros(alloc, rows),
            filled(alloc, rows, None),
            filled(alloc, rows, None),
        ) {
            (Ok(place), Ok(g), Ok(diag), Ok(r), Ok(b), Ok(low), Ok(high)) => Ok(Dual {
                m: 0,
                nv,
                place,
                g,
                diag,
                r,
                b,
                low,
                high,
            }),
            _ => Err(NoMemory),
        }
    }

    /// Row `i` of `G`.
    pub fn row(&self, i: usize) -> &[Fix<24>]
        requires { i < self.now.m }
        ensures width { length result.now ≡ self.now.nv }
        ensures numbers { (k : ℕ) → k < self.now.nv
            → number_at result.now k ≡ entry_at self.now.nv self.now.g i k }
    {
        &self.g.as_slice()[i * self.nv..(i + 1) * self.nv]
    }

    /// Whether there is room for one row more.
    pub fn has_spare(&self) -> bool
        ensures room { IsTrue result → spec.HasSpare self.now }
        ensures no_room { spec.HasSpare self.now → IsTrue result }
    {
        let next = self.m + 1;
        next <= 1024
            && next <= self.place.len()
            && next * self.nv <= self.g.len()
            && next <= self.diag.len()
            && next <= self.r.len()
            && next <= self.b.len()
            && next <= self.low.len()
            && next <= self.high.len()
    }

    /// Whether a solver may take it: the diagonal is that of `G G^T`, and 0 is within the bounds.
    pub fn is_solvable(&self) -> bool
        ensures { IsTrue result → spec.IsSolvable self.now }
    {
        for i in 0..self.m {
            if !self.is_solvable_at(i) {
                return false;
            }
        }
        true
    }

    // Whether it may take row i.
    fn is_solvable_at(&self, i: usize) -> bool
        requires { i < self.now.m }
        ensures { IsTrue result → IsSolvableRow self.now.nv (entry_at self.now.nv self.now.g i)
            (wide_at self.now.diag i) (bound_at self.now.low i) (bound_at self.now.high i) }
    {
        is_solvable_row(
            self.row(i),
            self.diag.at(i),
            self.low.at(i),
            self.high.at(i),
        )
    }

    /// Takes all rows out. The room stays.
    pub fn clear(&mut self)
        ensures empty { self.new.m ≡ 0 }
        ensures room { spec.HaveSameRoom self.old self.new }
    {
        self.m = 0;
    }

    /// Adds a row at the end: its numbers of `G`, and what else the dual holds of it.
    pub fn push(&mut self, numbers: &[Fix<24>], row: DualRow)
        requires room { spec.HasSpare self.old }
        requires lawful { MayBeRow self.old.nv numbers.now row }
        ensures count { self.new.m ≡ self.old.m + 1 }
        ensures room { spec.HaveSameRoom self.old self.new }
        ensures before { (i k : ℕ) → i < self.old.m → k < self.old.nv
            → entry_at self.new.nv self.new.g i k ≡ entry_at self.old.nv self.old.g i k }
        ensures numbers { (k : ℕ) → k < self.old.nv
            → entry_at self.new.nv self.new.g self.old.m k ≡ number_at numbers.now k }
        ensures place { self.new.place ≡ slice_set self.old.place self.old.m row.place }
        ensures diag { self.new.diag ≡ slice_set self.old.diag self.old.m row.diag }
        ensures r { self.new.r ≡ slice_set self.old.r self.old.m row.r }
        ensures b { self.new.b ≡ slice_set self.old.b self.old.m row.b }
        ensures low { self.new.low ≡ slice_set self.old.low self.old.m row.low }
        ensures high { self.new.high ≡ slice_set self.old.high self.old.m row.high }
        ensures solvable { spec.IsSolvable self.old → MayBeSolved self.old.nv numbers.now row
            → spec.IsSolvable self.new }
    {
        let i = self.m;
        copy_into(&mut self.g, i * self.nv, numbers);
        self.place.put(i, row.place);
        self.diag.put(i, row.diag);
        self.r.put(i, row.r);
        self.b.put(i, row.b);
        self.low.put(i, row.low);
        self.high.put(i, row.high);
        self.m = i + 1;
    }
}

impl DualRow {
    /// Whether a dual of so many dofs may hold this row with these numbers of `G`.
    pub fn is_lawful(&self, numbers: &[Fix<24>], nv: usize) -> bool
        requires { nv ≤ 64 }
        ensures lawful { IsTrue result → MayBeRow nv numbers.now self.now }
        ensures unlawful { MayBeRow nv numbers.now self.now → IsTrue result }
    {
        numbers.len() == nv && are_small(numbers) && self.is_within()
    }

    // Whether its own numbers are within their ranges.
    fn is_within(&self) -> bool
        ensures within { IsTrue result → IsWithinRanges self.now }
        ensures past { IsWithinRanges self.now → IsTrue result }
    {
        self.r.raw >= 1
            && self.r.raw <= 1 << 72
            && self.b.mid.unsigned_abs() <= 1 << 56
            && is_in_range(self.low)
            && is_in_range(self.high)
    }
}

// Whether a bound is not past 2^30.
fn is_in_range(bound: Option<Fix<20>>) -> bool
    ensures { result ≡ duals.is_in_range (duals.bound bound) }
{
    match bound {
        Some(x) => x.mid.unsigned_abs() <= 1 << 50,
        None => true,
    }
}

// Whether a low bound is at most 0, and not past 2^30.
fn is_low(bound: Option<Fix<20>>) -> bool
    ensures { result ≡ duals.is_low (duals.bound bound) }
{
    match bound {
        Some(x) => x.mid <= 0 && x.mid.unsigned_abs() <= 1 << 50,
        None => true,
    }
}

// Whether a high bound is at least 0, and not past 2^30.
fn is_high(bound: Option<Fix<20>>) -> bool
    ensures { result ≡ duals.is_high (duals.bound bound) }
{
    match bound {
        Some(x) => x.mid >= 0 && x.mid.unsigned_abs() <= 1 << 50,
        None => true,
    }
}

// Whether each number is at most 2^20 in size.
fn are_small(numbers: &[Fix<24>]) -> bool
    ensures small { IsTrue result → (k : ℕ) → k < length numbers.now
        → unsigned_abs (number_at numbers.now k) ≤ 2 ^ 44 }
    ensures large { ((k : ℕ) → k < length numbers.now
        → unsigned_abs (number_at numbers.now k) ≤ 2 ^ 44) → IsTrue result }
{
    for k in 0..numbers.len() {
        if numbers[k].mid.unsigned_abs() > 1 << 44 {
            return false;
        }
    }
    true
}

// Whether a solver may take a row of these numbers.
fn is_solvable_row(
    numbers: &[Fix<24>],
    diag: Wide<48>,
    low: Option<Fix<20>>,
    high: Option<Fix<20>>,
) -> bool
    requires few { length numbers.now ≤ 64 }
    requires small { (k : ℕ) → k < length numbers.now
        → unsigned_abs (number_at numbers.now k) ≤ 2 ^ 44 }
    ensures { IsTrue result → IsSolvableRow (length numbers.now) (number_at numbers.now)
        diag.raw (bound low) (bound high) }
{
    diag.raw == squares(numbers).raw
        && diag.raw >= 1 << 28
        && diag.raw <= 1 << 72
        && is_low(low)
        && is_high(high)
}

// The sum of their squares.
fn squares(numbers: &[Fix<24>]) -> Wide<48>
    requires few { length numbers.now ≤ 64 }
    requires small { (k : ℕ) → k < length numbers.now
        → unsigned_abs (number_at numbers.now k) ≤ 2 ^ 44 }
    ensures { result.raw ≡ sum_to (length numbers.now)
        (λ k. number_at numbers.now k *ℤ number_at numbers.now k) }
{
    let mut total = Wide { raw: 0 };
    for k in 0..numbers.len() {
        total = with_square(total, numbers[k]);
    }
    total
}

// The sum with one square more.
fn with_square(total: Wide<48>, x: Fix<24>) -> Wide<48>
    requires total { unsigned_abs total.raw ≤ 2 ^ 100 }
    requires x { unsigned_abs x.mid ≤ 2 ^ 44 }
    ensures value { result.raw ≡ total.raw +ℤ x.mid *ℤ x.mid }
    ensures size { unsigned_abs result.raw ≤ unsigned_abs total.raw + 2 ^ 88 }
{
    Wide {
        raw: add_product(total.raw, x.mid, x.mid),
    }
}

// Writes these numbers from a place on.
fn copy_into(list: &mut Array<Fix<24>>, place: usize, numbers: &[Fix<24>])
    requires room { place + length numbers.now ≤ length list.old }
    requires small { place + length numbers.now < 2 ^ 64 }
    ensures len { length list.new ≡ length list.old }
    ensures here { (k : ℕ) → k < length numbers.now
        → number_at list.new (place + k) ≡ number_at numbers.now k }
    ensures before { (j : ℕ) → j < place → number_at list.new j ≡ number_at list.old j }
{
    for k in 0..numbers.len() {
        list.put(place + k, numbers[k]);
    }
}

impl Forces {
    ghost use Rattle.mj_types.specs.Problems as spec;

    /// Forces of 0 for the model's rows.
    pub fn new(alloc: Global, model: &Model) -> Result<Forces, NoMemory>
        ensures room { IfOk result (λ x. spec.ForcesRoom model.now.njmax model.now.nv x) }
        ensures forces { IfOk result (λ x. x.f ≡ replicate model.now.njmax (plain (pos 0))) }
        ensures reached { IfOk result (λ x. x.u ≡ replicate model.now.nv (plain (pos 0))) }
    {
        Forces::with_room(alloc, model.njmax, model.nv)
    }

    /// Forces of 0 for so many rows and dofs.
    pub fn with_room(alloc: Global, rows: usize, nv: usize) -> Result<Forces, NoMemory>
        ensures room { IfOk result (λ x. spec.ForcesRoom rows nv x) }
        ensures forces { IfOk result (λ x. x.f ≡ replicate rows (plain (pos 0))) }
        ensures reached { IfOk result (λ x. x.u ≡ replicate nv (plain (pos 0))) }
    {
        Ok(Forces {
            f: zeros(alloc, rows)?,
            u: zeros(alloc, nv)?,
            divisor: filled(alloc, rows, Divisor::new(1))?,
            used: filled(alloc, rows, 0)?,
        })
    }
}

impl Cert {
    ghost use Rattle.mj_types.specs.Problems as spec;

    /// A certificate of no rows, with room for the model's.
    pub fn new(alloc: Global, model: &Model) -> Result<Cert, NoMemory>
        ensures room { IfOk result (λ c. spec.CertRoom model.now.njmax c) }
        ensures cost { IfOk result (λ c. c.cost2 ≡ pos 0) }
        ensures bound { IfOk result (λ c. c.bound2 ≡ pos 0) }
        ensures low_ends { IfOk result (λ c. c.lo ≡ replicate model.now.njmax (plain (pos 0))) }
        ensures high_ends { IfOk result (λ c. c.hi ≡ replicate model.now.njmax (plain (pos 0))) }
    {
        Ok(Cert {
            cost2: 0,
            bound2: 0,
            lo: zeros(alloc, model.njmax)?,
            hi: zeros(alloc, model.njmax)?,
            slope: filled(alloc, model.njmax, Wide { raw: 0 })?,
            depth: filled(alloc, model.njmax, Wide { raw: 0 })?,
        })
    }
}
