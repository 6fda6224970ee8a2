// The factor, row after row from the last.
ghost use Rattle.std.specs.Prelude.{◌≡◌, ◌≢◌, ℕ, pos, ◌+◌, ◌^◌, ◌<◌, ◌≤◌, ◌+ℤ◌, ◌*ℤ◌, ◌≤ℤ◌, unsigned_abs, length, OnOk, IfOk};
ghost use Rattle.fx_whole.specs.First.{refusal_of, first_to};
ghost use Rattle.fx_whole.specs.Sums.{sum_to};
ghost use Rattle.mj_tree.specs.Listing.{height, start};
ghost use Rattle.mj_types.specs.Duals.{wide_at};
ghost use Rattle.mj_types.specs.FactorRooms.{FactorRoom};
ghost use Rattle.mj_types.specs.Forests.{above_in};
ghost use Rattle.mj_types.specs.Masses as masses;
ghost use Rattle.mj_types.specs.Parts.{number_at};
ghost use Rattle.mj_factor.specs.Factors.{work, lower, pivot, pivot_fault, entry_fault, row_fault, factor_fault};
ghost use Rattle.mj_factor.specs.Stored as spec;

use crate::lists::{begin, height, is_above, named};
use crate::numbers::{diagonal, divisor, less, limited, mass_of, no_sums, plus_product, quotient};
use fx_list::Array;
use fx_num::{Fix, Number, Wide};
use fx_whole::{Divisor, narrow};
use mj_types::{Factor, Mass, Model, OutOfRange, Quantity};

// W and L of a row in one column.
#[derive(Clone, Copy)]
pub(crate) struct Pair {
    pub(crate) w: Fix<40>,
    pub(crate) l: Fix<32>,
}

// The numbers from `begin` up to but not including `end`.
fn part(list: &Array<Fix<40>>, begin: usize, end: usize) -> &[Fix<40>]
    requires order { begin ≤ end }
    requires end { end ≤ length list.now }
    ensures width { begin + length result.now ≡ end }
    ensures numbers { (c : ℕ) → begin + c < end
        → number_at result.now c ≡ number_at list.now (begin + c) }
{
    &list.as_slice()[begin..end]
}

// Adds `l` times the numbers of `w`, place by place.
fn add_scaled(sums: &mut [Wide<72>], l: &Fix<32>, w: &[Fix<40>])
    requires width { length w.now ≤ length sums.old }
    requires lower { unsigned_abs l.now.mid ≤ 2 ^ 48 }
    requires work { (c : ℕ) → c < length w.now → unsigned_abs (number_at w.now c) ≤ 2 ^ 60 }
    requires sums { (c : ℕ) → c < length w.now → unsigned_abs (wide_at sums.old c) ≤ 2 ^ 116 }
    ensures { (c : ℕ) → c < length w.now
        → wide_at sums.new c ≡ wide_at sums.old c +ℤ l.now.mid *ℤ number_at w.now c }
{
    for c in 0..w.len() {
        sums[c] = plus_product(&sums[c], l, &w[c]);
    }
}

// Adds what row `j` adds to the sums for row `k`.
fn add_row(model: &Model, factor: &Factor, k: usize, j: usize, sums: &mut [Wide<72>])
    requires room { FactorRoom model.now factor.now }
    requires rows { k < j }
    requires dof { j < model.now.nv }
    requires width { length sums.old ≡ 65 }
    requires work { spec.SmallFrom (2 ^ 60) (start (above_in model.now) (k + 1))
        (number_at factor.now.w) }
    requires lower { spec.SmallFrom (2 ^ 48) (start (above_in model.now) (k + 1))
        (number_at factor.now.l) }
    requires sums { (c : ℕ) → c ≤ height (above_in model.now) k
        → unsigned_abs (wide_at sums.old c) ≤ 2 ^ 116 }
    ensures { (c : ℕ) → c ≤ height (above_in model.now) k → wide_at sums.new c
        ≡ wide_at sums.old c +ℤ spec.row_term (above_in model.now) (number_at factor.now.l)
        (number_at factor.now.w) k c j }
{
    if is_above(model, factor, k, j) {
        let first = begin(model, factor, j);
        let place = first + height(model, factor, k);
        add_scaled(
            sums,
            factor.l.entry(place),
            part(&factor.w, first, place + 1),
        );
    }
}

// Adds what the rows after `k` add to the sums for row `k`, which are 0.
fn add_rows(model: &Model, factor: &Factor, k: usize, sums: &mut [Wide<72>])
    requires room { FactorRoom model.now factor.now }
    requires dof { k < model.now.nv }
    requires width { length sums.old ≡ 65 }
    requires work { spec.SmallFrom (2 ^ 60) (start (above_in model.now) (k + 1))
        (number_at factor.now.w) }
    requires lower { spec.SmallFrom (2 ^ 48) (start (above_in model.now) (k + 1))
        (number_at factor.now.l) }
    requires none { (c : ℕ) → wide_at sums.old c ≡ pos 0 }
    ensures sums { (c : ℕ) → c ≤ height (above_in model.now) k → wide_at sums.new c
        ≡ sum_to model.now.nv (spec.row_term (above_in model.now) (number_at factor.now.l)
        (number_at factor.now.w) k c) }
    ensures small { (c : ℕ) → c ≤ height (above_in model.now) k
        → unsigned_abs (wide_at sums.new c) ≤ 2 ^ 116 }
{
    for j in k + 1..model.nv {
        add_row(model, factor, k, j, sums);
    }
}

// The pivot of row `k`, from its mass and its sum.
pub(crate) fn pivot(k: usize, mass: &Fix<40>, sum: &Wide<72>) -> Result<Fix<40>, OutOfRange>
    requires row { k < 64 }
    requires sum { unsigned_abs sum.now.raw ≤ 2 ^ 116 }
    ensures value { IfOk result (λ d. d.mid ≡ spec.less mass.now.mid sum.now.raw) }
    ensures least { IfOk result (λ d. pos (2 ^ 10) ≤ℤ d.mid) }
    ensures most { IfOk result (λ d. d.mid ≤ℤ pos (2 ^ 60)) }
    ensures first { refusal_of result ≡ pivot_fault k (spec.less mass.now.mid sum.now.raw) }
{
    let value: Wide<40> = less(mass, sum);
    let good = 1 << 10 <= value.raw && value.raw <= 1 << 60;
    OutOfRange::unless(good, Quantity::Pivot, k + 1)?;
    Ok(Number {
        mid: narrow(value.raw),
        rad: (),
    })
}

// W and L of row `k` in a column, from its mass and its sum.
pub(crate) fn entry(
    k: usize,
    mass: &Fix<40>,
    sum: &Wide<72>,
    by: &Divisor,
) -> Result<Pair, OutOfRange>
    requires row { k < 64 }
    requires sum { unsigned_abs sum.now.raw ≤ 2 ^ 116 }
    ensures work { IfOk result (λ e. e.w.mid ≡ spec.less mass.now.mid sum.now.raw) }
    ensures lower { IfOk result (λ e. e.l.mid
        ≡ spec.quotient (spec.less mass.now.mid sum.now.raw) by.now.d) }
    ensures first { refusal_of result ≡ entry_fault k (spec.less mass.now.mid sum.now.raw)
        (spec.quotient (spec.less mass.now.mid sum.now.raw) by.now.d) }
{
    let w = limited(&less(mass, sum), 1 << 60, Quantity::Lower, k + 1)?;
    let l = limited(&quotient(&w, by), 1 << 48, Quantity::Lower, k + 1)?;
    Ok(Pair { w, l })
}

// Writes W and L of row `k` at the place `c` of its list.
fn write_entry(
    model: &Model,
    mass: &Mass,
    k: usize,
    c: usize,
    sums: &[Wide<72>],
    by: &Divisor,
    out: &mut Factor,
) -> Result<(), OutOfRange>
    requires mass { masses.IsMass model.now mass.now }
    requires room { FactorRoom model.now out.old }
    requires dof { k < model.now.nv }
    requires place { c < height (above_in model.now) k }
    requires width { length sums.now ≡ 65 }
    requires sum { unsigned_abs (wide_at sums.now c) ≤ 2 ^ 116 }
    ensures room { FactorRoom model.now out.new }
    ensures names { out.new.above ≡ out.old.above }
    ensures pivots { out.new.d ≡ out.old.d }
    ensures work { OnOk result (number_at out.new.w (start (above_in model.now) k + c)
        ≡ spec.work_there model.now mass.now out.old.above sums.now k c) }
    ensures lower { OnOk result (number_at out.new.l (start (above_in model.now) k + c)
        ≡ spec.lower_there model.now mass.now out.old.above sums.now by.now.d k c) }
    ensures other_works { (p : ℕ) → p ≢ start (above_in model.now) k + c
        → number_at out.new.w p ≡ number_at out.old.w p }
    ensures other_lowers { (p : ℕ) → p ≢ start (above_in model.now) k + c
        → number_at out.new.l p ≡ number_at out.old.l p }
    ensures first { refusal_of result
        ≡ entry_fault k (spec.work_there model.now mass.now out.old.above sums.now k c)
        (spec.lower_there model.now mass.now out.old.above sums.now by.now.d k c) }
{
    let place = begin(model, out, k) + c;
    let i = named(model, out, k, c);
    let entry = entry(k, &mass_of(mass, model.nv, k, i), &sums[c], by)?;
    out.w.put(place, entry.w);
    out.l.put(place, entry.l);
    Ok(())
}

// Writes W and L of row `k`.
fn write_entries(
    model: &Model,
    mass: &Mass,
    k: usize,
    sums: &[Wide<72>],
    by: &Divisor,
    out: &mut Factor,
) -> Result<(), OutOfRange>
    requires mass { masses.IsMass model.now mass.now }
    requires room { FactorRoom model.now out.old }
    requires dof { k < model.now.nv }
    requires width { length sums.now ≡ 65 }
    requires sums { (c : ℕ) → c ≤ height (above_in model.now) k
        → unsigned_abs (wide_at sums.now c) ≤ 2 ^ 116 }
    ensures room { FactorRoom model.now out.new }
    ensures pivots { out.new.d ≡ out.old.d }
    ensures works { OnOk result ((c : ℕ) → c < height (above_in model.now) k
        → number_at out.new.w (start (above_in model.now) k + c)
        ≡ spec.work_there model.now mass.now out.old.above sums.now k c) }
    ensures lowers { OnOk result ((c : ℕ) → c < height (above_in model.now) k
        → number_at out.new.l (start (above_in model.now) k + c)
        ≡ spec.lower_there model.now mass.now out.old.above sums.now by.now.d k c) }
    ensures later_works { (p : ℕ) → start (above_in model.now) (k + 1) ≤ p
        → number_at out.new.w p ≡ number_at out.old.w p }
    ensures later_lowers { (p : ℕ) → start (above_in model.now) (k + 1) ≤ p
        → number_at out.new.l p ≡ number_at out.old.l p }
    ensures first { refusal_of result ≡ first_to (height (above_in model.now) k) (λ c.
        entry_fault k (spec.work_there model.now mass.now out.old.above sums.now k c)
        (spec.lower_there model.now mass.now out.old.above sums.now by.now.d k c)) }
{
    for c in 0..height(model, out, k) {
        write_entry(model, mass, k, c, sums, by, out)?;
    }
    Ok(())
}

// Makes row `k`, where the later rows are made.
fn factor_row(
    model: &Model,
    mass: &Mass,
    shift: &Fix<40>,
    k: usize,
    out: &mut Factor,
) -> Result<(), OutOfRange>
    requires mass { masses.IsMass model.now mass.now }
    requires shift { unsigned_abs shift.now.mid ≤ 2 ^ 60 }
    requires room { FactorRoom model.now out.old }
    requires dof { k < model.now.nv }
    requires rows { spec.HasRows shift.now.mid model.now mass.now (k + 1) out.old }
    ensures room { FactorRoom model.now out.new }
    ensures rows { OnOk result (spec.HasRows shift.now.mid model.now mass.now k out.new) }
    ensures first { refusal_of result
        ≡ row_fault model.now.nv (spec.shifted_mass shift.now.mid model.now mass.now) k }
{
    let mut sums = no_sums();
    add_rows(model, out, k, &mut sums);
    let last = height(model, out, k);
    let pivot = pivot(k, &diagonal(mass, model.nv, k, shift), &sums[last])?;
    out.d.put(k, pivot);
    write_entries(model, mass, k, &sums, &divisor(&pivot), out)?;
    Ok(())
}

/// The factor of the mass matrix, `M = L^T D L` (Featherstone, Rigid Body Dynamics Algorithms, chapter
/// 6): `W` at scale 40 and `L` at scale 32 for each dof and each dof above it, and the pivots `D` at
/// scale 40. Each sum is exact and is rounded once. Pivot where a pivot leaves 2^10 to 2^60, Lower
/// where a number of `W` passes 2^60 or one of `L` passes 2^48; rows are made from the last dof.
pub fn factor(model: &Model, mass: &Mass, out: &mut Factor) -> Result<(), OutOfRange>
    requires mass { masses.IsMass model.now mass.now }
    requires room { FactorRoom model.now out.old }
    ensures room { FactorRoom model.now out.new }
    ensures first { refusal_of result
        ≡ factor_fault model.now.nv (masses.mass_at model.now.nv mass.now.m) }
    ensures ranges { OnOk result (spec.IsFactor model.now out.new) }
    ensures pivots { OnOk result ((k : ℕ) → k < model.now.nv → number_at out.new.d k
        ≡ pivot model.now.nv (masses.mass_at model.now.nv mass.now.m) k) }
    ensures works { OnOk result ((k i : ℕ) → k < model.now.nv → i < k
        → spec.entry (above_in model.now) out.new.w k i
        ≡ work model.now.nv (masses.mass_at model.now.nv mass.now.m) k i) }
    ensures lowers { OnOk result ((k i : ℕ) → k < model.now.nv → i < k
        → spec.entry (above_in model.now) out.new.l k i
        ≡ lower model.now.nv (masses.mass_at model.now.nv mass.now.m) k i) }
{
    factor_less(model, mass, &Number { mid: 0, rad: () }, out)
}

/// The factor of the mass matrix less `shift` on its diagonal, as `factor` makes it.
pub fn factor_less(
    model: &Model,
    mass: &Mass,
    shift: &Fix<40>,
    out: &mut Factor,
) -> Result<(), OutOfRange>
    requires mass { masses.IsMass model.now mass.now }
    requires shift { unsigned_abs shift.now.mid ≤ 2 ^ 60 }
    requires room { FactorRoom model.now out.old }
    ensures room { FactorRoom model.now out.new }
    ensures first { refusal_of result
        ≡ factor_fault model.now.nv (spec.shifted_mass shift.now.mid model.now mass.now) }
    ensures ranges { OnOk result (spec.IsFactor model.now out.new) }
    ensures pivots { OnOk result ((k : ℕ) → k < model.now.nv → number_at out.new.d k
        ≡ pivot model.now.nv (spec.shifted_mass shift.now.mid model.now mass.now) k) }
    ensures works { OnOk result ((k i : ℕ) → k < model.now.nv → i < k
        → spec.entry (above_in model.now) out.new.w k i
        ≡ work model.now.nv (spec.shifted_mass shift.now.mid model.now mass.now) k i) }
    ensures lowers { OnOk result ((k i : ℕ) → k < model.now.nv → i < k
        → spec.entry (above_in model.now) out.new.l k i
        ≡ lower model.now.nv (spec.shifted_mass shift.now.mid model.now mass.now) k i) }
{
    for s in 0..model.nv {
        factor_row(model, mass, shift, model.nv - 1 - s, out)?;
    }
    Ok(())
}
