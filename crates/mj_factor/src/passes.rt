// The two passes of a solve: from the last dof to those above it, and back.
ghost use Rattle.std.specs.Prelude.{◌≡◌, ◌≢◌, ℕ, pos, ◌+◌, ◌^◌, ◌<◌, ◌≤◌, ◌+ℤ◌, ◌*ℤ◌, ◌≤ℤ◌, unsigned_abs, length, IfOk, OnOk};
ghost use Rattle.fx_whole.specs.First.{refusal_of, or_first, first_to};
ghost use Rattle.fx_whole.specs.Sums.{sum_to};
ghost use Rattle.mj_tree.specs.Listing.{height, start, listed};
ghost use Rattle.mj_types.specs.Duals.{wide_at};
ghost use Rattle.mj_types.specs.Forests.{above_in};
ghost use Rattle.mj_types.specs.Parts.{number_at};
ghost use Rattle.mj_types.specs.Ranges.{limited, first_down};
ghost use Rattle.mj_factor.specs.Solves.{back, forth, forth_entry, over_pivots, accel_fault};
ghost use Rattle.mj_factor.specs.Stored as spec;

use crate::lists::{begin, height, named};
use crate::numbers::{less, limited, no_sums, over_pivot, plus_product};
use fx_num::{Fix, Wide};
use mj_types::{Factor, Model, OutOfRange, Quantity};

// The greatest size of an acceleration.
const ACCEL: i64 = 1 << 56;

// Adds the entry at the place `c` of dof `k`'s list times `y` to the sum of the dof that it names.
fn add_at(model: &Model, factor: &Factor, k: usize, c: usize, y: &Fix<32>, sums: &mut [Wide<64>])
    requires factor { spec.IsFactor model.now factor.now }
    requires dof { k < model.now.nv }
    requires place { c < height (above_in model.now) k }
    requires width { length sums.old ≡ 65 }
    requires number { unsigned_abs y.now.mid ≤ 2 ^ 56 }
    requires sum { unsigned_abs (wide_at sums.old
        (listed (above_in model.now) factor.now.above k c)) ≤ 2 ^ 116 }
    ensures same { wide_at sums.new (listed (above_in model.now) factor.now.above k c)
        ≡ wide_at sums.old (listed (above_in model.now) factor.now.above k c)
        +ℤ number_at factor.now.l (start (above_in model.now) k + c) *ℤ y.now.mid }
    ensures others { (i : ℕ) → i ≢ listed (above_in model.now) factor.now.above k c
        → wide_at sums.new i ≡ wide_at sums.old i }
{
    let i = named(model, factor, k, c);
    sums[i] = plus_product(&sums[i], entry_of(model, factor, k, c), y);
}

// Adds the entries of row `k` times `y` to the sums of the dofs above.
fn add_listed(model: &Model, factor: &Factor, k: usize, y: &Fix<32>, sums: &mut [Wide<64>])
    requires factor { spec.IsFactor model.now factor.now }
    requires dof { k < model.now.nv }
    requires width { length sums.old ≡ 65 }
    requires number { unsigned_abs y.now.mid ≤ 2 ^ 56 }
    requires sums { (i : ℕ) → i < k → unsigned_abs (wide_at sums.old i) ≤ 2 ^ 116 }
    ensures { (i : ℕ) → wide_at sums.new i
        ≡ wide_at sums.old i +ℤ spec.entry (above_in model.now) factor.now.l k i *ℤ y.now.mid }
{
    for c in 0..height(model, factor, k) {
        add_at(model, factor, k, c, y, sums);
    }
}

// `add_listed`, which changes nothing where `y` is 0.
fn scatter(model: &Model, factor: &Factor, k: usize, y: &Fix<32>, sums: &mut [Wide<64>])
    requires factor { spec.IsFactor model.now factor.now }
    requires dof { k < model.now.nv }
    requires width { length sums.old ≡ 65 }
    requires number { unsigned_abs y.now.mid ≤ 2 ^ 56 }
    requires sums { (i : ℕ) → i < k → unsigned_abs (wide_at sums.old i) ≤ 2 ^ 116 }
    ensures { (i : ℕ) → wide_at sums.new i
        ≡ wide_at sums.old i +ℤ spec.entry (above_in model.now) factor.now.l k i *ℤ y.now.mid }
{
    if y.mid != 0 {
        add_listed(model, factor, k, y, sums);
    }
}

/// The number of dof `k` on the way back, from its right side and its sum. It is added to the sums of
/// the dofs above.
pub(crate) fn back_number(
    model: &Model,
    factor: &Factor,
    k: usize,
    x: &Fix<32>,
    limit: i64,
    kind: Quantity,
    sums: &mut [Wide<64>],
) -> Result<Fix<32>, OutOfRange>
    requires factor { spec.IsFactor model.now factor.now }
    requires dof { k < model.now.nv }
    requires width { length sums.old ≡ 65 }
    requires limit { pos 0 ≤ℤ limit }
    requires low_limit { unsigned_abs limit ≤ 2 ^ 56 }
    requires sums { (i : ℕ) → i ≤ k → unsigned_abs (wide_at sums.old i) ≤ 2 ^ 116 }
    ensures value { IfOk result (λ y. y.mid ≡ spec.less x.now.mid (wide_at sums.old k)) }
    ensures within { IfOk result (λ y. unsigned_abs y.mid ≤ unsigned_abs limit) }
    ensures sums { IfOk result (λ y. (i : ℕ) → wide_at sums.new i
        ≡ wide_at sums.old i +ℤ spec.entry (above_in model.now) factor.now.l k i *ℤ y.mid) }
    ensures first { refusal_of result
        ≡ limited kind (k + 1) (unsigned_abs limit) (spec.less x.now.mid (wide_at sums.old k)) }
{
    let y = limited(&less(x, &sums[k]), limit, kind, k + 1)?;
    scatter(model, factor, k, &y, sums);
    Ok(y)
}

/// The way back of a solve: from the last dof.
pub(crate) fn go_back(
    model: &Model,
    factor: &Factor,
    rhs: &[Fix<32>],
    out: &mut [Fix<32>],
) -> Result<(), OutOfRange>
    requires factor { spec.IsFactor model.now factor.now }
    requires rhs { length rhs.now ≡ model.now.nv }
    requires out { length out.old ≡ model.now.nv }
    ensures numbers { OnOk result ((k : ℕ) → k < model.now.nv → number_at out.new k
        ≡ back model.now.nv (spec.entry (above_in model.now) factor.now.l) (number_at rhs.now) k) }
    ensures small { OnOk result ((k : ℕ) → k < model.now.nv
        → unsigned_abs (number_at out.new k) ≤ 2 ^ 56) }
    ensures first { refusal_of result ≡ first_down model.now.nv (λ k. accel_fault k
        (back model.now.nv (spec.entry (above_in model.now) factor.now.l) (number_at rhs.now) k)) }
{
    let mut sums = no_sums();
    for s in 0..model.nv {
        let k = model.nv - 1 - s;
        let y = back_number(model, factor, k, &rhs[k], ACCEL, Quantity::Accel, &mut sums)?;
        out[k] = y;
    }
    Ok(())
}

// The sum of the entries of row `i` times the numbers of the dofs above.
fn gather(model: &Model, factor: &Factor, i: usize, a: &[Fix<32>]) -> Wide<64>
    requires factor { spec.IsFactor model.now factor.now }
    requires dof { i < model.now.nv }
    requires width { length a.now ≡ model.now.nv }
    requires small { (k : ℕ) → k < i → unsigned_abs (number_at a.now k) ≤ 2 ^ 56 }
    ensures sum { result.raw ≡ sum_to i (λ k.
        spec.entry (above_in model.now) factor.now.l i k *ℤ number_at a.now k) }
    ensures small { unsigned_abs result.raw ≤ 2 ^ 116 }
{
    let mut sum = Wide { raw: 0 };
    for c in 0..height(model, factor, i) {
        sum = plus_product(
            &sum,
            entry_of(model, factor, i, c),
            &a[named(model, factor, i, c)],
        );
    }
    sum
}

// The entry at the place `c` of dof `k`'s list.
fn entry_of<'a>(model: &Model, factor: &'a Factor, k: usize, c: usize) -> &'a Fix<32>
    requires factor { spec.IsFactor model.now factor.now }
    requires dof { k < model.now.nv }
    requires place { c < height (above_in model.now) k }
    ensures entry { result.now.mid ≡ number_at factor.now.l (start (above_in model.now) k + c) }
    ensures small { unsigned_abs result.now.mid ≤ 2 ^ 48 }
{
    factor.l.entry(begin(model, factor, k) + c)
}

// The number of dof `i` on the way forth, from its number of the way back and the answers of the dofs
// above.
fn forth_number(
    model: &Model,
    factor: &Factor,
    i: usize,
    a: &[Fix<32>],
) -> Result<Fix<32>, OutOfRange>
    requires factor { spec.IsFactor model.now factor.now }
    requires dof { i < model.now.nv }
    requires width { length a.now ≡ model.now.nv }
    requires small { (k : ℕ) → k < i → unsigned_abs (number_at a.now k) ≤ 2 ^ 56 }
    ensures value { IfOk result (λ x. x.mid ≡ forth_entry
        (spec.entry (above_in model.now) factor.now.l)
        (over_pivots (number_at factor.now.d) (number_at a.now)) (number_at a.now) i) }
    ensures within { IfOk result (λ x. unsigned_abs x.mid ≤ 2 ^ 56) }
    ensures first { refusal_of result ≡ or_first
        (accel_fault i (over_pivots (number_at factor.now.d) (number_at a.now) i))
        (accel_fault i (forth_entry (spec.entry (above_in model.now) factor.now.l)
        (over_pivots (number_at factor.now.d) (number_at a.now)) (number_at a.now) i)) }
{
    let over = over_pivot(&a[i], factor.d.entry(i));
    let z = limited(&over, ACCEL, Quantity::Accel, i + 1)?;
    let left = less(&z, &gather(model, factor, i, a));
    let x = limited(&left, ACCEL, Quantity::Accel, i + 1)?;
    Ok(x)
}

/// The way forth of a solve: `a` holds the numbers of the way back, and then the answers.
pub(crate) fn go_forth(model: &Model, factor: &Factor, a: &mut [Fix<32>]) -> Result<(), OutOfRange>
    requires factor { spec.IsFactor model.now factor.now }
    requires width { length a.old ≡ model.now.nv }
    ensures numbers { OnOk result ((i : ℕ) → i < model.now.nv → number_at a.new i
        ≡ forth (spec.entry (above_in model.now) factor.now.l)
        (over_pivots (number_at factor.now.d) (number_at a.old)) i) }
    ensures small { OnOk result ((i : ℕ) → i < model.now.nv
        → unsigned_abs (number_at a.new i) ≤ 2 ^ 56) }
    ensures first { refusal_of result ≡ first_to model.now.nv (λ i. or_first
        (accel_fault i (over_pivots (number_at factor.now.d) (number_at a.old) i))
        (accel_fault i (forth (spec.entry (above_in model.now) factor.now.l)
        (over_pivots (number_at factor.now.d) (number_at a.old)) i))) }
{
    for i in 0..model.nv {
        let x = forth_number(model, factor, i, a)?;
        a[i] = x;
    }
    Ok(())
}
