// Solves by a factor.
ghost use Rattle.std.specs.Prelude.{◌≡◌, ℕ, ◌^◌, ◌<◌, ◌≤◌, ◌+ℤ◌, ◌*ℤ◌, unsigned_abs, length, IfOk, OnOk};
ghost use Rattle.fx_whole.specs.First.{refusal_of};
ghost use Rattle.mj_types.specs.Duals.{wide_at};
ghost use Rattle.mj_types.specs.Forests.{above_in};
ghost use Rattle.mj_types.specs.Parts.{number_at};
ghost use Rattle.mj_factor.specs.Stored.{IsFactor, entry, less};
ghost use Rattle.mj_factor.specs.Solves as spec;

use crate::numbers::{limited, no_sums, over_root, pivot_root};
use crate::passes::{back_number, go_back, go_forth};
use fx_list::Array;
use fx_num::{Fix, Wide};
use mj_types::{Factor, Model, OutOfRange, Quantity};

/// The accelerations `a` at scale 32 with `M a = rhs`, where `factor` is that of `M` (Featherstone,
/// Rigid Body Dynamics Algorithms, chapter 6). Each sum is exact and is rounded once. Accel where a
/// number passes 2^56: on the way back from the last dof, and then `y / D` and `a` of each dof.
pub fn solve(
    model: &Model,
    factor: &Factor,
    rhs: &[Fix<32>],
    out: &mut [Fix<32>],
) -> Result<(), OutOfRange>
    requires factor { IsFactor model.now factor.now }
    requires rhs { length rhs.now ≡ model.now.nv }
    requires out { length out.old ≡ model.now.nv }
    ensures value { OnOk result ((i : ℕ) → i < model.now.nv → number_at out.new i
        ≡ spec.solution model.now.nv (entry (above_in model.now) factor.now.l)
        (number_at factor.now.d) (number_at rhs.now) i) }
    ensures small { OnOk result ((i : ℕ) → i < model.now.nv
        → unsigned_abs (number_at out.new i) ≤ 2 ^ 56) }
    ensures first { refusal_of result ≡ spec.solve_fault model.now.nv
        (entry (above_in model.now) factor.now.l) (number_at factor.now.d) (number_at rhs.now) }
{
    go_back(model, factor, rhs, out)?;
    go_forth(model, factor, out)?;
    Ok(())
}

/// The roots of the pivots, at scale 32, each rounded down: with them many rows are half solved by
/// one factor.
pub fn pivot_roots(model: &Model, factor: &Factor, roots: &mut Array<Fix<32>>)
    requires factor { IsFactor model.now factor.now }
    requires room { length roots.old ≡ model.now.nv }
    ensures len { length roots.new ≡ length roots.old }
    ensures roots { spec.HasRoots (number_at factor.now.d) roots.new }
{
    for k in 0..model.nv {
        roots.put(k, root_of(model, factor, k));
    }
}

// The root of the pivot of dof `k`.
fn root_of(model: &Model, factor: &Factor, k: usize) -> Fix<32>
    requires factor { IsFactor model.now factor.now }
    requires dof { k < model.now.nv }
    ensures { result.mid ≡ spec.pivot_root (number_at factor.now.d k) }
{
    pivot_root(factor.d.entry(k))
}

// The root of the pivot of dof `k`, which is taken where it isn't given.
fn root_at(model: &Model, factor: &Factor, roots: &[Fix<32>], k: usize) -> Fix<32>
    requires factor { IsFactor model.now factor.now }
    requires roots { spec.HasRoots (number_at factor.now.d) roots.now }
    requires dof { k < model.now.nv }
    ensures { result.mid ≡ spec.pivot_root (number_at factor.now.d k) }
{
    if k < roots.len() {
        roots[k]
    } else {
        root_of(model, factor, k)
    }
}

// The number of dof `k` in half a solve.
fn half_number(
    model: &Model,
    factor: &Factor,
    roots: &[Fix<32>],
    k: usize,
    x: &Fix<32>,
    sums: &mut [Wide<64>],
) -> Result<Fix<24>, OutOfRange>
    requires factor { IsFactor model.now factor.now }
    requires roots { spec.HasRoots (number_at factor.now.d) roots.now }
    requires dof { k < model.now.nv }
    requires width { length sums.old ≡ 65 }
    requires sums { (i : ℕ) → i ≤ k → unsigned_abs (wide_at sums.old i) ≤ 2 ^ 116 }
    ensures value { IfOk result (λ g. g.mid
        ≡ spec.reduced (less x.now.mid (wide_at sums.old k)) (number_at factor.now.d k)) }
    ensures within { IfOk result (λ g. unsigned_abs g.mid ≤ 2 ^ 44) }
    ensures back { OnOk result (unsigned_abs (less x.now.mid (wide_at sums.old k)) ≤ 2 ^ 56) }
    ensures sums { OnOk result ((i : ℕ) → wide_at sums.new i ≡ wide_at sums.old i
        +ℤ entry (above_in model.now) factor.now.l k i *ℤ less x.now.mid (wide_at sums.old k)) }
    ensures first { refusal_of result ≡ spec.reduced_fault k (less x.now.mid (wide_at sums.old k))
        (spec.reduced (less x.now.mid (wide_at sums.old k)) (number_at factor.now.d k)) }
{
    let y = back_number(model, factor, k, x, 1 << 48, Quantity::Reduced, sums)?;
    let root = root_at(model, factor, roots, k);
    let g = limited(&over_root(&y, &root), 1 << 44, Quantity::Reduced, k + 1)?;
    Ok(g)
}

/// `half_solve`, where `roots` are the roots of the first pivots; those of others are taken.
pub fn half_solve_by(
    model: &Model,
    factor: &Factor,
    roots: &[Fix<32>],
    row: &[Fix<32>],
    out: &mut [Fix<24>],
) -> Result<(), OutOfRange>
    requires factor { IsFactor model.now factor.now }
    requires roots { spec.HasRoots (number_at factor.now.d) roots.now }
    requires row { length row.now ≡ model.now.nv }
    requires out { length out.old ≡ model.now.nv }
    ensures value { OnOk result ((k : ℕ) → k < model.now.nv → number_at out.new k
        ≡ spec.half model.now.nv (entry (above_in model.now) factor.now.l)
        (number_at factor.now.d) (number_at row.now) k) }
    ensures small { OnOk result ((k : ℕ) → k < model.now.nv
        → unsigned_abs (number_at out.new k) ≤ 2 ^ 44) }
    ensures first { refusal_of result ≡ spec.half_fault model.now.nv
        (entry (above_in model.now) factor.now.l) (number_at factor.now.d) (number_at row.now) }
{
    let mut sums = no_sums();
    for s in 0..model.nv {
        let k = model.nv - 1 - s;
        let g = half_number(model, factor, roots, k, &row[k], &mut sums)?;
        out[k] = g;
    }
    Ok(())
}

/// Half a solve of a row `x`: `G` at scale 24 with `G G^T = x M^-1 x^T`, which is `y / sqrt D` for
/// `L^T y = x` (Featherstone, Rigid Body Dynamics Algorithms, chapter 6). Each sum is exact and is
/// rounded once, and the root of each pivot is the whole one. Reduced where `y` passes 2^48 or `G`
/// passes 2^44, dof after dof from the last.
pub fn half_solve(
    model: &Model,
    factor: &Factor,
    row: &[Fix<32>],
    out: &mut [Fix<24>],
) -> Result<(), OutOfRange>
    requires factor { IsFactor model.now factor.now }
    requires row { length row.now ≡ model.now.nv }
    requires out { length out.old ≡ model.now.nv }
    ensures value { OnOk result ((k : ℕ) → k < model.now.nv → number_at out.new k
        ≡ spec.half model.now.nv (entry (above_in model.now) factor.now.l)
        (number_at factor.now.d) (number_at row.now) k) }
    ensures small { OnOk result ((k : ℕ) → k < model.now.nv
        → unsigned_abs (number_at out.new k) ≤ 2 ^ 44) }
    ensures first { refusal_of result ≡ spec.half_fault model.now.nv
        (entry (above_in model.now) factor.now.l) (number_at factor.now.d) (number_at row.now) }
{
    half_solve_by(model, factor, &[], row, out)
}
