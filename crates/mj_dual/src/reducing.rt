// The reduction of one row to its entry of the dual.
ghost use Rattle.std.specs.Prelude.{◌≡◌, ℕ, length, ◌^◌, ◌<◌, ◌≤◌, unsigned_abs, IfOk, IfSome, OnOk};
ghost use Rattle.fx_whole.specs.First.{refusal_of};
ghost use Rattle.mj_types.specs.declared.range.Quantity.TheVariants as kind;
ghost use Rattle.mj_types.specs.Duals.{MayBeRow, MayBeSolved};
ghost use Rattle.mj_types.specs.Forests.{above_in};
ghost use Rattle.mj_types.specs.Parts.{number_at};
ghost use Rattle.mj_types.specs.States.{Fits};
ghost use Rattle.mj_factor.specs.Solves.{half, half_fault, HasRoots};
ghost use Rattle.mj_factor.specs.Stored.{IsFactor, entry};
ghost use Rattle.mj_rows.specs.Working.{IsReady};
ghost use Rattle.mj_dual.specs.Actives.{of_row};
ghost use Rattle.mj_dual.specs.Reductions as spec;

use crate::active::active;
use crate::numbers::{square_sum, within_regular};
use fx_num::{Fix, Wide};
use mj_factor::half_solve_by;
use mj_types::{DualRow, Factor, Model, OutOfRange, Quantity, Row, State};

// Half a solve of a row, whose faults are named by the row's number.
fn half(
    model: &Model,
    factor: &Factor,
    roots: &[Fix<32>],
    number: usize,
    jacobian: &[Fix<32>],
    out: &mut [Fix<24>],
) -> Result<(), OutOfRange>
    requires factor { IsFactor model.now factor.now }
    requires roots { HasRoots (number_at factor.now.d) roots.now }
    requires jacobian { length jacobian.now ≡ model.now.nv }
    requires out { length out.old ≡ model.now.nv }
    ensures value { OnOk result ((k : ℕ) → k < model.now.nv → number_at out.new k
        ≡ half model.now.nv (entry (above_in model.now) factor.now.l)
        (number_at factor.now.d) (number_at jacobian.now) k) }
    ensures small { OnOk result ((k : ℕ) → k < model.now.nv
        → unsigned_abs (number_at out.new k) ≤ 2 ^ 44) }
    ensures first { refusal_of result ≡ of_row kind.Reduced number
        (half_fault model.now.nv (entry (above_in model.now) factor.now.l)
        (number_at factor.now.d) (number_at jacobian.now)) }
{
    match half_solve_by(model, factor, roots, jacobian, out) {
        Ok(()) => Ok(()),
        Err(_) => Err(OutOfRange {
            kind: Quantity::Reduced,
            index: number,
        }),
    }
}

/// Whether a row of this diagonal entry is left out.
pub(crate) fn is_idle(diag: &Wide<48>) -> bool
    ensures { result ≡ spec.is_idle diag.now.raw }
{
    diag.raw < 1 << 28
}

/// Reduces a constraint's row by the factor of the mass matrix: `out` becomes `G = J L^-T D^-1/2`,
/// and the answer is what the dual holds of the row beside it; none where the row is idle, which is
/// where its diagonal entry `A_ii`, the sum of the squares of `G`, is below 2^-20 (MuJoCo
/// documentation, Computation, constraint model). The regularizer is `A_ii (1 - d) / d` at the
/// impedance `d`, and the right side is `J smooth` less the acceleration that the constraint asks
/// for. Each number is rounded once. A number out of range is named by the row's number: Reduced as
/// in half a solve; then, past 2^72 raw, Regularizer for `A_ii` and the regularizer; Reference
/// where `J v` passes 2^54 raw, or as in `reference`; DualVector where `J smooth` or the right side
/// passes 2^56 raw. An idle row has no number after `A_ii`. `roots` are the roots of the first
/// pivots; those of others are taken.
pub fn reduce(
    model: &Model,
    state: &State,
    factor: &Factor,
    roots: &[Fix<32>],
    smooth: &[Fix<32>],
    number: usize,
    row: &Row,
    jacobian: &[Fix<32>],
    out: &mut [Fix<24>],
) -> Result<Option<DualRow>, OutOfRange>
    requires fits { Fits model.now state.now }
    requires factor { IsFactor model.now factor.now }
    requires roots { HasRoots (number_at factor.now.d) roots.now }
    requires smooth { length smooth.now ≡ model.now.nv }
    requires accelerations { (k : ℕ) → k < model.now.nv
        → unsigned_abs (number_at smooth.now k) ≤ 2 ^ 56 }
    requires row { IsReady row.now }
    requires jacobian { length jacobian.now ≡ model.now.nv }
    requires entries { (k : ℕ) → k < model.now.nv
        → unsigned_abs (number_at jacobian.now k) ≤ 2 ^ 48 }
    requires out { length out.old ≡ model.now.nv }
    ensures value { IfOk result (λ x. x ≡ spec.row_entry number
        (spec.dynamics model.now state.now factor.now smooth.now) row.now
        (number_at jacobian.now)) }
    ensures numbers { OnOk result ((k : ℕ) → k < model.now.nv → number_at out.new k ≡ spec.reduced
        (spec.dynamics model.now state.now factor.now smooth.now) (number_at jacobian.now) k) }
    ensures lawful { IfOk result (λ x. IfSome x (λ e. MayBeRow model.now.nv out.new e)) }
    ensures solvable { IfOk result (λ x. IfSome x (λ e. MayBeSolved model.now.nv out.new e)) }
    ensures first { refusal_of result ≡ spec.reduction_fault number
        (spec.dynamics model.now state.now factor.now smooth.now) row.now.soft row.now.r.mid
        (number_at jacobian.now) }
{
    half(model, factor, roots, number, jacobian, out)?;
    let diag = within_regular(&square_sum(out), number)?;
    if is_idle(&diag) {
        return Ok(None);
    }
    let entry = active(model, state, smooth, number, row, jacobian, &diag)?;
    Ok(Some(entry))
}
