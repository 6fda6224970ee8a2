// A row whose diagonal entry is known: its regularizer, its right side, and its entry of the dual.
ghost use Rattle.std.specs.Prelude.{◌≡◌, ℕ, pos, length, ◌^◌, ◌<◌, ◌≤◌, ◌-ℤ◌, ◌<ℤ◌, ◌≤ℤ◌, unsigned_abs, IfOk};
ghost use Rattle.fx_whole.specs.First.{or_first, refusal_of};
ghost use Rattle.mj_types.specs.declared.range.Quantity.TheVariants as kind;
ghost use Rattle.mj_types.specs.Duals.{IsWithinRanges};
ghost use Rattle.mj_types.specs.Lawful.{IsSoft};
ghost use Rattle.mj_types.specs.Parts.{number_at};
ghost use Rattle.mj_types.specs.Ranges as ranges;
ghost use Rattle.mj_types.specs.States.{Fits};
ghost use Rattle.mj_rows.specs.Working.{IsReady};
ghost use Rattle.mj_imp.specs.Impedance as imp;
ghost use Rattle.mj_imp.specs.Reference as solref;
ghost use Rattle.mj_dual.specs.Products.{along};
ghost use Rattle.mj_dual.specs.Actives as spec;

use crate::numbers::{along, limited, within_regular};
use fx_num::{Fix, Wide};
use fx_whole::{difference, nearest, wide_product};
use mj_imp::{impedance, reference};
use mj_types::{DualRow, Model, OutOfRange, Quantity, Row, State};

/// `A_ii (1 - d) / d`.
pub(crate) fn regularizer(diag: &Wide<48>, d: &Fix<32>) -> Wide<48>
    requires low { pos 0 ≤ℤ diag.now.raw }
    requires diag { diag.now.raw ≤ℤ pos (2 ^ 72) }
    requires some { pos 0 <ℤ d.now.mid }
    requires below_one { d.now.mid <ℤ imp.one }
    ensures { result.raw ≡ spec.regularizer diag.now.raw d.now.mid }
{
    Wide {
        raw: nearest(
            wide_product(diag.raw, (1 << 32) - i128::from(d.mid)),
            i128::from(d.mid),
        ),
    }
}

/// The acceleration that a constraint asks for.
pub(crate) fn wanted(
    number: usize,
    row: &Row,
    d: &Fix<32>,
    jacobian: &[Fix<32>],
    v: &[Fix<32>],
) -> Result<Fix<32>, OutOfRange>
    requires soft { IsSoft row.now.soft }
    requires r { unsigned_abs row.now.r.mid ≤ 2 ^ 56 }
    requires some { pos 0 <ℤ d.now.mid }
    requires below_one { d.now.mid <ℤ imp.one }
    requires few { length jacobian.now ≤ 64 }
    requires width { length v.now ≡ length jacobian.now }
    requires jacobian { (k : ℕ) → k < length jacobian.now
        → unsigned_abs (number_at jacobian.now k) ≤ 2 ^ 48 }
    requires velocities { (k : ℕ) → k < length jacobian.now
        → unsigned_abs (number_at v.now k) ≤ 2 ^ 56 }
    ensures value { IfOk result (λ x. x.mid ≡ solref.reference row.now.soft d.now.mid
        row.now.r.mid (along (length jacobian.now) (number_at jacobian.now)
        (number_at v.now))) }
    ensures within { IfOk result (λ x. unsigned_abs x.mid ≤ 2 ^ 54) }
    ensures first { refusal_of result ≡ or_first
        (ranges.limited kind.Reference number (2 ^ 54) (along (length jacobian.now)
        (number_at jacobian.now) (number_at v.now)))
        (spec.of_row kind.Reference number (solref.reference_over row.now.soft d.now.mid
        row.now.r.mid (along (length jacobian.now) (number_at jacobian.now)
        (number_at v.now)))) }
{
    let jv = limited(&along(jacobian, v), 1 << 54, Quantity::Reference, number)?;
    match reference(&row.soft, *d, row.r, jv) {
        Ok(x) => Ok(x),
        Err(_) => Err(OutOfRange {
            kind: Quantity::Reference,
            index: number,
        }),
    }
}

// `ja - wanted`.
fn less(ja: &Fix<32>, wanted: &Fix<32>) -> Wide<32>
    ensures { result.raw ≡ ja.now.mid -ℤ wanted.now.mid }
{
    Wide {
        raw: difference(i128::from(ja.mid), i128::from(wanted.mid)),
    }
}

/// The acceleration along a row without constraints, less the one that the constraint asks for.
pub(crate) fn right_side(
    number: usize,
    wanted: &Fix<32>,
    jacobian: &[Fix<32>],
    smooth: &[Fix<32>],
) -> Result<Fix<32>, OutOfRange>
    requires few { length jacobian.now ≤ 64 }
    requires width { length smooth.now ≡ length jacobian.now }
    requires jacobian { (k : ℕ) → k < length jacobian.now
        → unsigned_abs (number_at jacobian.now k) ≤ 2 ^ 48 }
    requires accelerations { (k : ℕ) → k < length jacobian.now
        → unsigned_abs (number_at smooth.now k) ≤ 2 ^ 56 }
    ensures value { IfOk result (λ x. x.mid ≡ along (length jacobian.now)
        (number_at jacobian.now) (number_at smooth.now) -ℤ wanted.now.mid) }
    ensures within { IfOk result (λ x. unsigned_abs x.mid ≤ 2 ^ 56) }
    ensures first { refusal_of result ≡ or_first
        (ranges.limited kind.DualVector number (2 ^ 56) (along (length jacobian.now)
        (number_at jacobian.now) (number_at smooth.now)))
        (ranges.limited kind.DualVector number (2 ^ 56) (along (length jacobian.now)
        (number_at jacobian.now) (number_at smooth.now) -ℤ wanted.now.mid)) }
{
    let ja = limited(
        &along(jacobian, smooth),
        1 << 56,
        Quantity::DualVector,
        number,
    )?;
    let b = limited(&less(&ja, wanted), 1 << 56, Quantity::DualVector, number)?;
    Ok(b)
}

/// What the dual holds of a row.
pub(crate) fn dual_row(
    number: usize,
    row: &Row,
    diag: &Wide<48>,
    r: &Wide<48>,
    b: &Fix<32>,
) -> DualRow
    ensures { result ≡ record {
      place = number;
      diag = diag.now;
      r = r.now;
      b = b.now;
      low = row.now.low;
      high = row.now.high;
    } }
{
    DualRow {
        place: number,
        diag: *diag,
        r: *r,
        b: *b,
        low: row.low,
        high: row.high,
    }
}

/// The entry of a row that isn't idle.
pub(crate) fn active(
    model: &Model,
    state: &State,
    smooth: &[Fix<32>],
    number: usize,
    row: &Row,
    jacobian: &[Fix<32>],
    diag: &Wide<48>,
) -> Result<DualRow, OutOfRange>
    requires fits { Fits model.now state.now }
    requires row { IsReady row.now }
    requires jacobian { length jacobian.now ≡ model.now.nv }
    requires numbers { (k : ℕ) → k < model.now.nv
        → unsigned_abs (number_at jacobian.now k) ≤ 2 ^ 48 }
    requires smooth { length smooth.now ≡ model.now.nv }
    requires accelerations { (k : ℕ) → k < model.now.nv
        → unsigned_abs (number_at smooth.now k) ≤ 2 ^ 56 }
    requires some { pos (2 ^ 28) ≤ℤ diag.now.raw }
    requires diag { diag.now.raw ≤ℤ pos (2 ^ 72) }
    ensures value { IfOk result (λ x. x ≡ spec.active_entry number
        (spec.motion model.now state.now smooth.now) diag.now.raw row.now
        (number_at jacobian.now)) }
    ensures ranges { IfOk result (λ x. IsWithinRanges x) }
    ensures solvable { IfOk result (λ x. spec.MayBeSolvedBy diag.now.raw x) }
    ensures first { refusal_of result ≡ spec.active_fault number
        (spec.motion model.now state.now smooth.now) diag.now.raw row.now.soft
        row.now.r.mid (number_at jacobian.now) }
{
    let d = impedance(&row.soft, row.r);
    let r = within_regular(&regularizer(diag, &d), number)?;
    let wanted = wanted(number, row, &d, jacobian, state.v.as_slice())?;
    let b = right_side(number, &wanted, jacobian, smooth)?;
    Ok(dual_row(number, row, diag, &r, &b))
}
