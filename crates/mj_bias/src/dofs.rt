// The bias force of each dof, from the wrench of the bodies that it moves.
ghost use Rattle.std.specs.Prelude.{◌≡◌, ℕ, ◌+◌, ◌<◌, ◌≤◌, ◌^◌, unsigned_abs, length, OnOk, IfOk};
ghost use Rattle.fx_num.specs.Radii.{radius_limit};
ghost use Rattle.fx_vec.specs.Sizes.{Within6};
ghost use Rattle.fx_vec.specs.Spatial.{pair};
ghost use Rattle.fx_vec.specs.Views.{spatial, spatial_radii};
ghost use Rattle.fx_vec.specs.Widths.{pair_width};
ghost use Rattle.fx_whole.specs.First.{refusal_of, first_to};
ghost use Rattle.mj_types.specs.Parts.{body_of};
ghost use Rattle.mj_types.specs.Placed.{spatial_at};
ghost use Rattle.mj_bias.specs.Measures as measure;
ghost use Rattle.mj_bias.specs.Steps as spec;
ghost use Rattle.mj_types.specs.Memory.{NumberFits, MotionFits, SumsFit};

use crate::numbers::exact6;
use crate::settling::{settle_number, settle_vector};
use fx_list::Array;
use fx_num::{Carry, Num, Plain, Sum, none};
use fx_vec::{Sp6, Sum6, pair_into};
use mj_types::{Model, OutOfRange, Quantity};

// The power of a force on a motion, exact.
fn power<K: Carry, const A: u32, const B: u32, const P: u32>(
    s: &Sp6<K, A>,
    f: &Sp6<K, B>,
) -> Sum<K, P>
    requires motions { MotionFits K.Rad.row }
    requires sums { SumsFit K.Wide.row }
    requires scale { P ≡ A + B }
    requires motion { measure.IsWithin (measure.numbers K.width s.now) (2 ^ 42) 0 }
    requires force { measure.IsWithin (measure.numbers K.width f.now) (2 ^ 62) radius_limit }
    ensures mid { result.mid ≡ pair (spatial s.now) (spatial f.now) }
    ensures width { K.wide_width result.rad ≡ pair_width (spatial s.now)
        (spatial_radii K.width s.now) (spatial f.now) (spatial_radii K.width f.now) }
{
    let mut sum = none::<K, P>();
    pair_into::<K, A, B, P>(s, f, &mut sum);
    sum
}

// The bias force of the dof at place `i`, from the wrench of its body and of all below.
pub(crate) fn force<K: Carry>(
    column: &Sp6<K, 32>,
    wrench: &Sum6<K, 72>,
    i: usize,
) -> Result<Num<K, 32>, OutOfRange>
    requires numbers { NumberFits K.Rad.row }
    requires motions { MotionFits K.Rad.row }
    requires sums { SumsFit K.Wide.row }
    requires index { i < 2 ^ 63 }
    requires column { measure.IsWithin (measure.numbers K.width column.now) (2 ^ 42) 0 }
    ensures value { IfOk result (λ r. r.mid ≡ spec.force_there (measure.numbers K.width column.now)
        (spec.load_there K.settled (measure.totals K.wide_width wrench.now))) }
    ensures radius { IfOk result (λ r. K.width r.rad ≡ spec.force_radius_there K.settled
        (measure.numbers K.width column.now)
        (spec.load_there K.settled (measure.totals K.wide_width wrench.now))) }
    ensures within { IfOk result (λ r. unsigned_abs r.mid ≤ 2 ^ 52) }
    ensures small { IfOk result (λ r. K.width r.rad ≤ radius_limit) }
    ensures first { refusal_of result ≡ spec.force_fault_there K.settled
        (measure.numbers K.width column.now) (measure.totals K.wide_width wrench.now) i }
{
    let load = settle_vector::<K, 72, 40>(wrench, 1 << 62, Quantity::Bias, i + 1)?;
    let sum = power::<K, 32, 40, 72>(column, &load);
    let force = settle_number::<K, 72, 32>(&sum, 1 << 52, Quantity::Bias, i + 1)?;
    Ok(force)
}

/// Makes the bias force of each dof.
pub(crate) fn make_forces<K: Carry>(
    model: &Model,
    column: &Array<Sp6<Plain, 32>>,
    wrench: &Array<Sum6<K, 72>>,
    c: &mut Array<Num<K, 32>>,
) -> Result<(), OutOfRange>
    requires numbers { NumberFits K.Rad.row }
    requires motions { MotionFits K.Rad.row }
    requires sums { SumsFit K.Wide.row }
    requires column { length column.now ≡ model.now.nv }
    requires wrench { length wrench.now ≡ length model.now.bodies + 1 }
    requires c { length c.old ≡ model.now.nv }
    requires columns { (i : ℕ) → i < model.now.nv
        → Within6 (spatial_at column.now i) (2 ^ 42) }
    ensures len { length c.new ≡ length c.old }
    ensures values { OnOk result (spec.Holds K.width model.now.nv c.new
        (λ i. spec.force_there (measure.exact (spatial_at column.now i))
        (spec.load_there K.settled
        (measure.totals_at K.wide_width wrench.now (body_of model.now.dofs i))))
        (λ i. spec.force_radius_there K.settled (measure.exact (spatial_at column.now i))
        (spec.load_there K.settled
        (measure.totals_at K.wide_width wrench.now (body_of model.now.dofs i))))) }
    ensures small { OnOk result (spec.AreSmall K.width model.now.nv c.new) }
    ensures first { refusal_of result ≡ first_to model.now.nv (λ i. spec.force_fault_there K.settled
        (measure.exact (spatial_at column.now i))
        (measure.totals_at K.wide_width wrench.now (body_of model.now.dofs i)) i) }
{
    for i in 0..model.nv {
        let body = model.dofs.entry(i).body;
        let column = exact6::<K>(column.entry(i));
        let force = force::<K>(&column, wrench.entry(body), i)?;
        c.put(i, force);
    }
    Ok(())
}
