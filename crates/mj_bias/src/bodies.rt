// The wrench that moves each body, from the sums over the dofs that move it.
ghost use Rattle.std.specs.Prelude.{◌≡◌, ◌≢◌, ℕ, ◌+◌, ◌<◌, ◌≤◌, ◌^◌, unsigned_abs, length, IsTrue, OnOk, IfOk};
ghost use Rattle.fx_num.specs.Radii.{radius_limit};
ghost use Rattle.fx_vec.specs.Sizes.{Within};
ghost use Rattle.fx_vec.specs.Views as view;
ghost use Rattle.fx_whole.specs.First.{refusal_of, first_to};
ghost use Rattle.mj_types.specs.Memory.{NumberFits, MotionFits, SumsFit};
ghost use Rattle.mj_types.specs.Placed.{AreFrames, WithinInertia, inertia_at};
ghost use Rattle.mj_types.specs.Ranges.{is_within};
ghost use Rattle.mj_types.specs.Parts.{body};
ghost use Rattle.mj_bias.specs.Carried as carried;
ghost use Rattle.mj_bias.specs.Faults.{is_within3, is_within6};
ghost use Rattle.mj_bias.specs.Measures as measure;
ghost use Rattle.mj_bias.specs.Steps as spec;

use crate::numbers::{add_multiple, exact3, minus_one, no_sums, no_vector};
use crate::settling::settle_vector;
use fx_list::Array;
use fx_num::{Carry, Plain};
use fx_vec::{
    Inertia10, Sp6, Sum6, Total3, Total6, V3, Vector6, force_cross_into, short_inertia_into,
};
use mj_types::{Frames, Model, OutOfRange, Quantity};

// Whether a number is at most 2^118 in size.
fn is_small(x: &i128) -> bool
    ensures { result ≡ is_within (2 ^ 118) x.now }
{
    x.unsigned_abs() <= 1 << 118
}

fn is_small3<W, const P: u32>(s: &Total3<W, P>) -> bool
    ensures { result ≡ is_within3 (2 ^ 118) (view.sums s.now) }
{
    is_small(&s.x.mid) && is_small(&s.y.mid) && is_small(&s.z.mid)
}

fn is_small6<W, const P: u32>(s: &Total6<W, P>) -> bool
    ensures { result ≡ is_within6 (2 ^ 118) (view.spatial_sums s.now) }
{
    is_small3(&s.ang) && is_small3(&s.lin)
}

// The motion (0; gravity).
fn fall<K: Carry>(gravity: &V3<Plain, 32>) -> Sp6<K, 32>
    requires numbers { NumberFits K.Rad.row }
    ensures { measure.numbers K.width result
        ≡ measure.exact (spec.fall_of (view.mids gravity.now)) }
{
    Vector6 {
        ang: exact3::<K>(&no_vector()),
        lin: exact3::<K>(gravity),
    }
}

// Whether dof `j` is of body `k` and its base is itself, so that what moved the body before carries it.
fn begins_body(model: &Model, j: usize, k: usize) -> bool
    ensures { IsTrue result → carried.BeginsBody model.now j k }
{
    j < model.nv && model.dofs.entry(j).base == j && model.dofs.entry(j).body == k
}

// Whether the motion of body `k` is what carries the first dof of the next body, as mostly in a chain.
fn carries_next(model: &Model, k: usize) -> bool
    ensures { IsTrue result → carried.CarriesNext model.now k }
{
    k < model.bodies.len()
        && model.bodies.entry(k).parent == k
        && begins_body(model, model.bodies.entry(k).dofadr, k + 1)
}

// The velocity of body `k`: what carries the first dof of the next body, where that is the same, and
// else the sum of its motions, rounded.
fn velocity<K: Carry>(
    model: &Model,
    turn: &Array<Sp6<K, 32>>,
    motion: &Sum6<K, 64>,
    k: usize,
) -> Result<Sp6<K, 32>, OutOfRange>
    requires motions { MotionFits K.Rad.row }
    requires sums { SumsFit K.Wide.row }
    requires turns { length turn.now ≡ model.now.nv }
    requires shared { carried.CarriesNext model.now k → carried.IsVelocity K.settled
        (measure.totals K.wide_width motion.now)
        (measure.numbers_at K.width turn.now (body model.now.bodies k).dofadr) }
    ensures value { IfOk result (λ r. measure.numbers K.width r
        ≡ spec.velocity_there K.settled (measure.totals K.wide_width motion.now)) }
    ensures within { IfOk result (λ r.
        measure.IsWithin (measure.numbers K.width r) (2 ^ 48) radius_limit) }
    ensures first { refusal_of result ≡ measure.measure_fault Quantity.BodyMotion k (2 ^ 48)
        (spec.velocity_there K.settled (measure.totals K.wide_width motion.now)) }
{
    if carries_next(model, k) {
        Ok(turn.at(model.bodies.entry(k).dofadr))
    } else {
        settle_vector::<K, 64, 32>(motion, 1 << 48, Quantity::BodyMotion, k)
    }
}

// The acceleration of body `k` from the sum of its drifts.
fn acceleration<K: Carry>(
    gravity: &V3<Plain, 32>,
    drift: &Sum6<K, 64>,
    k: usize,
) -> Result<Sp6<K, 32>, OutOfRange>
    requires numbers { NumberFits K.Rad.row }
    requires motions { MotionFits K.Rad.row }
    requires sums { SumsFit K.Wide.row }
    requires gravity { Within (view.mids gravity.now) (2 ^ 42) }
    requires drift { measure.IsWithin (measure.totals K.wide_width drift.now) (2 ^ 110) (2 ^ 100) }
    ensures value { IfOk result (λ r. measure.numbers K.width r ≡ spec.acceleration_there K.settled
        (view.mids gravity.now) (measure.totals K.wide_width drift.now)) }
    ensures within { IfOk result (λ r.
        measure.IsWithin (measure.numbers K.width r) (2 ^ 56) radius_limit) }
    ensures first { refusal_of result ≡ measure.measure_fault Quantity.BodyMotion k (2 ^ 56)
        (spec.acceleration_there K.settled (view.mids gravity.now)
        (measure.totals K.wide_width drift.now)) }
{
    let mut sum = *drift;
    add_multiple::<K>(&minus_one(), &fall::<K>(gravity), &mut sum);
    settle_vector::<K, 64, 32>(&sum, 1 << 56, Quantity::BodyMotion, k)
}

// The momentum of body `k`.
fn momentum<K: Carry>(
    inertia: &Inertia10,
    v: &Sp6<K, 32>,
    k: usize,
) -> Result<Sp6<K, 40>, OutOfRange>
    requires motions { MotionFits K.Rad.row }
    requires sums { SumsFit K.Wide.row }
    requires inertia { WithinInertia (view.inertia inertia.now) (2 ^ 62) }
    requires velocity { measure.IsWithin (measure.numbers K.width v.now) (2 ^ 48) radius_limit }
    ensures value { IfOk result (λ r. measure.numbers K.width r ≡ spec.momentum_there K.settled
        (view.inertia inertia.now) (measure.numbers K.width v.now)) }
    ensures within { IfOk result (λ r.
        measure.IsWithin (measure.numbers K.width r) (2 ^ 62) radius_limit) }
    ensures first { refusal_of result ≡ measure.measure_fault Quantity.BodyMotion k (2 ^ 62)
        (spec.momentum_there K.settled (view.inertia inertia.now)
        (measure.numbers K.width v.now)) }
{
    let mut sum = no_sums::<K, 72>();
    short_inertia_into::<K, 32, 72>(inertia, v, &mut sum);
    settle_vector::<K, 72, 40>(&sum, 1 << 62, Quantity::BodyMotion, k)
}

// The wrench I a + v x* p.
fn wrench<K: Carry>(
    inertia: &Inertia10,
    a: &Sp6<K, 32>,
    v: &Sp6<K, 32>,
    p: &Sp6<K, 40>,
) -> Sum6<K, 72>
    requires motions { MotionFits K.Rad.row }
    requires sums { SumsFit K.Wide.row }
    requires inertia { WithinInertia (view.inertia inertia.now) (2 ^ 62) }
    requires acceleration { measure.IsWithin (measure.numbers K.width a.now) (2 ^ 56) radius_limit }
    requires velocity { measure.IsWithin (measure.numbers K.width v.now) (2 ^ 48) radius_limit }
    requires momentum { measure.IsWithin (measure.numbers K.width p.now) (2 ^ 62) radius_limit }
    ensures value { measure.totals K.wide_width result ≡ spec.wrench_there
        (view.inertia inertia.now) (measure.numbers K.width a.now) (measure.numbers K.width v.now)
        (measure.numbers K.width p.now) }
    ensures width { measure.IsNarrow (measure.totals K.wide_width result) (2 ^ 106) }
{
    let mut sum = no_sums::<K, 72>();
    short_inertia_into::<K, 32, 72>(inertia, a, &mut sum);
    force_cross_into::<K, 32, 40, 72>(v, p, &mut sum);
    sum
}

// The wrench of body `k` from its sums.
fn body_wrench<K: Carry>(
    model: &Model,
    turn: &Array<Sp6<K, 32>>,
    inertia: &Inertia10,
    gravity: &V3<Plain, 32>,
    motion: &Sum6<K, 64>,
    drift: &Sum6<K, 64>,
    k: usize,
) -> Result<Sum6<K, 72>, OutOfRange>
    requires numbers { NumberFits K.Rad.row }
    requires motions { MotionFits K.Rad.row }
    requires sums { SumsFit K.Wide.row }
    requires turns { length turn.now ≡ model.now.nv }
    requires shared { carried.CarriesNext model.now k → carried.IsVelocity K.settled
        (measure.totals K.wide_width motion.now)
        (measure.numbers_at K.width turn.now (body model.now.bodies k).dofadr) }
    requires inertia { WithinInertia (view.inertia inertia.now) (2 ^ 62) }
    requires gravity { Within (view.mids gravity.now) (2 ^ 42) }
    requires drift { measure.IsWithin (measure.totals K.wide_width drift.now) (2 ^ 110) (2 ^ 100) }
    ensures value { IfOk result (λ r. measure.totals K.wide_width r ≡ spec.body_wrench_there
        K.settled (view.mids gravity.now) (view.inertia inertia.now)
        (measure.totals K.wide_width motion.now) (measure.totals K.wide_width drift.now)) }
    ensures within { IfOk result (λ r.
        measure.IsWithin (measure.totals K.wide_width r) (2 ^ 118) (2 ^ 106)) }
    ensures first { refusal_of result ≡ spec.body_fault_there K.settled (view.mids gravity.now)
        (view.inertia inertia.now) (measure.totals K.wide_width motion.now)
        (measure.totals K.wide_width drift.now) k }
{
    let v = velocity::<K>(model, turn, motion, k)?;
    let a = acceleration::<K>(gravity, drift, k)?;
    let p = momentum::<K>(inertia, &v, k)?;
    let force = wrench::<K>(inertia, &a, &v, &p);
    OutOfRange::unless(is_small6(&force), Quantity::Wrench, k)?;
    Ok(force)
}

/// Makes the wrench of each body from its sums, and that of the world, which is none.
pub(crate) fn weigh_bodies<K: Carry>(
    model: &Model,
    frames: &Frames,
    turn: &Array<Sp6<K, 32>>,
    motion: &Array<Sum6<K, 64>>,
    drift: &Array<Sum6<K, 64>>,
    wrench: &mut Array<Sum6<K, 72>>,
) -> Result<(), OutOfRange>
    requires numbers { NumberFits K.Rad.row }
    requires motions { MotionFits K.Rad.row }
    requires sums { SumsFit K.Wide.row }
    requires frames { AreFrames model.now frames.now }
    requires motion { length motion.now ≡ length model.now.bodies + 1 }
    requires drift { length drift.now ≡ length model.now.bodies + 1 }
    requires wrench { length wrench.old ≡ length model.now.bodies + 1 }
    requires turns { length turn.now ≡ model.now.nv }
    requires shared { (k : ℕ) → carried.CarriesNext model.now k → carried.IsVelocity K.settled
        (measure.totals_at K.wide_width motion.now k)
        (measure.numbers_at K.width turn.now (body model.now.bodies k).dofadr) }
    requires drifts { (k : ℕ) → k ≤ length model.now.bodies
        → measure.IsWithin (measure.totals_at K.wide_width drift.now k) (2 ^ 110) (2 ^ 100) }
    ensures len { length wrench.new ≡ length wrench.old }
    ensures world { OnOk result
        (measure.totals_at K.wide_width wrench.new 0 ≡ measure.no_measure) }
    ensures wrenches { OnOk result ((b : ℕ) → b < length model.now.bodies
        → measure.totals_at K.wide_width wrench.new (b + 1) ≡ spec.body_wrench_there K.settled
        (view.mids model.now.gravity) (inertia_at frames.now.inertia b)
        (measure.totals_at K.wide_width motion.now (b + 1))
        (measure.totals_at K.wide_width drift.now (b + 1))) }
    ensures within { OnOk result ((b : ℕ) → b < length model.now.bodies
        → measure.IsWithin (measure.totals_at K.wide_width wrench.new (b + 1))
        (2 ^ 118) (2 ^ 106)) }
    ensures first { refusal_of result ≡ first_to (length model.now.bodies) (λ b.
        spec.body_fault_there K.settled
        (view.mids model.now.gravity) (inertia_at frames.now.inertia b)
        (measure.totals_at K.wide_width motion.now (b + 1))
        (measure.totals_at K.wide_width drift.now (b + 1)) (b + 1)) }
{
    wrench.put(0, no_sums::<K, 72>());
    for b in 0..model.bodies.len() {
        let force = body_wrench::<K>(
            model,
            turn,
            frames.inertia.entry(b),
            &model.gravity,
            motion.entry(b + 1),
            drift.entry(b + 1),
            b + 1,
        )?;
        wrench.put(b + 1, force);
    }
    Ok(())
}
