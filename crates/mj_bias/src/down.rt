// Down the tree: of each dof what carries it and the rate of its column, and of each body the sums
// over the dofs that move it.
ghost use Rattle.std.specs.Prelude.{◌≡◌, ◌≢◌, ℕ, ◌+◌, ◌^◌, ◌<◌, ◌≤◌, unsigned_abs, length, None, OnOk, IfOk};
ghost use Rattle.fx_num.specs.Radii.{radius_limit};
ghost use Rattle.fx_vec.specs.Views.{spatial};
ghost use Rattle.fx_whole.specs.First.{refusal_of, first_to, or_first};
ghost use Rattle.mj_types.specs.BiasRooms.{BiasRoom};
ghost use Rattle.mj_types.specs.Memory.{NumberFits, MotionFits, SumsFit};
ghost use Rattle.mj_types.specs.Parts.{body_of, body};
ghost use Rattle.mj_types.specs.Placed.{AreFrames, spatial_at};
ghost use Rattle.mj_types.specs.States.{Fits};
ghost use Rattle.mj_bias.specs.Movement as movement;
ghost use Rattle.mj_bias.specs.Faults.{dof_fault};
ghost use Rattle.mj_bias.specs.Measures as measure;
ghost use Rattle.mj_bias.specs.Steps.{carrier_there, rate_there, dof_fault_there};
ghost use Rattle.mj_bias.specs.Carried as spec;

use crate::numbers::{add_multiple, exact6, no_motion, no_sums};
use crate::settling::settle_vector;
use fx_list::Array;
use fx_num::{Carry, Fix};
use fx_vec::{Sp6, Sum6, motion_cross_into};
use mj_types::{Bias, Frames, JointKind, Model, OutOfRange, Quantity, State};

// Whether a dof is a translation of a free joint, whose column is the same in all positions.
fn is_translation(model: &Model, j: usize) -> bool
    requires { j < model.now.nv }
    ensures { result ≡ movement.is_translation model.now j }
{
    let dof = model.dofs.entry(j);
    match model.joints.entry(dof.joint - 1).kind {
        JointKind::Free => dof.part < 3,
        JointKind::Ball => false,
        JointKind::Hinge => false,
        JointKind::Slide => false,
    }
}

// The motion that carries dof `j` of the body at place `b`: that of its base, where that is earlier.
fn carrier<K: Carry>(
    model: &Model,
    b: usize,
    j: usize,
    out: &Bias<K>,
) -> Result<Sp6<K, 32>, OutOfRange>
    requires motions { MotionFits K.Rad.row }
    requires sums { SumsFit K.Wide.row }
    requires dof { j < model.now.nv }
    requires place { b < length model.now.bodies }
    requires room { BiasRoom model.now out.now }
    requires small { (i : ℕ) → i < j
        → measure.IsWithin (measure.numbers_at K.width out.now.turn i) (2 ^ 48) radius_limit }
    ensures value { IfOk result (λ r. measure.numbers K.width r
        ≡ carrier_there K.settled K.width K.wide_width model.now out.now b j) }
    ensures within { IfOk result (λ r.
        measure.IsWithin (measure.numbers K.width r) (2 ^ 48) radius_limit) }
    ensures first { refusal_of result ≡ measure.measure_fault Quantity.DofMotion (j + 1) (2 ^ 48)
        (carrier_there K.settled K.width K.wide_width model.now out.now b j) }
{
    let base = model.dofs.entry(j).base;
    if base < j {
        Ok(out.turn.at(base))
    } else {
        settle_vector::<K, 64, 32>(out.motion.entry(b + 1), 1 << 48, Quantity::DofMotion, j + 1)
    }
}

// The rate of a column that `turn` carries.
pub(crate) fn carried_rate<K: Carry>(
    turn: &Sp6<K, 32>,
    column: &Sp6<K, 32>,
    j: usize,
) -> Result<Sp6<K, 32>, OutOfRange>
    requires motions { MotionFits K.Rad.row }
    requires sums { SumsFit K.Wide.row }
    requires index { j < 2 ^ 63 }
    requires turn { measure.IsWithin (measure.numbers K.width turn.now) (2 ^ 48) radius_limit }
    requires column { measure.IsWithin (measure.numbers K.width column.now) (2 ^ 42) 0 }
    ensures value { IfOk result (λ r. measure.numbers K.width r
        ≡ measure.settled_by K.settled 32 (measure.motion_rate (measure.numbers K.width turn.now)
        (measure.numbers K.width column.now))) }
    ensures within { IfOk result (λ r.
        measure.IsWithin (measure.numbers K.width r) (2 ^ 56) radius_limit) }
    ensures first { refusal_of result ≡ measure.measure_fault Quantity.DofMotion (j + 1) (2 ^ 56)
        (measure.settled_by K.settled 32 (measure.motion_rate (measure.numbers K.width turn.now)
        (measure.numbers K.width column.now))) }
{
    let mut sum = no_sums::<K, 64>();
    motion_cross_into::<K, 32, 32, 64>(turn, column, &mut sum);
    settle_vector::<K, 64, 32>(&sum, 1 << 56, Quantity::DofMotion, j + 1)
}

// The rate of dof `j`'s column, which `turn` carries.
fn column_rate<K: Carry>(
    model: &Model,
    turn: &Sp6<K, 32>,
    column: &Sp6<K, 32>,
    j: usize,
) -> Result<Sp6<K, 32>, OutOfRange>
    requires numbers { NumberFits K.Rad.row }
    requires motions { MotionFits K.Rad.row }
    requires sums { SumsFit K.Wide.row }
    requires dof { j < model.now.nv }
    requires turn { measure.IsWithin (measure.numbers K.width turn.now) (2 ^ 48) radius_limit }
    requires column { measure.IsWithin (measure.numbers K.width column.now) (2 ^ 42) 0 }
    ensures value { IfOk result (λ r. measure.numbers K.width r
        ≡ rate_there K.settled (movement.is_translation model.now j)
        (measure.numbers K.width turn.now) (measure.numbers K.width column.now)) }
    ensures within { IfOk result (λ r.
        measure.IsWithin (measure.numbers K.width r) (2 ^ 56) radius_limit) }
    ensures first { refusal_of result ≡ measure.measure_fault Quantity.DofMotion (j + 1) (2 ^ 56)
        (rate_there K.settled (movement.is_translation model.now j)
        (measure.numbers K.width turn.now) (measure.numbers K.width column.now)) }
{
    if is_translation(model, j) {
        Ok(no_motion::<K>())
    } else {
        carried_rate::<K>(turn, column, j)
    }
}

// Makes dof `j` of the body at place `b`: what carries it, and the rate of its column.
fn make_dof<K: Carry>(
    model: &Model,
    frames: &Frames,
    b: usize,
    j: usize,
    out: &mut Bias<K>,
) -> Result<(), OutOfRange>
    requires numbers { NumberFits K.Rad.row }
    requires motions { MotionFits K.Rad.row }
    requires sums { SumsFit K.Wide.row }
    requires frames { AreFrames model.now frames.now }
    requires dof { j < model.now.nv }
    requires place { b < length model.now.bodies }
    requires room { BiasRoom model.now out.old }
    requires small { (i : ℕ) → i < j
        → measure.IsWithin (measure.numbers_at K.width out.old.turn i) (2 ^ 48) radius_limit }
    ensures room { BiasRoom model.now out.new }
    ensures first { refusal_of result ≡ dof_fault_there K.settled
        (movement.is_translation model.now j)
        (carrier_there K.settled K.width K.wide_width model.now out.old b j)
        (measure.exact (spatial_at frames.now.column j)) j }
    ensures turn { OnOk result (measure.numbers_at K.width out.new.turn j
        ≡ carrier_there K.settled K.width K.wide_width model.now out.old b j) }
    ensures rate { OnOk result (measure.numbers_at K.width out.new.rate j
        ≡ rate_there K.settled (movement.is_translation model.now j)
        (carrier_there K.settled K.width K.wide_width model.now out.old b j)
        (measure.exact (spatial_at frames.now.column j))) }
    ensures small_turn { OnOk result
        (measure.IsWithin (measure.numbers_at K.width out.new.turn j) (2 ^ 48) radius_limit) }
    ensures small_rate { OnOk result
        (measure.IsWithin (measure.numbers_at K.width out.new.rate j) (2 ^ 56) radius_limit) }
    ensures other_turns { (i : ℕ) → i ≢ j → measure.numbers_at K.width out.new.turn i
        ≡ measure.numbers_at K.width out.old.turn i }
    ensures motion { out.new.motion ≡ out.old.motion }
    ensures drift { out.new.drift ≡ out.old.drift }
{
    let column = exact6::<K>(frames.column.entry(j));
    let turn = carrier::<K>(model, b, j, out)?;
    let rate = column_rate::<K>(model, &turn, &column, j)?;
    out.turn.put(j, turn);
    out.rate.put(j, rate);
    Ok(())
}

// Adds `v s` to the sum at the place `k`.
fn add_at<K: Carry>(v: &Fix<32>, s: &Sp6<K, 32>, k: usize, sums: &mut Array<Sum6<K, 64>>)
    requires numbers { NumberFits K.Rad.row }
    requires motions { MotionFits K.Rad.row }
    requires sums { SumsFit K.Wide.row }
    requires place { k < length sums.old }
    requires factor { unsigned_abs v.now.mid ≤ 2 ^ 44 }
    requires vector { measure.IsWithin (measure.numbers K.width s.now) (2 ^ 56) radius_limit }
    requires sum { measure.IsWithin (measure.totals_at K.wide_width sums.old k)
        (2 ^ 110) (2 ^ 100) }
    ensures len { length sums.new ≡ length sums.old }
    ensures here { measure.totals_at K.wide_width sums.new k
        ≡ measure.sum_of (measure.totals_at K.wide_width sums.old k)
        (measure.multiple v.now.mid (measure.numbers K.width s.now)) }
    ensures others { (i : ℕ) → i ≢ k → measure.totals_at K.wide_width sums.new i
        ≡ measure.totals_at K.wide_width sums.old i }
{
    let mut sum = sums.at(k);
    add_multiple::<K>(v, s, &mut sum);
    sums.put(k, sum);
}

// Makes dof `j` of the body at place `b`, and adds it to the body's sums.
fn move_dof<K: Carry>(
    model: &Model,
    frames: &Frames,
    state: &State,
    b: usize,
    j: usize,
    out: &mut Bias<K>,
) -> Result<(), OutOfRange>
    requires numbers { NumberFits K.Rad.row }
    requires motions { MotionFits K.Rad.row }
    requires sums { SumsFit K.Wide.row }
    requires frames { AreFrames model.now frames.now }
    requires fits { Fits model.now state.now }
    requires dof { j < model.now.nv }
    requires place { b < length model.now.bodies }
    requires body { body_of model.now.dofs j ≡ b + 1 }
    requires room { BiasRoom model.now out.old }
    requires begun { spec.IsBegun K.settled K.width K.wide_width
        (spec.movement model.now frames.now state.now) b j out.old }
    ensures room { BiasRoom model.now out.new }
    ensures begun { OnOk result (spec.IsBegun K.settled K.width K.wide_width
        (spec.movement model.now frames.now state.now) b (j + 1) out.new) }
    ensures first { refusal_of result
        ≡ dof_fault K.settled (spec.movement model.now frames.now state.now) j }
{
    make_dof::<K>(model, frames, b, j, out)?;
    let v = state.v.entry(j);
    let column = exact6::<K>(frames.column.entry(j));
    add_at::<K>(v, &column, b + 1, &mut out.motion);
    add_at::<K>(v, out.rate.entry(j), b + 1, &mut out.drift);
    Ok(())
}

// Makes the dofs of the body at place `b`.
fn move_dofs<K: Carry>(
    model: &Model,
    frames: &Frames,
    state: &State,
    b: usize,
    out: &mut Bias<K>,
) -> Result<(), OutOfRange>
    requires numbers { NumberFits K.Rad.row }
    requires motions { MotionFits K.Rad.row }
    requires sums { SumsFit K.Wide.row }
    requires frames { AreFrames model.now frames.now }
    requires fits { Fits model.now state.now }
    requires place { b < length model.now.bodies }
    requires room { BiasRoom model.now out.old }
    requires begun { spec.IsBegun K.settled K.width K.wide_width
        (spec.movement model.now frames.now state.now) b (body model.now.bodies b).dofadr out.old }
    requires passed { first_to (body model.now.bodies b).dofadr
        (dof_fault K.settled (spec.movement model.now frames.now state.now)) ≡ None }
    ensures room { BiasRoom model.now out.new }
    ensures begun { OnOk result (spec.IsBegun K.settled K.width K.wide_width
        (spec.movement model.now frames.now state.now) b
        ((body model.now.bodies b).dofadr + (body model.now.bodies b).dofnum) out.new) }
    ensures first { refusal_of result
        ≡ first_to ((body model.now.bodies b).dofadr + (body model.now.bodies b).dofnum)
        (dof_fault K.settled (spec.movement model.now frames.now state.now)) }
{
    let first = model.bodies.entry(b).dofadr;
    let end = first + model.bodies.entry(b).dofnum;
    for j in first..end {
        move_dof::<K>(model, frames, state, b, j, out)?;
    }
    Ok(())
}

// Copies the sum at one place to another.
fn copy_sum<K: Carry>(from: usize, to: usize, sums: &mut Array<Sum6<K, 64>>)
    requires sums { SumsFit K.Wide.row }
    requires from { from < length sums.old }
    requires to { to < length sums.old }
    ensures len { length sums.new ≡ length sums.old }
    ensures here { measure.totals_at K.wide_width sums.new to
        ≡ measure.totals_at K.wide_width sums.old from }
    ensures others { (i : ℕ) → i ≢ to → measure.totals_at K.wide_width sums.new i
        ≡ measure.totals_at K.wide_width sums.old i }
{
    let sum = sums.at(from);
    sums.put(to, sum);
}

// Makes the body at place `b`: its sums begin as its parent's.
fn move_body<K: Carry>(
    model: &Model,
    frames: &Frames,
    state: &State,
    b: usize,
    out: &mut Bias<K>,
) -> Result<(), OutOfRange>
    requires numbers { NumberFits K.Rad.row }
    requires motions { MotionFits K.Rad.row }
    requires sums { SumsFit K.Wide.row }
    requires frames { AreFrames model.now frames.now }
    requires fits { Fits model.now state.now }
    requires place { b < length model.now.bodies }
    requires room { BiasRoom model.now out.old }
    requires carried { spec.IsCarried K.settled K.width K.wide_width
        (spec.movement model.now frames.now state.now) b (body model.now.bodies b).dofadr out.old }
    requires passed { first_to (body model.now.bodies b).dofadr
        (dof_fault K.settled (spec.movement model.now frames.now state.now)) ≡ None }
    ensures room { BiasRoom model.now out.new }
    ensures carried { OnOk result (spec.IsCarried K.settled K.width K.wide_width
        (spec.movement model.now frames.now state.now) (b + 1)
        ((body model.now.bodies b).dofadr + (body model.now.bodies b).dofnum) out.new) }
    ensures first { refusal_of result
        ≡ first_to ((body model.now.bodies b).dofadr + (body model.now.bodies b).dofnum)
        (dof_fault K.settled (spec.movement model.now frames.now state.now)) }
{
    let parent = model.bodies.entry(b).parent;
    copy_sum::<K>(parent, b + 1, &mut out.motion);
    copy_sum::<K>(parent, b + 1, &mut out.drift);
    move_dofs::<K>(model, frames, state, b, out)?;
    Ok(())
}

// Empties the sums of the world, which nothing moves.
fn begin_world<K: Carry>(sums: &mut Array<Sum6<K, 64>>)
    requires sums { SumsFit K.Wide.row }
    requires place { 0 < length sums.old }
    ensures len { length sums.new ≡ length sums.old }
    ensures here { measure.totals_at K.wide_width sums.new 0 ≡ measure.no_measure }
{
    sums.put(0, no_sums::<K, 64>());
}

/// Makes each dof, and the sums of each body.
pub(crate) fn move_bodies<K: Carry>(
    model: &Model,
    frames: &Frames,
    state: &State,
    out: &mut Bias<K>,
) -> Result<(), OutOfRange>
    requires numbers { NumberFits K.Rad.row }
    requires motions { MotionFits K.Rad.row }
    requires sums { SumsFit K.Wide.row }
    requires frames { AreFrames model.now frames.now }
    requires fits { Fits model.now state.now }
    requires room { BiasRoom model.now out.old }
    ensures room { BiasRoom model.now out.new }
    ensures carried { OnOk result (spec.IsCarried K.settled K.width K.wide_width
        (spec.movement model.now frames.now state.now) (length model.now.bodies) model.now.nv
        out.new) }
    ensures first { refusal_of result ≡ first_to model.now.nv
        (dof_fault K.settled (spec.movement model.now frames.now state.now)) }
{
    begin_world::<K>(&mut out.motion);
    begin_world::<K>(&mut out.drift);
    for b in 0..model.bodies.len() {
        move_body::<K>(model, frames, state, b, out)?;
    }
    Ok(())
}
