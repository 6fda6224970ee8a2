// The motion columns of dofs: first their directions, then what an anchor away from the reference point adds.
ghost use Rattle.std.specs.Prelude.{◌≡◌, ℕ, ◌+◌, ◌-◌, ◌^◌, ◌<◌, ◌≤◌, ◌-ℤ◌, ◌*ℤ◌, unsigned_abs, length, IfOk};
ghost use Rattle.fx_whole.specs.First.{refusal_of, first_to};
ghost use Rattle.fx_num.specs.Settled.{settled_mid};
ghost use Rattle.mj_kin.specs.Working as working;
ghost use Rattle.fx_vec.specs.Sizes.{Within, Within6};
ghost use Rattle.fx_vec.specs.Views.{mids, spatial};
ghost use Rattle.mj_quat.specs.Rotation as rotation;
ghost use Rattle.mj_types.specs.Parts as parts;
ghost use Rattle.mj_types.specs.Placed.{spatial_at};
ghost use Rattle.mj_kin.specs.Columns as spec;

use crate::bodies::body_at;
use crate::leaves::is_near;
use fx_list::Array;
use fx_num::{Fix, Number, Plain};
use fx_vec::{M3, Sp6, V3, Vector3, Vector6, minus};
use fx_whole::{difference, narrow, nearest_shift, product};
use mj_types::{Joint, JointKind, Model, OutOfRange, Quantity, State};

/// A vector of three numbers.
pub(crate) fn vector(x: i64, y: i64, z: i64) -> V3<Plain, 32>
    ensures { mids result ≡ record { x = x; y = y; z = z } }
{
    Vector3 {
        x: Number { mid: x, rad: () },
        y: Number { mid: y, rad: () },
        z: Number { mid: z, rad: () },
    }
}

/// A column of a matrix.
fn column_of(rows: &M3, i: usize) -> V3<Plain, 32>
    requires { rotation.WithinRows (rotation.rows rows.now) (2 ^ 35) }
    ensures value { mids result ≡ spec.column_of (rotation.rows rows.now) i }
    ensures size { Within (mids result) (2 ^ 35) }
{
    if i == 0 {
        Vector3 {
            x: rows.a.x,
            y: rows.b.x,
            z: rows.c.x,
        }
    } else if i == 1 {
        Vector3 {
            x: rows.a.y,
            y: rows.b.y,
            z: rows.c.y,
        }
    } else {
        Vector3 {
            x: rows.a.z,
            y: rows.b.z,
            z: rows.c.z,
        }
    }
}

/// One of the world's axes.
fn world_axis(i: usize) -> V3<Plain, 32>
    ensures value { mids result ≡ spec.world_axis i }
    ensures size { Within (mids result) (2 ^ 35) }
{
    if i == 0 {
        vector(1 << 32, 0, 0)
    } else if i == 1 {
        vector(0, 1 << 32, 0)
    } else {
        vector(0, 0, 1 << 32)
    }
}

/// The motion along a vector.
fn along(v: &V3<Plain, 32>) -> Sp6<Plain, 32>
    requires { Within (mids v.now) (2 ^ 35) }
    ensures value { spatial result ≡ spec.along (mids v.now) }
    ensures size { Within6 (spatial result) (2 ^ 35) }
{
    Vector6 {
        ang: vector(0, 0, 0),
        lin: *v,
    }
}

/// The rotation about a vector.
fn about(v: &V3<Plain, 32>) -> Sp6<Plain, 32>
    requires { Within (mids v.now) (2 ^ 35) }
    ensures value { spatial result ≡ spec.about (mids v.now) }
    ensures size { Within6 (spatial result) (2 ^ 35) }
{
    Vector6 {
        ang: *v,
        lin: vector(0, 0, 0),
    }
}

/// The direction of a dof of a free joint.
fn free_direction(i: usize, rows: &M3) -> Sp6<Plain, 32>
    requires { rotation.WithinRows (rotation.rows rows.now) (2 ^ 35) }
    ensures value { spatial result ≡ spec.free_direction i (rotation.rows rows.now) }
    ensures size { Within6 (spatial result) (2 ^ 35) }
{
    if i < 3 {
        along(&world_axis(i))
    } else {
        about(&column_of(rows, i - 3))
    }
}

/// The direction of a dof of a joint, from the joint's axis in the world before it moves its body and
/// the body's matrix after that.
pub(crate) fn direction(
    kind: JointKind,
    i: usize,
    axis: &V3<Plain, 32>,
    rows: &M3,
) -> Sp6<Plain, 32>
    requires axis { Within (mids axis.now) (2 ^ 34) }
    requires rows { rotation.WithinRows (rotation.rows rows.now) (2 ^ 35) }
    ensures value { spatial result
        ≡ spec.direction kind i (mids axis.now) (rotation.rows rows.now) }
    ensures size { Within6 (spatial result) (2 ^ 35) }
{
    match kind {
        JointKind::Free => free_direction(i, rows),
        JointKind::Ball => about(&column_of(rows, i)),
        JointKind::Hinge => about(axis),
        JointKind::Slide => along(axis),
    }
}

/// How many velocities a joint has.
fn velocity_count(kind: JointKind) -> usize
    ensures { result ≡ parts.velocity_count kind }
{
    match kind {
        JointKind::Free => 6,
        JointKind::Ball => 3,
        JointKind::Hinge => 1,
        JointKind::Slide => 1,
    }
}

/// Writes the directions of a joint's dofs.
pub(crate) fn mark(
    joint: &Joint,
    axis: &V3<Plain, 32>,
    rows: &M3,
    directions: &mut Array<Sp6<Plain, 32>>,
)
    requires room { joint.now.dadr + parts.velocity_count joint.now.kind
        ≤ length directions.old }
    requires axis { Within (mids axis.now) (2 ^ 34) }
    requires rows { rotation.WithinRows (rotation.rows rows.now) (2 ^ 35) }
    ensures len { length directions.new ≡ length directions.old }
    ensures written { (i : ℕ) → i < parts.velocity_count joint.now.kind
        → spatial_at directions.new (joint.now.dadr + i)
        ≡ spec.direction joint.now.kind i (mids axis.now) (rotation.rows rows.now) }
    ensures small { (i : ℕ) → i < parts.velocity_count joint.now.kind
        → Within6 (spatial_at directions.new (joint.now.dadr + i)) (2 ^ 35) }
    ensures earlier { (d : ℕ) → d < joint.now.dadr
        → spatial_at directions.new d ≡ spatial_at directions.old d }
{
    let _count = directions.len();
    for i in 0..velocity_count(joint.kind) {
        directions.put(joint.dadr + i, direction(joint.kind, i, axis, rows));
    }
}

/// `a d`, exactly, of an arm and a direction.
fn lever(a: &Fix<32>, d: &Fix<32>) -> i128
    requires arm { unsigned_abs a.now.mid ≤ 2 ^ 55 }
    requires direction { unsigned_abs d.now.mid ≤ 2 ^ 35 }
    ensures value { result ≡ a.now.mid *ℤ d.now.mid }
    ensures size { unsigned_abs result ≤ 2 ^ 90 }
{
    product(a.mid, d.mid)
}

/// `a d - b c`, rounded: a number of a vector product.
fn minor(a: &Fix<32>, d: &Fix<32>, b: &Fix<32>, c: &Fix<32>) -> Fix<32>
    requires a { unsigned_abs a.now.mid ≤ 2 ^ 55 }
    requires d { unsigned_abs d.now.mid ≤ 2 ^ 35 }
    requires b { unsigned_abs b.now.mid ≤ 2 ^ 55 }
    requires c { unsigned_abs c.now.mid ≤ 2 ^ 35 }
    ensures { result.mid ≡ settled_mid
        (a.now.mid *ℤ d.now.mid -ℤ b.now.mid *ℤ c.now.mid) 32 }
{
    Fix::from_raw(narrow(nearest_shift(difference(lever(a, d), lever(b, c)), 32)))
}

/// A rotation through an anchor that is at `r` from the reference point.
#[tactic(auto, unfolding(crate::specs::Columns::through))]
fn through(r: &V3<Plain, 32>, s: &Sp6<Plain, 32>) -> Sp6<Plain, 32>
    requires arm { Within (mids r.now) (2 ^ 55) }
    requires direction { Within6 (spatial s.now) (2 ^ 35) }
    ensures { spatial result ≡ spec.through (mids r.now) (spatial s.now) }
{
    Vector6 {
        ang: s.ang,
        lin: Vector3 {
            x: minor(&r.y, &s.ang.z, &r.z, &s.ang.y),
            y: minor(&r.z, &s.ang.x, &r.x, &s.ang.z),
            z: minor(&r.x, &s.ang.y, &r.y, &s.ang.x),
        },
    }
}

/// A dof's column, from its joint's arm and its direction.
pub(crate) fn column_at(kind: JointKind, r: &V3<Plain, 32>, s: &Sp6<Plain, 32>) -> Sp6<Plain, 32>
    requires arm { Within (mids r.now) (2 ^ 55) }
    requires direction { Within6 (spatial s.now) (2 ^ 35) }
    ensures { spatial result ≡ spec.column_at kind (mids r.now) (spatial s.now) }
{
    match kind {
        JointKind::Free => *s,
        JointKind::Ball => through(r, s),
        JointKind::Hinge => through(r, s),
        JointKind::Slide => *s,
    }
}

/// Nothing where a column is in its range.
pub(crate) fn judge_column(d: usize, s: &Sp6<Plain, 32>) -> Result<(), OutOfRange>
    requires { d < 64 }
    ensures within { IfOk result (λ _. Within6 (spatial s.now) (2 ^ 42)) }
    ensures first { refusal_of result ≡ spec.column_fault d (spatial s.now) }
{
    let good = is_near(&s.ang, 1 << 42) && is_near(&s.lin, 1 << 42);
    OutOfRange::unless(good, Quantity::Column, d + 1)
}

/// The joint of a dof.
fn joint_of(model: &Model, d: usize) -> usize
    requires { d < model.now.nv }
    ensures value { result ≡ (parts.dof model.now.dofs d).joint - 1 }
    ensures there { result < length model.now.joints }
{
    model.dofs.entry(d).joint - 1
}

/// The root of the tree that a joint is in, as the place of a body.
fn root_of(model: &Model, j: usize) -> usize
    requires { j < length model.now.joints }
    ensures value { result + 1 ≡ (parts.body model.now.bodies
        ((parts.joint model.now.joints j).body - 1)).root }
    ensures there { result < length model.now.bodies }
{
    let body = model.joints.entry(j).body;
    body_at(model, body - 1).root - 1
}

/// The anchor of a dof's joint from the reference point of its tree.
fn arm_of(
    model: &Model,
    _state: &State,
    d: usize,
    pos: &Array<V3<Plain, 32>>,
    anchors: &Array<V3<Plain, 32>>,
) -> V3<Plain, 32>
    requires dof { d < model.now.nv }
    requires positions { length pos.now ≡ length model.now.bodies }
    requires places { length anchors.now ≡ length model.now.joints }
    requires points { working.ArePoints model.now _state.now pos.now }
    requires anchors { working.AreAnchors model.now _state.now anchors.now }
    ensures value { mids result ≡ spec.dof_arm model.now _state.now d }
    ensures size { Within (mids result) (2 ^ 55) }
{
    let j = joint_of(model, d);
    minus(anchors.entry(j), pos.entry(root_of(model, j)))
}

/// Makes dof `d`'s column of its direction.
fn finish_column(
    model: &Model,
    state: &State,
    d: usize,
    pos: &Array<V3<Plain, 32>>,
    anchors: &Array<V3<Plain, 32>>,
    columns: &mut Array<Sp6<Plain, 32>>,
) -> Result<(), OutOfRange>
    requires dof { d < model.now.nv }
    requires positions { length pos.now ≡ length model.now.bodies }
    requires places { length anchors.now ≡ length model.now.joints }
    requires points { working.ArePoints model.now state.now pos.now }
    requires anchors { working.AreAnchors model.now state.now anchors.now }
    requires room { length columns.old ≡ model.now.nv }
    requires columns { working.AreColumns model.now state.now columns.old d }
    ensures room { length columns.new ≡ model.now.nv }
    ensures columns { IfOk result (λ _. working.AreColumns model.now state.now
        columns.new (d + 1)) }
    ensures first { refusal_of result ≡ spec.column_fault d (spec.column model.now state.now d) }
{
    let arm = arm_of(model, state, d, pos, anchors);
    let joint = model.joints.entry(joint_of(model, d));
    let column = column_at(joint.kind, &arm, columns.entry(d));
    judge_column(d, &column)?;
    columns.put(d, column);
    Ok(())
}

/// Makes all columns of the directions.
pub(crate) fn finish_columns(
    model: &Model,
    state: &State,
    pos: &Array<V3<Plain, 32>>,
    anchors: &Array<V3<Plain, 32>>,
    columns: &mut Array<Sp6<Plain, 32>>,
) -> Result<(), OutOfRange>
    requires positions { length pos.now ≡ length model.now.bodies }
    requires places { length anchors.now ≡ length model.now.joints }
    requires points { working.ArePoints model.now state.now pos.now }
    requires anchors { working.AreAnchors model.now state.now anchors.now }
    requires room { length columns.old ≡ model.now.nv }
    requires columns { working.AreColumns model.now state.now columns.old 0 }
    ensures room { length columns.new ≡ model.now.nv }
    ensures columns { IfOk result (λ _. working.AreColumns model.now state.now columns.new
        model.now.nv) }
    ensures first { refusal_of result ≡ first_to model.now.nv
        (λ d. spec.column_fault d (spec.column model.now state.now d)) }
{
    for d in 0..model.nv {
        finish_column(model, state, d, pos, anchors, columns)?;
    }
    Ok(())
}
