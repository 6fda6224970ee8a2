// Equalities of joints, and the friction of joints.
ghost use Rattle.std.specs.Prelude.{◌≡◌, ℕ, ◌-◌, ◌^◌, ◌<◌, ◌≤◌, ℤ, ◌-ℤ◌, ◌*ℤ◌, pos, neg_ℤ, false, ◌≤ℤ◌, unsigned_abs, int_lt, length, IfOk, OnOk};
ghost use Rattle.fx_whole.specs.First.{refusal_of};
ghost use Rattle.fx_num.specs.Settled.{settled_mid};
ghost use Rattle.mj_types.specs.declared.range.Quantity.TheVariants as kind;
ghost use Rattle.mj_types.specs.Lawful.{IsEquality, IsSoft};
ghost use Rattle.mj_types.specs.Parts.{joint as joint_at, number_at};
ghost use Rattle.mj_types.specs.Ranges.{limited};
ghost use Rattle.mj_types.specs.States.{Fits};
ghost use Rattle.mj_rows.specs.Constraint.{row_of, row_fault};
ghost use Rattle.mj_rows.specs.Joints as spec;
ghost use Rattle.mj_rows.specs.Working.{IsReady, IsWritten};

use crate::jacobian::{add_at, clear};
use fx_num::{Fix, Number, Wide, narrow_within};
use fx_whole::{difference, narrow, nearest_shift, product};
use mj_types::{Equality, Model, OutOfRange, Quantity, Row, Soft, Source, State};

/// The place of a joint's first dof.
pub(crate) fn dof_of(model: &Model, j: usize) -> usize
    requires { j < length model.now.joints }
    ensures place { result ≡ (joint_at model.now.joints j).dadr }
    ensures there { result < model.now.nv }
{
    model.joints.entry(j).dadr
}

/// The first position of a joint.
pub(crate) fn position(model: &Model, state: &State, j: usize) -> Fix<32>
    requires fits { Fits model.now state.now }
    requires joint { j < length model.now.joints }
    ensures value { result.mid ≡ spec.position model.now state.now j }
    ensures small { unsigned_abs result.mid ≤ 2 ^ 52 }
{
    state.q.at(model.joints.entry(j).qadr)
}

/// Writes `n` at a joint's first dof, and 0 at all others.
pub(crate) fn write_joint(model: &Model, j: usize, n: &Fix<32>, jacobian: &mut [Fix<32>])
    requires joint { j < length model.now.joints }
    requires small { unsigned_abs n.now.mid ≤ 2 ^ 48 }
    requires room { length jacobian.old ≡ model.now.nv }
    ensures value { (d : ℕ) → number_at jacobian.new d ≡ spec.at_joint model.now j n.now.mid d }
    ensures size { (d : ℕ) → unsigned_abs (number_at jacobian.new d) ≤ unsigned_abs n.now.mid }
{
    clear(jacobian);
    add_at(jacobian, dof_of(model, j), n);
}

// The part of joint 1's position that joint 2 gives.
fn following(model: &Model, state: &State, equality: &Equality) -> Wide<32>
    requires fits { Fits model.now state.now }
    requires lawful { IsEquality model.now.joints equality.now }
    ensures value { result.raw
        ≡ spec.following model.now state.now equality.now.c1.mid equality.now.joint2 }
    ensures size { unsigned_abs result.raw ≤ 2 ^ 63 }
{
    match equality.joint2 {
        Some(number) => share(&equality.c1, &position(model, state, number - 1)),
        None => Wide { raw: 0 },
    }
}

// `c q`, rounded.
fn share(c: &Fix<32>, q: &Fix<32>) -> Wide<32>
    requires c { unsigned_abs c.now.mid ≤ 2 ^ 42 }
    requires q { unsigned_abs q.now.mid ≤ 2 ^ 52 }
    ensures value { result.raw ≡ settled_mid (c.now.mid *ℤ q.now.mid) 32 }
    ensures size { unsigned_abs result.raw ≤ 2 ^ 63 }
{
    Wide {
        raw: nearest_shift(product(c.mid, q.mid), 32),
    }
}

// `q - c`.
fn past(q: &Fix<32>, c: &Fix<32>) -> Wide<32>
    requires q { unsigned_abs q.now.mid ≤ 2 ^ 52 }
    requires c { unsigned_abs c.now.mid ≤ 2 ^ 42 }
    ensures value { result.raw ≡ q.now.mid -ℤ c.now.mid }
    ensures size { unsigned_abs result.raw ≤ 2 ^ 53 }
{
    Wide {
        raw: difference(i128::from(q.mid), i128::from(c.mid)),
    }
}

// `x - y`, where it is at most 2^21 in size; else the fault of an equality's violation.
pub(crate) fn judged(x: &Wide<32>, y: &Wide<32>, number: usize) -> Result<Fix<32>, OutOfRange>
    requires x { unsigned_abs x.now.raw ≤ 2 ^ 53 }
    requires y { unsigned_abs y.now.raw ≤ 2 ^ 63 }
    ensures value { IfOk result (λ r. r.mid ≡ x.now.raw -ℤ y.now.raw) }
    ensures within { IfOk result (λ r. unsigned_abs r.mid ≤ 2 ^ 53) }
    ensures first { refusal_of result
        ≡ limited kind.Violation number (2 ^ 53) (x.now.raw -ℤ y.now.raw) }
{
    match narrow_within(&difference(x.raw, y.raw), 1 << 53) {
        Ok(mid) => Ok(Number { mid, rad: () }),
        Err(_) => Err(OutOfRange {
            kind: Quantity::Violation,
            index: number,
        }),
    }
}

// How far an equality is violated.
fn violation(
    model: &Model,
    state: &State,
    equality: &Equality,
    number: usize,
) -> Result<Fix<32>, OutOfRange>
    requires fits { Fits model.now state.now }
    requires lawful { IsEquality model.now.joints equality.now }
    ensures value { IfOk result (λ r. r.mid ≡ spec.violation model.now state.now equality.now) }
    ensures within { IfOk result (λ r. unsigned_abs r.mid ≤ 2 ^ 53) }
    ensures first { refusal_of result ≡ limited kind.Violation number (2 ^ 53)
        (spec.violation model.now state.now equality.now) }
{
    let q = position(model, state, equality.joint1 - 1);
    judged(
        &past(&q, &equality.c0),
        &following(model, state, equality),
        number,
    )
}

// Adds what joint 2 has at its dof.
fn add_following(model: &Model, equality: &Equality, jacobian: &mut [Fix<32>])
    requires lawful { IsEquality model.now.joints equality.now }
    requires room { length jacobian.old ≡ model.now.nv }
    requires small { (d : ℕ) → unsigned_abs (number_at jacobian.old d) ≤ 2 ^ 47 }
    ensures value { (d : ℕ) → number_at jacobian.new d ≡ number_at jacobian.old d
        -ℤ spec.following_slope model.now equality.now.c1.mid equality.now.joint2 d }
    ensures size { (d : ℕ) → unsigned_abs (number_at jacobian.new d) ≤ 2 ^ 48 }
{
    if let Some(number) = equality.joint2 {
        add_at(jacobian, dof_of(model, number - 1), &negative(&equality.c1));
    }
}

// `-n`.
fn negative(n: &Fix<32>) -> Fix<32>
    requires { unsigned_abs n.now.mid ≤ 2 ^ 42 }
    ensures value { result.mid ≡ neg_ℤ n.now.mid }
    ensures size { unsigned_abs result.mid ≤ 2 ^ 42 }
{
    Fix::from_raw(-n.mid)
}

// Writes the Jacobian of an equality.
fn write_equality(model: &Model, equality: &Equality, jacobian: &mut [Fix<32>])
    requires lawful { IsEquality model.now.joints equality.now }
    requires room { length jacobian.old ≡ model.now.nv }
    ensures value { (d : ℕ) → number_at jacobian.new d
        ≡ spec.equality_slope model.now equality.now d }
    ensures size { (d : ℕ) → unsigned_abs (number_at jacobian.new d) ≤ 2 ^ 48 }
{
    write_joint(
        model,
        equality.joint1 - 1,
        &Fix::from_raw(1 << 32),
        jacobian,
    );
    add_following(model, equality, jacobian);
}

/// The row of the equality at a place, of which `number` is the number in the list of rows, and its
/// Jacobian: joint 1's position less `c0`, and less `c1` times joint 2's where there is one. It has no
/// bounds. The refusal is its violation's, where that passes 2^21. Takes no memory.
pub fn equality(
    model: &Model,
    state: &State,
    e: usize,
    number: usize,
    jacobian: &mut [Fix<32>],
) -> Result<Row, OutOfRange>
    requires fits { Fits model.now state.now }
    requires equality { e < length model.now.equalities }
    requires room { length jacobian.old ≡ model.now.nv }
    ensures row { IfOk result (λ x. x ≡ row_of false (spec.equality_of model.now state.now e)) }
    ensures ready { IfOk result (λ x. IsReady x) }
    ensures written { OnOk result (IsWritten model.now.nv (spec.equality_of model.now state.now e)
        jacobian.new) }
    ensures first { refusal_of result
        ≡ row_fault model.now.nv number (spec.equality_of model.now state.now e) }
{
    let _count = model.equalities.len();
    let equality = model.equalities.entry(e);
    let r = violation(model, state, equality, number)?;
    write_equality(model, equality, jacobian);
    Ok(Row {
        source: Source::Equality(e + 1),
        r,
        soft: equality.soft,
        idle: false,
        low: None,
        high: None,
    })
}

/// Whether a joint has friction, so that the row of it stands.
pub fn has_friction(model: &Model, j: usize) -> bool
    requires { j < length model.now.joints }
    ensures { result ≡ spec.has_friction model.now j }
{
    is_positive(&model.joints.entry(j).frictionloss)
}

// Whether `n` is more than 0.
fn is_positive(n: &Fix<32>) -> bool
    ensures { result ≡ int_lt (pos 0) n.now.mid }
{
    n.mid > 0
}

// The greatest friction, at scale 20.
pub(crate) fn most_friction(loss: &Fix<32>) -> Fix<20>
    requires some { pos 0 ≤ℤ loss.now.mid }
    requires small { loss.now.mid ≤ℤ pos (2 ^ 52) }
    ensures value { result.mid ≡ settled_mid loss.now.mid 12 }
    ensures some { pos 0 ≤ℤ result.mid }
    ensures small { unsigned_abs result.mid ≤ 2 ^ 41 }
{
    Fix::from_raw(narrow(nearest_shift(i128::from(loss.mid), 12)))
}

// Its negative.
fn least_friction(most: &Fix<20>) -> Fix<20>
    requires { unsigned_abs most.now.mid ≤ 2 ^ 41 }
    ensures { result.mid ≡ neg_ℤ most.now.mid }
{
    Fix::from_raw(-most.mid)
}

// The row of a joint's friction, from its greatest.
fn friction_row(source: Source, soft: &Soft, most: &Fix<20>) -> Row
    requires soft { IsSoft soft.now }
    requires some { pos 0 ≤ℤ most.now.mid }
    requires small { unsigned_abs most.now.mid ≤ 2 ^ 41 }
    ensures row { (slope : ℕ → ℤ) → result
        ≡ row_of false (spec.friction_with source soft.now most.now.mid slope) }
    ensures ready { IsReady result }
{
    Row {
        source,
        r: Fix::from_raw(0),
        soft: *soft,
        idle: false,
        low: Some(least_friction(most)),
        high: Some(*most),
    }
}

/// The row of the friction of the joint at a place, and its Jacobian, which is 1 at the joint's dof. Its
/// bounds are the joint's greatest friction either way. Takes no memory.
pub fn friction(model: &Model, j: usize, jacobian: &mut [Fix<32>]) -> Row
    requires joint { j < length model.now.joints }
    requires room { length jacobian.old ≡ model.now.nv }
    ensures row { result ≡ row_of false (spec.friction_of model.now j) }
    ensures ready { IsReady result }
    ensures written { IsWritten model.now.nv (spec.friction_of model.now j) jacobian.new }
    ensures sound { (number : ℕ) → row_fault model.now.nv number (spec.friction_of model.now j)
        ≡ None }
{
    write_joint(model, j, &Fix::from_raw(1 << 32), jacobian);
    let _count = model.joints.len();
    let joint = model.joints.entry(j);
    let most = most_friction(&joint.frictionloss);
    friction_row(Source::Friction(j + 1), &joint.soft_friction, &most)
}
