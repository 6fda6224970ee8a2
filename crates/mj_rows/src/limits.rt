// Limits of joints and of tendons.
ghost use Rattle.std.specs.Prelude.{◌≡◌, ℕ, ◌-◌, ◌*◌, ◌+◌, ◌^◌, ◌<◌, ◌≤◌, ℤ, ◌+ℤ◌, ◌-ℤ◌, pos, neg_ℤ, unsigned_abs, length, false};
ghost use Rattle.mj_types.specs.Applieds.{AreApplied};
ghost use Rattle.mj_types.specs.Lawful.{IsScalar};
ghost use Rattle.mj_types.specs.Parts.{joint as joint_at, number_at};
ghost use Rattle.mj_types.specs.States.{Fits};
ghost use Rattle.mj_rows.specs.Constraint.{row_of, row_fault};
ghost use Rattle.mj_rows.specs.Joints.{at_joint};
ghost use Rattle.mj_rows.specs.Limits as spec;
ghost use Rattle.mj_rows.specs.Extents.{IsExtent, AreTerms};
ghost use Rattle.mj_rows.specs.Working.{IsReady, IsWritten};

use crate::jacobian::{add_at, clear, negate};
use crate::joints::{dof_of, position, write_joint};
use crate::pushing::pushing;
use fx_list::Array;
use fx_num::{Fix, Number};
use mj_types::{Applied, Model, Range, Row, Soft, Source, State, Term};

/// What is held within a range: a joint's position, or a tendon's length.
#[derive(Clone, Copy)]
pub(crate) struct Extent {
    pub(crate) range: Option<Range>,
    pub(crate) margin: Fix<32>,
    pub(crate) soft: Soft,
    pub(crate) value: Fix<32>,
}

// The ends of its range, and 0 where there is none.
fn least(x: &Extent) -> Fix<32>
    requires { IsExtent x.now }
    ensures value { result.mid ≡ spec.least_of x.now.range }
    ensures small { unsigned_abs result.mid ≤ 2 ^ 52 }
{
    match x.range {
        Some(range) => range.least,
        None => Fix::from_raw(0),
    }
}

fn greatest(x: &Extent) -> Fix<32>
    requires { IsExtent x.now }
    ensures value { result.mid ≡ spec.greatest_of x.now.range }
    ensures small { unsigned_abs result.mid ≤ 2 ^ 52 }
{
    match x.range {
        Some(range) => range.greatest,
        None => Fix::from_raw(0),
    }
}

/// `a - b`.
pub(crate) fn less(a: &Fix<32>, b: &Fix<32>) -> Fix<32>
    requires a { unsigned_abs a.now.mid ≤ 2 ^ 60 }
    requires b { unsigned_abs b.now.mid ≤ 2 ^ 60 }
    ensures value { result.mid ≡ a.now.mid -ℤ b.now.mid }
    ensures size { unsigned_abs result.mid ≤ unsigned_abs a.now.mid + unsigned_abs b.now.mid }
{
    Number {
        mid: a.mid - b.mid,
        rad: (),
    }
}

// How far it is above the least.
pub(crate) fn above_least(x: &Extent) -> Fix<32>
    requires { IsExtent x.now }
    ensures value { result.mid ≡ spec.above_least x.now }
    ensures small { unsigned_abs result.mid ≤ 2 ^ 53 }
{
    less(&x.value, &least(x))
}

// How far it is below the greatest.
pub(crate) fn below_greatest(x: &Extent) -> Fix<32>
    requires { IsExtent x.now }
    ensures value { result.mid ≡ spec.below_greatest x.now }
    ensures small { unsigned_abs result.mid ≤ 2 ^ 53 }
{
    less(&greatest(x), &x.value)
}

// Whether the limit at the least stands.
pub(crate) fn is_low(x: &Extent) -> bool
    requires { IsExtent x.now }
    ensures { result ≡ spec.is_low x.now }
{
    x.range.is_some() && above_least(x).mid < x.margin.mid
}

// Whether the limit at the greatest stands.
pub(crate) fn is_high(x: &Extent) -> bool
    requires { IsExtent x.now }
    ensures { result ≡ spec.is_high x.now }
{
    x.range.is_some() && below_greatest(x).mid < x.margin.mid
}

// The row of a limit.
pub(crate) fn limit(source: Source, x: &Extent, distance: &Fix<32>) -> Row
    requires extent { IsExtent x.now }
    requires distance { unsigned_abs distance.now.mid ≤ 2 ^ 53 }
    ensures row { (slope : ℕ → ℤ) → result
        ≡ row_of false (spec.limit source x.now distance.now.mid slope) }
    ensures ready { IsReady result }
{
    pushing(source, &less(distance, &x.margin), &x.soft)
}

// ---- joints

fn joint_extent(model: &Model, state: &State, j: usize) -> Extent
    requires fits { Fits model.now state.now }
    requires joint { j < length model.now.joints }
    ensures value { result ≡ spec.joint_extent model.now state.now j }
    ensures extent { IsExtent result }
{
    let joint = model.joints.entry(j);
    Extent {
        range: joint.range,
        margin: joint.margin,
        soft: joint.soft,
        value: position(model, state, j),
    }
}

/// Whether the row of a joint's low limit stands: the joint has a range, and its least position is
/// nearer than the margin.
pub fn has_low(model: &Model, state: &State, j: usize) -> bool
    requires fits { Fits model.now state.now }
    requires joint { j < length model.now.joints }
    ensures { result ≡ spec.is_low (spec.joint_extent model.now state.now j) }
{
    is_low(&joint_extent(model, state, j))
}

/// Whether the row of a joint's high limit stands.
pub fn has_high(model: &Model, state: &State, j: usize) -> bool
    requires fits { Fits model.now state.now }
    requires joint { j < length model.now.joints }
    ensures { result ≡ spec.is_high (spec.joint_extent model.now state.now j) }
{
    is_high(&joint_extent(model, state, j))
}

/// The row of the low limit of the joint at a place, and its Jacobian, which is 1 at the joint's dof.
/// Takes no memory.
pub fn low(model: &Model, state: &State, j: usize, jacobian: &mut [Fix<32>]) -> Row
    requires fits { Fits model.now state.now }
    requires joint { j < length model.now.joints }
    requires room { length jacobian.old ≡ model.now.nv }
    ensures row { result ≡ row_of false (spec.low_limit model.now state.now j) }
    ensures ready { IsReady result }
    ensures written { IsWritten model.now.nv (spec.low_limit model.now state.now j) jacobian.new }
    ensures sound { (number : ℕ) → row_fault model.now.nv number
        (spec.low_limit model.now state.now j) ≡ None }
{
    write_joint(model, j, &Fix::from_raw(1 << 32), jacobian);
    let _count = model.joints.len();
    let extent = joint_extent(model, state, j);
    limit(Source::Low(j + 1), &extent, &above_least(&extent))
}

/// The row of the high limit of the joint at a place, and its Jacobian, which is -1 at the joint's dof.
/// Takes no memory.
pub fn high(model: &Model, state: &State, j: usize, jacobian: &mut [Fix<32>]) -> Row
    requires fits { Fits model.now state.now }
    requires joint { j < length model.now.joints }
    requires room { length jacobian.old ≡ model.now.nv }
    ensures row { result ≡ row_of false (spec.high_limit model.now state.now j) }
    ensures ready { IsReady result }
    ensures written { IsWritten model.now.nv (spec.high_limit model.now state.now j) jacobian.new }
    ensures sound { (number : ℕ) → row_fault model.now.nv number
        (spec.high_limit model.now state.now j) ≡ None }
{
    write_joint(model, j, &Fix::from_raw(-(1 << 32)), jacobian);
    let _count = model.joints.len();
    let extent = joint_extent(model, state, j);
    limit(Source::High(j + 1), &extent, &below_greatest(&extent))
}

// ---- tendons

fn tendon_extent(model: &Model, applied: &Applied, t: usize) -> Extent
    requires applied { AreApplied model.now applied.now }
    requires tendon { t < length model.now.tendons }
    ensures value { result ≡ spec.tendon_extent model.now (number_at applied.now.length) t }
    ensures extent { IsExtent result }
{
    let tendon = model.tendons.entry(t);
    Extent {
        range: tendon.range,
        margin: tendon.margin,
        soft: tendon.soft,
        value: applied.length.at(t),
    }
}

/// Whether the row of a tendon's low limit stands.
pub fn has_tendon_low(model: &Model, applied: &Applied, t: usize) -> bool
    requires applied { AreApplied model.now applied.now }
    requires tendon { t < length model.now.tendons }
    ensures { result
        ≡ spec.is_low (spec.tendon_extent model.now (number_at applied.now.length) t) }
{
    is_low(&tendon_extent(model, applied, t))
}

/// Whether the row of a tendon's high limit stands.
pub fn has_tendon_high(model: &Model, applied: &Applied, t: usize) -> bool
    requires applied { AreApplied model.now applied.now }
    requires tendon { t < length model.now.tendons }
    ensures { result
        ≡ spec.is_high (spec.tendon_extent model.now (number_at applied.now.length) t) }
{
    is_high(&tendon_extent(model, applied, t))
}

// Adds a term's coefficient at its joint's dof.
fn add_term(model: &Model, term: &Term, jacobian: &mut [Fix<32>])
    requires joint { IsScalar model.now.joints term.now.joint }
    requires coef { unsigned_abs term.now.coef.mid ≤ 2 ^ 42 }
    requires room { length jacobian.old ≡ model.now.nv }
    requires small { (d : ℕ) → unsigned_abs (number_at jacobian.old d) ≤ 2 ^ 50 }
    ensures value { (d : ℕ) → number_at jacobian.new d ≡ number_at jacobian.old d
        +ℤ at_joint model.now (term.now.joint - 1) term.now.coef.mid d }
    ensures size { (d : ℕ) → unsigned_abs (number_at jacobian.new d)
        ≤ unsigned_abs (number_at jacobian.old d) + 2 ^ 42 }
{
    add_at(jacobian, dof_of(model, term.joint - 1), &term.coef);
}

// Writes how each dof changes a tendon's length.
fn write_terms(model: &Model, terms: &Array<Term>, jacobian: &mut [Fix<32>])
    requires terms { AreTerms model.now terms.now }
    requires room { length jacobian.old ≡ model.now.nv }
    ensures value { (d : ℕ) → number_at jacobian.new d ≡ spec.tendon_slope model.now terms.now d }
    ensures size { (d : ℕ) → unsigned_abs (number_at jacobian.new d) ≤ 2 ^ 48 }
{
    clear(jacobian);
    for i in 0..terms.len() {
        add_term(model, terms.entry(i), jacobian);
    }
}

/// The row of the low limit of the tendon at a place, and its Jacobian: its terms' coefficients at their
/// joints' dofs. Takes no memory.
pub fn tendon_low(model: &Model, applied: &Applied, t: usize, jacobian: &mut [Fix<32>]) -> Row
    requires applied { AreApplied model.now applied.now }
    requires tendon { t < length model.now.tendons }
    requires room { length jacobian.old ≡ model.now.nv }
    ensures row { result
        ≡ row_of false (spec.tendon_low_limit model.now (number_at applied.now.length) t) }
    ensures ready { IsReady result }
    ensures written { IsWritten model.now.nv
        (spec.tendon_low_limit model.now (number_at applied.now.length) t) jacobian.new }
    ensures sound { (number : ℕ) → row_fault model.now.nv number
        (spec.tendon_low_limit model.now (number_at applied.now.length) t) ≡ None }
{
    write_terms(model, &model.tendons.entry(t).terms, jacobian);
    let _count = model.tendons.len();
    let extent = tendon_extent(model, applied, t);
    limit(Source::TendonLow(t + 1), &extent, &above_least(&extent))
}

/// The row of the high limit of the tendon at a place, and its Jacobian: the negatives of its terms'
/// coefficients. Takes no memory.
pub fn tendon_high(model: &Model, applied: &Applied, t: usize, jacobian: &mut [Fix<32>]) -> Row
    requires applied { AreApplied model.now applied.now }
    requires tendon { t < length model.now.tendons }
    requires room { length jacobian.old ≡ model.now.nv }
    ensures row { result
        ≡ row_of false (spec.tendon_high_limit model.now (number_at applied.now.length) t) }
    ensures ready { IsReady result }
    ensures written { IsWritten model.now.nv
        (spec.tendon_high_limit model.now (number_at applied.now.length) t) jacobian.new }
    ensures sound { (number : ℕ) → row_fault model.now.nv number
        (spec.tendon_high_limit model.now (number_at applied.now.length) t) ≡ None }
{
    write_terms(model, &model.tendons.entry(t).terms, jacobian);
    negate(jacobian);
    let _count = model.tendons.len();
    let extent = tendon_extent(model, applied, t);
    limit(Source::TendonHigh(t + 1), &extent, &below_greatest(&extent))
}
