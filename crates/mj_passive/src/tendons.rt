// Fixed tendons: lengths, rates and forces, and what each adds at its joints.
ghost use Rattle.std.specs.Prelude.{◌≡◌, ◌≢◌, ℕ, suc, ◌+◌, ◌*◌, ◌^◌, ◌<◌, ◌≤◌, ◌+ℤ◌, ◌*ℤ◌, unsigned_abs, List, length, IfOk, OnOk};
ghost use Rattle.fx_whole.specs.First.{refusal_of, first_to};
ghost use Rattle.fx_whole.specs.Sums.{sum_to};
ghost use Rattle.mj_types.specs.declared.range.Quantity.TheVariants as kind;
ghost use Rattle.mj_types.specs.Control.{Control};
ghost use Rattle.mj_types.specs.Duals.{wide_at};
ghost use Rattle.mj_types.specs.Lawful.{IsScalar, IsTendon};
ghost use Rattle.mj_types.specs.Parts.{dof, tendon as tendon_at, number_at};
ghost use Rattle.mj_types.specs.Ranges.{limited};
ghost use Rattle.mj_types.specs.Rooms.{AppliedRoom};
ghost use Rattle.mj_types.specs.States.{Fits};
ghost use Rattle.mj_passive.specs.Forces as spec;
ghost use Rattle.mj_passive.specs.Taken as taken;

use crate::joints::{dof_of, position, velocity};
use crate::numbers::{add_at, less, minus_product, plus_product, settled};
use fx_list::Array;
use fx_num::{Fix, Wide};
use mj_types::{Applied, Model, OutOfRange, Quantity, State, Tendon, Term};

// A tendon's length and its rate as exact sums.
#[derive(Clone, Copy)]
struct Extent {
    length: Wide<64>,
    rate: Wide<64>,
}

// Adds a term.
fn add_term(model: &Model, state: &State, term: &Term, total: &Extent) -> Extent
    requires fits { Fits model.now state.now }
    requires joint { IsScalar model.now.joints term.now.joint }
    requires coef { unsigned_abs term.now.coef.mid ≤ 2 ^ 42 }
    requires length_ { unsigned_abs total.now.length.raw ≤ 2 ^ 110 }
    requires rate { unsigned_abs total.now.rate.raw ≤ 2 ^ 110 }
    ensures length_ { result.length.raw ≡ total.now.length.raw
        +ℤ term.now.coef.mid *ℤ spec.q_at model.now state.now term.now.joint }
    ensures rate { result.rate.raw ≡ total.now.rate.raw
        +ℤ term.now.coef.mid *ℤ spec.v_at model.now state.now term.now.joint }
    ensures length_size { unsigned_abs result.length.raw
        ≤ unsigned_abs total.now.length.raw + 2 ^ 94 }
    ensures rate_size { unsigned_abs result.rate.raw
        ≤ unsigned_abs total.now.rate.raw + 2 ^ 94 }
{
    let q = position(model, state, term.joint);
    let v = velocity(model, state, term.joint);
    Extent {
        length: plus_product(&total.length, &term.coef, &q),
        rate: plus_product(&total.rate, &term.coef, &v),
    }
}

// The length of a tendon and its rate.
fn stretch(model: &Model, state: &State, terms: &Array<Term>) -> Extent
    requires fits { Fits model.now state.now }
    requires terms { taken.AreTerms model.now terms.now }
    ensures length_ { result.length.raw
        ≡ spec.over_terms terms.now (spec.q_at model.now state.now) }
    ensures rate { result.rate.raw ≡ spec.over_terms terms.now (spec.v_at model.now state.now) }
{
    let mut total = Extent {
        length: Wide { raw: 0 },
        rate: Wide { raw: 0 },
    };
    for i in 0..terms.len() {
        total = add_term(model, state, terms.entry(i), &total);
    }
    total
}

/// The force of a tendon, from its length, its rate and what motors add.
pub(crate) fn tension(
    tendon: &Tendon,
    length: &Fix<32>,
    rate: &Fix<32>,
    motors: &Wide<64>,
    t: usize,
) -> Result<Fix<32>, OutOfRange>
    requires index { t < 64 }
    requires stiffness { unsigned_abs tendon.now.stiffness.mid ≤ 2 ^ 52 }
    requires damping { unsigned_abs tendon.now.damping.mid ≤ 2 ^ 52 }
    requires springlength { unsigned_abs tendon.now.springlength.mid ≤ 2 ^ 52 }
    requires length_ { unsigned_abs length.now.mid ≤ 2 ^ 52 }
    requires rate { unsigned_abs rate.now.mid ≤ 2 ^ 52 }
    requires motors { unsigned_abs motors.now.raw ≤ 2 ^ 100 }
    ensures value { IfOk result (λ x. x.mid
        ≡ spec.tension_of tendon.now length.now.mid rate.now.mid motors.now.raw) }
    ensures within { IfOk result (λ x. unsigned_abs x.mid ≤ 2 ^ 52) }
    ensures first { refusal_of result ≡ limited kind.TendonForce (t + 1) (2 ^ 52)
        (spec.tension_of tendon.now length.now.mid rate.now.mid motors.now.raw) }
{
    let spring = minus_product(
        motors,
        &tendon.stiffness,
        &less(length, &tendon.springlength),
    );
    settled(
        &minus_product(&spring, &tendon.damping, rate),
        Quantity::TendonForce,
        t + 1,
    )
}

// A tendon's length and its rate.
#[derive(Clone, Copy)]
struct Measured {
    length: Fix<32>,
    rate: Fix<32>,
}

// The length and the rate of tendon `t`.
fn measure(model: &Model, state: &State, t: usize) -> Result<Measured, OutOfRange>
    requires fits { Fits model.now state.now }
    requires tendon { t < length model.now.tendons }
    ensures length_ { IfOk result (λ x. x.length.mid ≡ spec.tendon_length model.now state.now t) }
    ensures rate { IfOk result (λ x. x.rate.mid ≡ spec.tendon_rate model.now state.now t) }
    ensures length_within { IfOk result (λ x. unsigned_abs x.length.mid ≤ 2 ^ 52) }
    ensures rate_within { IfOk result (λ x. unsigned_abs x.rate.mid ≤ 2 ^ 52) }
    ensures first { refusal_of result ≡ spec.stretch_fault model.now state.now t }
{
    let total = stretch(model, state, &model.tendons.entry(t).terms);
    let length = settled(&total.length, Quantity::TendonLength, t + 1)?;
    let rate = settled(&total.rate, Quantity::TendonLength, t + 1)?;
    Ok(Measured { length, rate })
}

// Writes the length and the rate of tendon `t`, and gives its force.
fn write_tendon(
    model: &Model,
    state: &State,
    t: usize,
    motors: &Wide<64>,
    out: &mut Applied,
) -> Result<Fix<32>, OutOfRange>
    requires fits { Fits model.now state.now }
    requires tendon { t < length model.now.tendons }
    requires motors { unsigned_abs motors.now.raw ≤ 2 ^ 100 }
    requires room { AppliedRoom model.now out.old }
    ensures room { AppliedRoom model.now out.new }
    ensures writes { OnOk result (taken.WritesStretch model.now state.now t out.old out.new) }
    ensures force { IfOk result (λ x. x.mid
        ≡ spec.tension_from model.now state.now t motors.now.raw) }
    ensures within { IfOk result (λ x. unsigned_abs x.mid ≤ 2 ^ 52) }
    ensures first { refusal_of result
        ≡ spec.tendon_fault_from model.now state.now t motors.now.raw }
{
    let measured = measure(model, state, t)?;
    let tendon = model.tendons.entry(t);
    let force = tension(tendon, &measured.length, &measured.rate, motors, t)?;
    out.length.put(t, measured.length);
    out.rate.put(t, measured.rate);
    Ok(force)
}

// Adds the force of a tendon at the dof of a term's joint.
fn pull_one(model: &Model, term: &Term, force: &Fix<32>, dofs: &mut [Wide<64>])
    requires joint { IsScalar model.now.joints term.now.joint }
    requires coef { unsigned_abs term.now.coef.mid ≤ 2 ^ 42 }
    requires force { unsigned_abs force.now.mid ≤ 2 ^ 52 }
    requires room { length dofs.old ≡ 64 }
    requires dofs { (d : ℕ) → unsigned_abs (wide_at dofs.old d) ≤ 2 ^ 110 }
    ensures dofs { (d : ℕ) → d < model.now.nv → wide_at dofs.new d ≡ wide_at dofs.old d
        +ℤ spec.term_pull term.now force.now.mid (dof model.now.dofs d).joint }
    ensures sizes { (d : ℕ) → unsigned_abs (wide_at dofs.new d)
        ≤ unsigned_abs (wide_at dofs.old d) + 2 ^ 94 }
{
    let pull = plus_product(&Wide { raw: 0 }, &term.coef, force);
    add_at(dofs, dof_of(model, term.joint), &pull);
}

// Adds the force of a tendon at the dofs of its terms.
fn pull(model: &Model, terms: &Array<Term>, force: &Fix<32>, dofs: &mut [Wide<64>])
    requires terms { taken.AreTerms model.now terms.now }
    requires force { unsigned_abs force.now.mid ≤ 2 ^ 52 }
    requires room { length dofs.old ≡ 64 }
    requires dofs { (d : ℕ) → unsigned_abs (wide_at dofs.old d) ≤ 2 ^ 108 }
    ensures dofs { (d : ℕ) → d < model.now.nv → wide_at dofs.new d ≡ wide_at dofs.old d
        +ℤ spec.pull terms.now force.now.mid (dof model.now.dofs d).joint }
    ensures sizes { (d : ℕ) → unsigned_abs (wide_at dofs.new d)
        ≤ unsigned_abs (wide_at dofs.old d) + 2 ^ 100 }
{
    for i in 0..terms.len() {
        pull_one(model, terms.entry(i), force, dofs);
    }
}

// Writes the length and the rate of tendon `t`, and adds its force at its dofs.
fn take_tendon(
    model: &Model,
    state: &State,
    t: usize,
    motors: &[Wide<64>],
    dofs: &mut [Wide<64>],
    out: &mut Applied,
) -> Result<(), OutOfRange>
    requires fits { Fits model.now state.now }
    requires tendon { t < length model.now.tendons }
    requires motor_room { length motors.now ≡ 64 }
    requires motors { (k : ℕ) → unsigned_abs (wide_at motors.now k) ≤ 2 ^ 100 }
    requires dof_room { length dofs.old ≡ 64 }
    requires dofs { (d : ℕ) → unsigned_abs (wide_at dofs.old d) ≤ 2 ^ 108 }
    requires room { AppliedRoom model.now out.old }
    ensures room { AppliedRoom model.now out.new }
    ensures writes { OnOk result (taken.WritesStretch model.now state.now t out.old out.new) }
    ensures dofs { OnOk result ((d : ℕ) → d < model.now.nv → wide_at dofs.new d
        ≡ wide_at dofs.old d +ℤ spec.pull_from model.now state.now
        (dof model.now.dofs d).joint (wide_at motors.now) t) }
    ensures sizes { OnOk result ((d : ℕ) → unsigned_abs (wide_at dofs.new d)
        ≤ unsigned_abs (wide_at dofs.old d) + 2 ^ 100) }
    ensures first { refusal_of result
        ≡ spec.tendon_fault_from model.now state.now t (wide_at motors.now t) }
{
    let force = write_tendon(model, state, t, &motors[t], out)?;
    pull(model, &model.tendons.entry(t).terms, &force, dofs);
    Ok(())
}

/// Writes the lengths and the rates of all tendons, and adds their forces at their dofs, from what
/// motors add to each tendon.
pub(crate) fn take_tendons(
    model: &Model,
    state: &State,
    motors: &[Wide<64>],
    dofs: &mut [Wide<64>],
    out: &mut Applied,
) -> Result<(), OutOfRange>
    requires fits { Fits model.now state.now }
    requires motor_room { length motors.now ≡ 64 }
    requires motors { (k : ℕ) → unsigned_abs (wide_at motors.now k) ≤ 2 ^ 100 }
    requires dof_room { length dofs.old ≡ 64 }
    requires dofs { (d : ℕ) → unsigned_abs (wide_at dofs.old d) ≤ 2 ^ 100 }
    requires room { AppliedRoom model.now out.old }
    ensures room { AppliedRoom model.now out.new }
    ensures stretches { OnOk result (taken.HasStretches model.now state.now
        (length model.now.tendons) out.new) }
    ensures dofs { OnOk result ((d : ℕ) → d < model.now.nv → wide_at dofs.new d
        ≡ wide_at dofs.old d +ℤ sum_to (length model.now.tendons)
        (spec.pull_from model.now state.now (dof model.now.dofs d).joint (wide_at motors.now))) }
    ensures sizes { OnOk result ((d : ℕ) → unsigned_abs (wide_at dofs.new d) ≤ 2 ^ 107) }
    ensures first { refusal_of result ≡ first_to (length model.now.tendons)
        (λ t. spec.tendon_fault_from model.now state.now t (wide_at motors.now t)) }
{
    for t in 0..model.tendons.len() {
        take_tendon(model, state, t, motors, dofs, out)?;
    }
    Ok(())
}
