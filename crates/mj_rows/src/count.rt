// How many rows stand.
ghost use Rattle.std.specs.Prelude.{◌≡◌, ℕ, ◌+◌, ◌*◌, ◌<◌, ◌≤◌, cond, length, IfOk};
ghost use Rattle.fx_whole.specs.First.{refusal_of};
ghost use Rattle.mj_types.specs.Applieds.{AreApplied};
ghost use Rattle.mj_types.specs.Parts.{number_at};
ghost use Rattle.mj_types.specs.Placed.{Placing};
ghost use Rattle.mj_types.specs.Rooms.{ContactsRoom};
ghost use Rattle.mj_types.specs.States.{Fits};
ghost use Rattle.mj_contact.specs.Sizes.{AreUsable};
ghost use Rattle.mj_rows.specs.Constraints as spec;
ghost use Rattle.mj_rows.specs.Limits.{joint_limits, tendon_limits};

use crate::edges::edge_count;
use crate::joints::has_friction;
use crate::limits::{has_high, has_low, has_tendon_high, has_tendon_low};
use mj_types::{Applied, Contacts, Model, OutOfRange, Quantity, State};

// 1 where a row stands.
fn one_if(stands: bool) -> usize
    ensures value { result ≡ cond {A = ℕ} stands 1 0 }
    ensures few { result ≤ 1 }
{
    if stands { 1 } else { 0 }
}

// How many joints there are.
fn joint_count(model: &Model) -> usize
    ensures value { result ≡ length model.now.joints }
    ensures few { result ≤ 64 }
{
    model.joints.len()
}

fn limits_of_joint(model: &Model, state: &State, j: usize) -> usize
    requires fits { Fits model.now state.now }
    requires joint { j < length model.now.joints }
    ensures value { result ≡ length (joint_limits model.now state.now j) }
    ensures few { result ≤ 2 }
{
    one_if(has_low(model, state, j)) + one_if(has_high(model, state, j))
}

fn limits_of_tendon(model: &Model, applied: &Applied, t: usize) -> usize
    requires applied { AreApplied model.now applied.now }
    requires tendon { t < length model.now.tendons }
    ensures value { result
        ≡ length (tendon_limits model.now (number_at applied.now.length) t) }
    ensures few { result ≤ 2 }
{
    one_if(has_tendon_low(model, applied, t)) + one_if(has_tendon_high(model, applied, t))
}

fn friction_count(model: &Model) -> usize
    ensures value { result ≡ length (spec.all_frictions model.now) }
    ensures few { result ≤ 64 }
{
    let mut count = 0;
    for j in 0..joint_count(model) {
        count += one_if(has_friction(model, j));
    }
    count
}

fn joint_limit_count(model: &Model, state: &State) -> usize
    requires fits { Fits model.now state.now }
    ensures value { result ≡ length (spec.all_joint_limits model.now state.now) }
    ensures few { result ≤ 128 }
{
    let mut count = 0;
    for j in 0..joint_count(model) {
        count += limits_of_joint(model, state, j);
    }
    count
}

fn tendon_limit_count(model: &Model, applied: &Applied) -> usize
    requires applied { AreApplied model.now applied.now }
    ensures value { result
        ≡ length (spec.all_tendon_limits model.now (number_at applied.now.length)) }
    ensures few { result ≤ 128 }
{
    let mut count = 0;
    for t in 0..model.tendons.len() {
        count += limits_of_tendon(model, applied, t);
    }
    count
}

fn all_edges_count(model: &Model, contacts: &Contacts) -> usize
    requires usable { AreUsable (length model.now.geoms) contacts.now.list.list }
    requires room { ContactsRoom model.now contacts.now }
    ensures value { (x : Placing) → result
        ≡ length (spec.all_edges model.now x contacts.now.list.list) }
    ensures few { result ≤ 4096 }
{
    let mut count = 0;
    for k in 0..contacts.list.len() {
        count += edge_count(model, contacts.list.entry(k));
    }
    count
}

/// How many rows stand in a state: idle ones too. Takes no memory.
pub fn row_count(model: &Model, state: &State, applied: &Applied, contacts: &Contacts) -> usize
    requires fits { Fits model.now state.now }
    requires applied { AreApplied model.now applied.now }
    requires usable { AreUsable (length model.now.geoms) contacts.now.list.list }
    requires room { ContactsRoom model.now contacts.now }
    ensures { (x : Placing) → result ≡ length (spec.constraints model.now state.now x
        (number_at applied.now.length) contacts.now.list.list) }
{
    model.equalities.len()
        + friction_count(model)
        + joint_limit_count(model, state)
        + tendon_limit_count(model, applied)
        + all_edges_count(model, contacts)
}

/// Nothing where at most `njmax` rows stand; else the fault of their number. Takes no memory.
pub fn judge_count(
    model: &Model,
    state: &State,
    applied: &Applied,
    contacts: &Contacts,
) -> Result<(), OutOfRange>
    requires fits { Fits model.now state.now }
    requires applied { AreApplied model.now applied.now }
    requires usable { AreUsable (length model.now.geoms) contacts.now.list.list }
    requires room { ContactsRoom model.now contacts.now }
    ensures few { IfOk result (λ _. (x : Placing) → length (spec.constraints model.now state.now x
        (number_at applied.now.length) contacts.now.list.list) ≤ model.now.njmax) }
    ensures first { (x : Placing) → refusal_of result ≡ spec.constraints_fault model.now
        (spec.constraints model.now state.now x (number_at applied.now.length)
        contacts.now.list.list) }
{
    let good = row_count(model, state, applied, contacts) <= model.njmax;
    OutOfRange::unless(good, Quantity::Rows, model.njmax + 1)
}
