// The mass matrix, dof after dof.
ghost use Rattle.std.specs.Prelude.{◌≡◌, ℕ, true, false, slice_index_or, ◌+◌, ◌*◌, ◌^◌, ◌<◌, ◌≤◌, ◌-ℤ◌, ◌*ℤ◌, pos, unsigned_abs, length, OnOk, IfOk};
ghost use Rattle.fx_whole.specs.First.{refusal_of, first_to};
ghost use Rattle.fx_vec.specs.Sizes.{Within6, Below6};
ghost use Rattle.fx_vec.specs.Spatial.{Inertia};
ghost use Rattle.fx_vec.specs.Views.{spatial, spatial_radii};
ghost use Rattle.mj_tree.specs.Tree.{at_or_above};
ghost use Rattle.mj_types.specs.Masses.{IsMass, mass_at, mass_radius_at};
ghost use Rattle.mj_types.specs.Parts.{parent_of};
ghost use Rattle.mj_types.specs.Placed.{spatial_at};
ghost use Rattle.mj_types.specs.Rooms.{MassRoom};
ghost use Rattle.mj_inertia.specs.CompositeBodies.{IsCompositeOf, AreComposites};
ghost use Rattle.mj_inertia.specs.MassEntries as spec;
ghost use Rattle.mj_inertia.specs.Written as written;

use crate::numbers::{entry, entry_above, momentum};
use fx_list::Array;
use fx_near::{Band, Near};
use fx_num::{Fix, Number, Plain};
use fx_vec::Sp6;
use mj_types::{Composite, Mass, Model, OutOfRange};

// The first of a body, its parent, its parent's parent .. whose number is at most `body`.
fn climb(model: &Model, body: usize, from: usize) -> usize
    requires { from ≤ length model.now.bodies }
    ensures low { result ≤ body }
    ensures there { result ≤ length model.now.bodies }
    ensures same { (b : ℕ) → b ≤ body → at_or_above (parent_of model.now.bodies) b result
        ≡ at_or_above (parent_of model.now.bodies) b from }
{
    let mut at = from;
    while body < at {
        at = model.bodies.entry(at - 1).parent;
    }
    at
}

// For each dof up to `j`, whether it is dof `j` or above it: one climb from the body of dof `j`
// meets the bodies of all dofs above.
fn joins_of(model: &Model, j: usize) -> [bool; 64]
    requires { j < model.now.nv }
    ensures { (i : ℕ) → i ≤ j → slice_index_or result i false ≡ spec.joins model.now i j }
{
    let mut joins = [false; 64];
    let mut at = model.dofs.at(j).body;
    for s in 0..j + 1 {
        let body = model.dofs.at(j - s).body;
        at = climb(model, body, at);
        joins[j - s] = at == body;
    }
    joins
}

// The armature of dof `j` where `i` is `j`, and else 0.
fn armature(model: &Model, i: usize, j: usize) -> Fix<40>
    requires dof { j < model.now.nv }
    ensures value { result.mid ≡ spec.armature model.now i j }
    ensures small { unsigned_abs result.mid ≤ 2 ^ 53 }
{
    if i == j {
        model.joints.entry(model.dofs.at(j).joint - 1).armature
    } else {
        Number { mid: 0, rad: () }
    }
}

// `M_ij` with its radius, from the momentum of dof `j`; 0 where dof `i` isn't above dof `j`.
fn entry_of(
    model: &Model,
    column: &[Sp6<Plain, 32>],
    momentum: &Sp6<Band, 40>,
    joins: bool,
    i: usize,
    j: usize,
) -> Result<Near<40>, OutOfRange>
    requires columns { spec.AreColumns model.now column.now }
    requires momentum { Within6 (spatial momentum.now) (2 ^ 62) }
    requires radius { Below6 (spatial_radii (λ r. r) momentum.now) 1 }
    requires joins { joins ≡ spec.joins model.now i j }
    requires order { i ≤ j }
    requires dof { j < model.now.nv }
    ensures value { IfOk result (λ x. x ≡ written.near_entry model.now (spatial_at column.now i)
        (spatial momentum.now) (spatial_radii (λ r. r) momentum.now) i j) }
    ensures first { refusal_of result ≡ spec.entry_fault model.now (spatial_at column.now)
        (spatial momentum.now) j i }
{
    if joins {
        match entry(&column[i], momentum, &armature(model, i, j), j) {
            Ok(x) => Ok(x),
            Err(fault) => Err(fault),
        }
    } else {
        Ok(Number { mid: 0, rad: 0 })
    }
}

// `M_ij` with its radius for i before j, from the momentum of dof `j`; 0 where dof `i` isn't above
// dof `j`.
fn earlier_entry(
    model: &Model,
    column: &[Sp6<Plain, 32>],
    momentum: &Sp6<Band, 40>,
    joins: bool,
    i: usize,
    j: usize,
) -> Result<Near<40>, OutOfRange>
    requires columns { spec.AreColumns model.now column.now }
    requires momentum { Within6 (spatial momentum.now) (2 ^ 62) }
    requires radius { Below6 (spatial_radii (λ r. r) momentum.now) 1 }
    requires joins { joins ≡ spec.joins model.now i j }
    requires order { i < j }
    requires dof { j < model.now.nv }
    ensures value { IfOk result (λ x. x ≡ written.near_entry model.now (spatial_at column.now i)
        (spatial momentum.now) (spatial_radii (λ r. r) momentum.now) i j) }
    ensures first { refusal_of result ≡ spec.entry_fault model.now (spatial_at column.now)
        (spatial momentum.now) j i }
{
    if joins {
        match entry_above(&column[i], momentum, j) {
            Ok(x) => Ok(x),
            Err(fault) => Err(fault),
        }
    } else {
        Ok(Number { mid: 0, rad: 0 })
    }
}

// Writes `x` in row `i` and column `j` and in row `j` and column `i` of a matrix of width `n`.
fn put_both(n: usize, i: usize, j: usize, x: Near<40>, out: &mut Array<Near<40>>)
    requires order { i ≤ j }
    requires row { j < n }
    requires few { n ≤ 64 }
    requires room { length out.old ≡ n * n }
    ensures room { length out.new ≡ n * n }
    ensures writes { written.WritesBoth n i j x out.old out.new }
{
    out.put(i * n + j, x);
    out.put(j * n + i, x);
}

// Writes column `j` down to row `j`, and row `j` as its mirror image.
fn write_row(
    model: &Model,
    column: &[Sp6<Plain, 32>],
    momentum: &Sp6<Band, 40>,
    joins: &[bool],
    j: usize,
    out: &mut Mass,
) -> Result<(), OutOfRange>
    requires columns { spec.AreColumns model.now column.now }
    requires momentum { Within6 (spatial momentum.now) (2 ^ 62) }
    requires radius { Below6 (spatial_radii (λ r. r) momentum.now) 1 }
    requires width { length joins.now ≡ 64 }
    requires joins { (i : ℕ) → i ≤ j → slice_index_or joins.now i false ≡ spec.joins model.now i j }
    requires dof { j < model.now.nv }
    requires room { MassRoom model.now out.old }
    ensures room { MassRoom model.now out.new }
    ensures writes { OnOk result (written.WritesTo model.now.nv j (j + 1)
        (λ i. written.near_entry model.now (spatial_at column.now i) (spatial momentum.now)
        (spatial_radii (λ r. r) momentum.now) i j) out.old.m out.new.m) }
    ensures first { refusal_of result ≡ first_to (j + 1)
        (spec.entry_fault model.now (spatial_at column.now) (spatial momentum.now) j) }
{
    for i in 0..j {
        let x = earlier_entry(model, column, momentum, joins[i], i, j)?;
        put_both(model.nv, i, j, x, &mut out.m);
    }
    let own = entry_of(model, column, momentum, joins[j], j, j)?;
    put_both(model.nv, j, j, own, &mut out.m);
    Ok(())
}

// The momentum that a unit velocity of dof `j` gives all bodies that it moves.
fn momentum_of(
    model: &Model,
    column: &[Sp6<Plain, 32>],
    composite: &Composite,
    j: usize,
) -> Result<Sp6<Band, 40>, OutOfRange>
    requires columns { spec.AreColumns model.now column.now }
    requires composite { AreComposites model.now composite.now }
    requires dof { j < model.now.nv }
    ensures mid { IfOk result (λ h. spatial h ≡ spec.momentum
        (written.joint_momentum model.now (spatial_at column.now) composite.now j)) }
    ensures rad { IfOk result (λ h. spatial_radii (λ r. r) h ≡ spec.momentum_radius
        (written.joint_momentum model.now (spatial_at column.now) composite.now j)) }
    ensures within { IfOk result (λ h. Within6 (spatial h) (2 ^ 62)) }
    ensures small { IfOk result (λ h. Below6 (spatial_radii (λ r. r) h) 1) }
    ensures first { refusal_of result ≡ spec.momentum_fault
        (written.joint_momentum model.now (spatial_at column.now) composite.now j) j }
{
    let body = model.dofs.at(j).body - 1;
    momentum(composite.list.entry(body), &column[j], j)
}

// Writes row and column `j`, as far as dof `j`.
fn write_dof(
    model: &Model,
    column: &[Sp6<Plain, 32>],
    composite: &Composite,
    j: usize,
    out: &mut Mass,
) -> Result<(), OutOfRange>
    requires columns { spec.AreColumns model.now column.now }
    requires composite { AreComposites model.now composite.now }
    requires dof { j < model.now.nv }
    requires room { MassRoom model.now out.old }
    ensures room { MassRoom model.now out.new }
    ensures writes { OnOk result (written.WritesTo model.now.nv j (j + 1)
        (λ i. written.near_from model.now (spatial_at column.now)
        (written.joint_momentum model.now (spatial_at column.now) composite.now) i j)
        out.old.m out.new.m) }
    ensures first { refusal_of result ≡ spec.dof_fault model.now (spatial_at column.now)
        (written.joint_momentum model.now (spatial_at column.now) composite.now) j }
{
    let momentum = momentum_of(model, column, composite, j)?;
    write_row(model, column, &momentum, &joins_of(model, j), j, out)?;
    Ok(())
}

/// The mass matrix in the space of dofs, with radii, from the motion columns and the composite
/// inertias (Featherstone, Rigid Body Dynamics Algorithms, chapter 6): `M_ij = S_i . h_j` at scale
/// 40 for dof i above dof j or dof j itself, where `h_j` is the composite inertia of dof j's body
/// times `S_j`, at scale 40; each is an exact sum rounded once. The diagonal has the armatures
/// besides, M is symmetric, and 0 where neither dof is above the other. Momentum where a number of
/// `h_j` passes 2^62, Mass where `M_ij` passes 2^60; dof after dof, and of each `M_ij` for i from
/// the first.
pub fn mass_matrix(
    model: &Model,
    column: &[Sp6<Plain, 32>],
    composite: &Composite,
    out: &mut Mass,
) -> Result<(), OutOfRange>
    requires columns { spec.AreColumns model.now column.now }
    requires composite { AreComposites model.now composite.now }
    requires room { MassRoom model.now out.old }
    ensures room { MassRoom model.now out.new }
    ensures first { (inertia : ℕ → Inertia) → IsCompositeOf model.now inertia composite.now
        → refusal_of result ≡ spec.mass_fault model.now (spatial_at column.now) inertia }
    ensures values { (inertia : ℕ → Inertia) → IsCompositeOf model.now inertia composite.now
        → OnOk result ((i j : ℕ) → i < model.now.nv → j < model.now.nv
        → mass_at model.now.nv out.new.m i j
        ≡ spec.mass model.now (spatial_at column.now) inertia i j) }
    ensures radii { (inertia : ℕ → Inertia) → IsCompositeOf model.now inertia composite.now
        → OnOk result ((i j : ℕ) → i < model.now.nv → j < model.now.nv
        → mass_radius_at model.now.nv out.new.m i j
        ≡ spec.mass_radius model.now (spatial_at column.now) inertia i j) }
    ensures covers { (inertia : ℕ → Inertia) → IsCompositeOf model.now inertia composite.now
        → OnOk result ((i j : ℕ) → i < model.now.nv → j < model.now.nv
        → spec.joins model.now i j ≡ true
        → unsigned_abs (spec.unrounded model.now (spatial_at column.now) inertia i j
        -ℤ mass_at model.now.nv out.new.m i j *ℤ pos (2 ^ 64))
        ≤ mass_radius_at model.now.nv out.new.m i j * 2 ^ 64) }
    ensures ranges { OnOk result (IsMass model.now out.new) }
    ensures small_radii { OnOk result ((i j : ℕ) → i < model.now.nv → j < model.now.nv
        → mass_radius_at model.now.nv out.new.m i j ≤ 2 ^ 13) }
{
    for j in 0..model.nv {
        write_dof(model, column, composite, j, out)?;
    }
    Ok(())
}
