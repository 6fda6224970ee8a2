// The rows of a contact's edges.
ghost use Rattle.std.specs.Prelude.{◌≡◌, ℕ, ◌+◌, ◌^◌, ◌<◌, ◌≤◌, ◌+ℤ◌, ◌-ℤ◌, unsigned_abs, length, IfOk, OnOk, false};
ghost use Rattle.fx_whole.specs.First.{refusal_of, first_to};
ghost use Rattle.mj_types.specs.declared.range.Quantity.TheVariants as kind;
ghost use Rattle.mj_types.specs.Lawful.{IsGeom};
ghost use Rattle.mj_types.specs.Parts.{number_at};
ghost use Rattle.mj_types.specs.Placed.{placing_of};
ghost use Rattle.mj_types.specs.Ranges.{limited};
ghost use Rattle.mj_contact.specs.Lists.{margin as margin_of};
ghost use Rattle.mj_contact.specs.Sizes.{IsUsable};
ghost use Rattle.mj_rows.specs.Constraint.{row_of, row_fault};
ghost use Rattle.mj_rows.specs.Edges as spec;
ghost use Rattle.mj_rows.specs.Mixing as mixing;
ghost use Rattle.mj_rows.specs.Slopes.{AreSlopes, slope_at};
ghost use Rattle.mj_rows.specs.Working.{IsReady, IsWritten};

use crate::limits::less;
use crate::mixing::{friction, geom_of, is_frictionless, mixed};
use crate::pushing::pushing;
use crate::slopes::Slope;
use fx_num::{Fix, Number, Wide, narrow_within};
use fx_whole::{difference, nearest_shift, product, sum};
use mj_types::{Contact, Frames, Geom, Model, OutOfRange, Quantity, Row, Source};

// How much a tangent's slope tilts an edge.
fn tilt(friction: &Fix<32>, t: &Fix<32>) -> Wide<32>
    ensures value { result.raw ≡ spec.tilt friction.now.mid t.now.mid }
    ensures size { unsigned_abs result.raw ≤ 2 ^ 95 }
{
    Wide {
        raw: nearest_shift(product(friction.mid, t.mid), 32),
    }
}

// `n + x`.
fn plus(n: &Fix<32>, x: &Wide<32>) -> Wide<32>
    requires { unsigned_abs x.now.raw ≤ 2 ^ 95 }
    ensures { result.raw ≡ n.now.mid +ℤ x.now.raw }
{
    Wide {
        raw: sum(i128::from(n.mid), x.raw),
    }
}

// `n - x`.
fn minus(n: &Fix<32>, x: &Wide<32>) -> Wide<32>
    requires { unsigned_abs x.now.raw ≤ 2 ^ 95 }
    ensures { result.raw ≡ n.now.mid -ℤ x.now.raw }
{
    Wide {
        raw: difference(i128::from(n.mid), x.raw),
    }
}

// The slope of an edge.
pub(crate) fn edge_slope(friction: &Fix<32>, slope: &Slope, edge: u32) -> Wide<32>
    ensures { result.raw ≡ spec.edge_slope friction.now.mid slope.now.normal.mid
        slope.now.first.mid slope.now.second.mid edge }
{
    if edge == 0 {
        Wide {
            raw: i128::from(slope.normal.mid),
        }
    } else if edge == 1 {
        plus(&slope.normal, &tilt(friction, &slope.first))
    } else if edge == 2 {
        minus(&slope.normal, &tilt(friction, &slope.first))
    } else if edge == 3 {
        plus(&slope.normal, &tilt(friction, &slope.second))
    } else {
        minus(&slope.normal, &tilt(friction, &slope.second))
    }
}

// The same number, where it is at most 2^16 in size; else the fault of the row.
fn judged(x: &Wide<32>, number: usize) -> Result<Fix<32>, OutOfRange>
    ensures value { IfOk result (λ n. n.mid ≡ x.now.raw) }
    ensures within { IfOk result (λ n. unsigned_abs n.mid ≤ 2 ^ 48) }
    ensures first { refusal_of result ≡ limited kind.Jacobian number (2 ^ 48) x.now.raw }
{
    match narrow_within(&x.raw, 1 << 48) {
        Ok(mid) => Ok(Number { mid, rad: () }),
        Err(_) => Err(OutOfRange {
            kind: Quantity::Jacobian,
            index: number,
        }),
    }
}

// The slope of an edge at a dof, where it is at most 2^16 in size.
fn edge_at(
    friction: &Fix<32>,
    slopes: &[Slope],
    d: usize,
    edge: u32,
    number: usize,
) -> Result<Fix<32>, OutOfRange>
    requires dof { d < length slopes.now }
    ensures value { IfOk result (λ n. n.mid ≡ spec.edge_slope friction.now.mid
        (slope_at slopes.now d).normal.mid (slope_at slopes.now d).first.mid
        (slope_at slopes.now d).second.mid edge) }
    ensures within { IfOk result (λ n. unsigned_abs n.mid ≤ 2 ^ 48) }
    ensures first { refusal_of result ≡ limited kind.Jacobian number (2 ^ 48)
        (spec.edge_slope friction.now.mid (slope_at slopes.now d).normal.mid
        (slope_at slopes.now d).first.mid (slope_at slopes.now d).second.mid edge) }
{
    judged(&edge_slope(friction, &slopes[d], edge), number)
}

// Writes the Jacobian of an edge from the slopes of its contact.
fn write_edge(
    model: &Model,
    friction: &Fix<32>,
    slopes: &[Slope],
    edge: u32,
    number: usize,
    jacobian: &mut [Fix<32>],
) -> Result<(), OutOfRange>
    requires slopes { length slopes.now ≡ 64 }
    requires room { length jacobian.old ≡ model.now.nv }
    ensures value { OnOk result ((d : ℕ) → d < model.now.nv → number_at jacobian.new d
        ≡ spec.edge_slope friction.now.mid (slope_at slopes.now d).normal.mid
        (slope_at slopes.now d).first.mid (slope_at slopes.now d).second.mid edge) }
    ensures small { OnOk result ((d : ℕ) → d < model.now.nv
        → unsigned_abs (number_at jacobian.new d) ≤ 2 ^ 48) }
    ensures first { refusal_of result ≡ first_to model.now.nv (λ d. limited kind.Jacobian number
        (2 ^ 48) (spec.edge_slope friction.now.mid (slope_at slopes.now d).normal.mid
        (slope_at slopes.now d).first.mid (slope_at slopes.now d).second.mid edge)) }
{
    for d in 0..model.nv {
        jacobian[d] = edge_at(friction, slopes, d, edge, number)?;
    }
    Ok(())
}

// The larger margin of two geoms.
fn margin(a: &Geom, b: &Geom) -> Fix<32>
    requires a { IsGeom a.now }
    requires b { IsGeom b.now }
    ensures value { result.mid ≡ margin_of a.now b.now }
    ensures small { unsigned_abs result.mid ≤ 2 ^ 42 }
{
    if a.margin.mid < b.margin.mid {
        b.margin
    } else {
        a.margin
    }
}

// How far the two geoms are inside of their margin.
fn depth(contact: &Contact, a: &Geom, b: &Geom) -> Fix<32>
    requires dist { unsigned_abs contact.now.dist.mid ≤ 2 ^ 55 }
    requires a { IsGeom a.now }
    requires b { IsGeom b.now }
    ensures value { result.mid ≡ contact.now.dist.mid -ℤ margin_of a.now b.now }
    ensures small { unsigned_abs result.mid ≤ 2 ^ 56 }
{
    less(&contact.dist, &margin(a, b))
}

// The row of an edge.
fn edge_row(model: &Model, frames: &Frames, contact: &Contact, k: usize, edge: u32) -> Row
    requires contact { IsUsable (length model.now.geoms) contact.now }
    requires place { k < 1024 }
    ensures row { result ≡ row_of false
        (spec.edge_of model.now (placing_of frames.now) contact.now k edge) }
    ensures ready { IsReady result }
{
    let _room = frames.column.len();
    let a = geom_of(model, contact.a);
    let b = geom_of(model, contact.b);
    let soft = mixed(&a.soft, &b.soft);
    pushing(Source::Contact(k + 1, edge), &depth(contact, a, b), &soft)
}

/// How many edges a contact has: one without friction, and four with it.
pub fn edge_count(model: &Model, contact: &Contact) -> usize
    requires { IsUsable (length model.now.geoms) contact.now }
    ensures value { result ≡ spec.edge_count model.now contact.now }
    ensures few { result ≤ 4 }
{
    if is_frictionless(geom_of(model, contact.a), geom_of(model, contact.b)) {
        1
    } else {
        4
    }
}

/// The number of a contact's first edge: 0 without friction, and 1 with it.
pub fn first_edge(model: &Model, contact: &Contact) -> u32
    requires { IsUsable (length model.now.geoms) contact.now }
    ensures { result ≡ spec.first_edge model.now contact.now }
{
    if is_frictionless(geom_of(model, contact.a), geom_of(model, contact.b)) {
        0
    } else {
        1
    }
}

/// The row of an edge of the contact at place `k`, of which `number` is the number in the list of rows,
/// and its Jacobian, from the contact's slopes: along the normal, and for the edges 1 to 4 tilted by
/// the friction along the first tangent, against it, along the second and against it. The refusal is
/// that of the first number of its Jacobian that passes 2^16. Takes no memory.
pub fn edge(
    model: &Model,
    frames: &Frames,
    contact: &Contact,
    k: usize,
    edge: u32,
    number: usize,
    slopes: &[Slope],
    jacobian: &mut [Fix<32>],
) -> Result<Row, OutOfRange>
    requires contact { IsUsable (length model.now.geoms) contact.now }
    requires place { k < 1024 }
    requires slopes { AreSlopes model.now (placing_of frames.now) contact.now model.now.nv
        slopes.now }
    requires room { length jacobian.old ≡ model.now.nv }
    ensures row { IfOk result (λ x. x ≡ row_of false
        (spec.edge_of model.now (placing_of frames.now) contact.now k edge)) }
    ensures ready { IfOk result (λ x. IsReady x) }
    ensures written { OnOk result (IsWritten model.now.nv
        (spec.edge_of model.now (placing_of frames.now) contact.now k edge) jacobian.new) }
    ensures first { refusal_of result ≡ row_fault model.now.nv number
        (spec.edge_of model.now (placing_of frames.now) contact.now k edge) }
{
    let a = geom_of(model, contact.a);
    let b = geom_of(model, contact.b);
    let friction = friction(a, b);
    write_edge(model, &friction, slopes, edge, number, jacobian)?;
    Ok(edge_row(model, frames, contact, k, edge))
}
