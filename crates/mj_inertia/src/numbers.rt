// The numbers of the mass matrix, each an exact sum that is rounded once, with radii.
ghost use Rattle.std.specs.Prelude.{◌≡◌, ◌+◌, ◌*◌, ◌^◌, ◌<◌, ◌≤◌, ◌+ℤ◌, unsigned_abs, IfOk};
ghost use Rattle.fx_num.specs.Radii.{product_width};
ghost use Rattle.fx_num.specs.Settled.{over_value};
ghost use Rattle.fx_whole.specs.First.{refusal_of};
ghost use Rattle.fx_vec.specs.Vectors.{no_vector};
ghost use Rattle.fx_vec.specs.Spatial.{inertia_times, pair};
ghost use Rattle.fx_vec.specs.Sizes.{Within, Below, Within6, Below6, no_size, no_size6};
ghost use Rattle.fx_vec.specs.Views.{mids, radii, sums, widths, spatial, spatial_radii, spatial_sums, spatial_widths, inertia as inertia_of};
ghost use Rattle.fx_vec.specs.Widths.{dot_width, pair_width};
ghost use Rattle.mj_types.specs.declared.range.Quantity.TheVariants as kind;
ghost use Rattle.mj_types.specs.Placed.{WithinInertia};
ghost use Rattle.mj_types.specs.Ranges.{limited};
ghost use Rattle.mj_inertia.specs.MassEntries as spec;

use fx_near::{Band, Near};
use fx_num::{Fix, Number, Over, Plain, Sum, Total, narrow_within, none, settle};
use fx_vec::{
    Inertia10, Sp6, Sum3, Sum6, Total3, Total6, V3, Vector3, Vector6, inertia_into, pair_into,
    settle6,
};
use fx_whole::sum;
use mj_types::{OutOfRange, Quantity};

// Three empty sums.
fn no_sums3() -> Sum3<Plain, 72>
    ensures { sums result ≡ no_vector }
{
    Total3 {
        x: none::<Plain, 72>(),
        y: none::<Plain, 72>(),
        z: none::<Plain, 72>(),
    }
}

// An exact sum, with the width 0.
fn exact(sum: &Sum<Plain, 72>) -> Sum<Band, 72>
    ensures mid { result.mid ≡ sum.now.mid }
    ensures width { result.rad ≡ 0 }
{
    Total {
        mid: sum.mid,
        rad: 0,
    }
}

fn exact3(s: &Sum3<Plain, 72>) -> Sum3<Band, 72>
    ensures mid { sums result ≡ sums s.now }
    ensures width { widths (λ w. w) result ≡ no_size }
{
    Total3 {
        x: exact(&s.x),
        y: exact(&s.y),
        z: exact(&s.z),
    }
}

// The momentum of a body that moves with a column, exactly.
fn momentum_sum(inertia: &Inertia10, column: &Sp6<Plain, 32>) -> Sum6<Band, 72>
    requires inertia { WithinInertia (inertia_of inertia.now) (2 ^ 69) }
    requires column { Within6 (spatial column.now) (2 ^ 42) }
    ensures mid { spatial_sums result
        ≡ inertia_times (inertia_of inertia.now) (spatial column.now) }
    ensures width { spatial_widths (λ w. w) result ≡ no_size6 }
{
    let mut sum = Total6 {
        ang: no_sums3(),
        lin: no_sums3(),
    };
    inertia_into::<Plain, 32, 72>(inertia, column, &mut sum);
    Total6 {
        ang: exact3(&sum.ang),
        lin: exact3(&sum.lin),
    }
}

// Six exact sums as the momentum of dof `j`: rounded, with their radii.
fn rounded(sum: &Sum6<Band, 72>, j: usize) -> Result<Sp6<Band, 40>, OutOfRange>
    requires exact { spatial_widths (λ w. w) sum.now ≡ no_size6 }
    requires dof { j < 64 }
    ensures mid { IfOk result (λ h. spatial h ≡ spec.momentum (spatial_sums sum.now)) }
    ensures rad { IfOk result (λ h. spatial_radii (λ r. r) h
        ≡ spec.momentum_radius (spatial_sums sum.now)) }
    ensures within { IfOk result (λ h. Within6 (spatial h) (2 ^ 62)) }
    ensures small { IfOk result (λ h. Below6 (spatial_radii (λ r. r) h) 1) }
    ensures first { refusal_of result ≡ spec.momentum_fault (spatial_sums sum.now) j }
{
    match settle6::<Band, 72, 40>(sum, 1 << 62) {
        Ok(momentum) => Ok(momentum),
        Err(_) => Err(OutOfRange {
            kind: Quantity::Momentum,
            index: j + 1,
        }),
    }
}

/// The momentum that a unit velocity of dof `j` gives bodies with this inertia together, at scale
/// 40. Momentum where a number passes 2^62.
pub(crate) fn momentum(
    inertia: &Inertia10,
    column: &Sp6<Plain, 32>,
    j: usize,
) -> Result<Sp6<Band, 40>, OutOfRange>
    requires inertia { WithinInertia (inertia_of inertia.now) (2 ^ 69) }
    requires column { Within6 (spatial column.now) (2 ^ 42) }
    requires dof { j < 64 }
    ensures mid { IfOk result (λ h. spatial h
        ≡ spec.momentum (inertia_times (inertia_of inertia.now) (spatial column.now))) }
    ensures rad { IfOk result (λ h. spatial_radii (λ r. r) h
        ≡ spec.momentum_radius (inertia_times (inertia_of inertia.now) (spatial column.now))) }
    ensures within { IfOk result (λ h. Within6 (spatial h) (2 ^ 62)) }
    ensures small { IfOk result (λ h. Below6 (spatial_radii (λ r. r) h) 1) }
    ensures first { refusal_of result
        ≡ spec.momentum_fault (inertia_times (inertia_of inertia.now) (spatial column.now)) j }
{
    rounded(&momentum_sum(inertia, column), j)
}

// The numbers of a momentum, without their radii.
fn mids3(v: &V3<Band, 40>) -> V3<Plain, 40>
    ensures { mids result ≡ mids v.now }
{
    Vector3 {
        x: Fix::from_raw(v.x.mid),
        y: Fix::from_raw(v.y.mid),
        z: Fix::from_raw(v.z.mid),
    }
}

fn mids6(s: &Sp6<Band, 40>) -> Sp6<Plain, 40>
    ensures { spatial result ≡ spatial s.now }
{
    Vector6 {
        ang: mids3(&s.ang),
        lin: mids3(&s.lin),
    }
}

// The width of an exact number times one with a radius of at most 1.
fn width(a: &Fix<32>, b: &Near<40>) -> u64
    requires a { unsigned_abs a.now.mid ≤ 2 ^ 42 }
    requires b { b.now.rad ≤ 1 }
    ensures value { result ≡ product_width a.now.mid 0 b.now.mid b.now.rad }
    ensures small { result ≤ 2 ^ 42 }
{
    a.mid.unsigned_abs() * b.rad
}

fn width3(a: &V3<Plain, 32>, b: &V3<Band, 40>) -> u64
    requires a { Within (mids a.now) (2 ^ 42) }
    requires b { Below (radii (λ r. r) b.now) 1 }
    ensures value { result ≡ dot_width (mids a.now) no_size (mids b.now) (radii (λ r. r) b.now) }
    ensures small { result ≤ 3 * 2 ^ 42 }
{
    width(&a.x, &b.x) + width(&a.y, &b.y) + width(&a.z, &b.z)
}

// The product of a column and a momentum, exactly. The column has no radii, so 64 bits hold the width.
fn product_sum(column: &Sp6<Plain, 32>, momentum: &Sp6<Band, 40>) -> Sum<Band, 72>
    requires column { Within6 (spatial column.now) (2 ^ 42) }
    requires momentum { Within6 (spatial momentum.now) (2 ^ 62) }
    requires radius { Below6 (spatial_radii (λ r. r) momentum.now) 1 }
    ensures mid { result.mid ≡ pair (spatial column.now) (spatial momentum.now) }
    ensures width { result.rad ≡ pair_width (spatial column.now) no_size6
        (spatial momentum.now) (spatial_radii (λ r. r) momentum.now) }
    ensures narrow { result.rad ≤ 6 * 2 ^ 42 }
{
    let mut sum = none::<Plain, 72>();
    pair_into::<Plain, 32, 40, 72>(column, &mids6(momentum), &mut sum);
    let width = width3(&column.ang, &momentum.ang) + width3(&column.lin, &momentum.lin);
    Total {
        mid: sum.mid,
        rad: u128::from(width),
    }
}

// The product of a column and a momentum, rounded to scale 40 with its radius. `Over::Value`
// exactly where it passes 2^62.
fn rounded_product(column: &Sp6<Plain, 32>, momentum: &Sp6<Band, 40>) -> Result<Near<40>, Over>
    requires column { Within6 (spatial column.now) (2 ^ 42) }
    requires momentum { Within6 (spatial momentum.now) (2 ^ 62) }
    requires radius { Below6 (spatial_radii (λ r. r) momentum.now) 1 }
    ensures mid { IfOk result (λ x. x.mid
        ≡ spec.rounded_product (spatial column.now) (spatial momentum.now)) }
    ensures rad { IfOk result (λ x. x.rad ≡ spec.rounded_radius (spatial column.now)
        (spatial momentum.now) (spatial_radii (λ r. r) momentum.now)) }
    ensures within { IfOk result (λ x. unsigned_abs x.mid ≤ 2 ^ 62) }
    ensures small { IfOk result (λ x. x.rad ≤ 2 ^ 13) }
    ensures first { refusal_of result ≡ over_value (2 ^ 62)
        (spec.rounded_product (spatial column.now) (spatial momentum.now)) }
{
    match settle::<Band, 72, 40>(product_sum(column, momentum), 1 << 62) {
        Ok(product) => Ok(product),
        Err(over) => Err(over),
    }
}

// The product of a column and a momentum, rounded to scale 40 with its radius. `Over::Value`
// exactly where it passes 2^60.
#[inline(always)]
fn entry_product(column: &Sp6<Plain, 32>, momentum: &Sp6<Band, 40>) -> Result<Near<40>, Over>
    requires column { Within6 (spatial column.now) (2 ^ 42) }
    requires momentum { Within6 (spatial momentum.now) (2 ^ 62) }
    requires radius { Below6 (spatial_radii (λ r. r) momentum.now) 1 }
    ensures mid { IfOk result (λ x. x.mid
        ≡ spec.rounded_product (spatial column.now) (spatial momentum.now)) }
    ensures rad { IfOk result (λ x. x.rad ≡ spec.rounded_radius (spatial column.now)
        (spatial momentum.now) (spatial_radii (λ r. r) momentum.now)) }
    ensures first { refusal_of result ≡ over_value (2 ^ 60)
        (spec.rounded_product (spatial column.now) (spatial momentum.now)) }
{
    match settle::<Band, 72, 40>(product_sum(column, momentum), 1 << 60) {
        Ok(product) => Ok(product),
        Err(over) => Err(over),
    }
}

// A product with an armature, which is exact. Mass where that passes 2^60.
fn with_armature(product: &Near<40>, armature: &Fix<40>, j: usize) -> Result<Near<40>, OutOfRange>
    requires dof { j < 64 }
    ensures mid { IfOk result (λ x. x.mid ≡ product.now.mid +ℤ armature.now.mid) }
    ensures rad { IfOk result (λ x. x.rad ≡ product.now.rad) }
    ensures within { IfOk result (λ x. unsigned_abs x.mid ≤ 2 ^ 60) }
    ensures first { refusal_of result
        ≡ limited kind.Mass (j + 1) (2 ^ 60) (product.now.mid +ℤ armature.now.mid) }
{
    let total = sum(i128::from(product.mid), i128::from(armature.mid));
    match narrow_within(&total, 1 << 60) {
        Ok(mid) => Ok(Number {
            mid,
            rad: product.rad,
        }),
        Err(_) => Err(OutOfRange {
            kind: Quantity::Mass,
            index: j + 1,
        }),
    }
}

/// `M_ij`, at scale 40: the product of the column of dof `i` and the momentum of dof `j`, rounded
/// with its radius, and then an armature. Mass where it passes 2^60.
pub(crate) fn entry(
    column: &Sp6<Plain, 32>,
    momentum: &Sp6<Band, 40>,
    armature: &Fix<40>,
    j: usize,
) -> Result<Near<40>, OutOfRange>
    requires column { Within6 (spatial column.now) (2 ^ 42) }
    requires momentum { Within6 (spatial momentum.now) (2 ^ 62) }
    requires radius { Below6 (spatial_radii (λ r. r) momentum.now) 1 }
    requires armature { unsigned_abs armature.now.mid ≤ 2 ^ 53 }
    requires dof { j < 64 }
    ensures mid { IfOk result (λ x. x.mid ≡ spec.rounded_product (spatial column.now)
        (spatial momentum.now) +ℤ armature.now.mid) }
    ensures rad { IfOk result (λ x. x.rad ≡ spec.rounded_radius (spatial column.now)
        (spatial momentum.now) (spatial_radii (λ r. r) momentum.now)) }
    ensures within { IfOk result (λ x. unsigned_abs x.mid ≤ 2 ^ 60) }
    ensures small { IfOk result (λ x. x.rad ≤ 2 ^ 13) }
    ensures first { refusal_of result ≡ limited kind.Mass (j + 1) (2 ^ 60)
        (spec.rounded_product (spatial column.now) (spatial momentum.now)
        +ℤ armature.now.mid) }
{
    match rounded_product(column, momentum) {
        Ok(product) => with_armature(&product, armature, j),
        Err(_) => Err(OutOfRange {
            kind: Quantity::Mass,
            index: j + 1,
        }),
    }
}

/// `M_ij` for dof i above dof j, which has no armature: `entry`, with its limit judged once.
#[inline(always)]
pub(crate) fn entry_above(
    column: &Sp6<Plain, 32>,
    momentum: &Sp6<Band, 40>,
    j: usize,
) -> Result<Near<40>, OutOfRange>
    requires column { Within6 (spatial column.now) (2 ^ 42) }
    requires momentum { Within6 (spatial momentum.now) (2 ^ 62) }
    requires radius { Below6 (spatial_radii (λ r. r) momentum.now) 1 }
    requires dof { j < 64 }
    ensures mid { IfOk result (λ x. x.mid
        ≡ spec.rounded_product (spatial column.now) (spatial momentum.now)) }
    ensures rad { IfOk result (λ x. x.rad ≡ spec.rounded_radius (spatial column.now)
        (spatial momentum.now) (spatial_radii (λ r. r) momentum.now)) }
    ensures first { refusal_of result ≡ limited kind.Mass (j + 1) (2 ^ 60)
        (spec.rounded_product (spatial column.now) (spatial momentum.now)) }
{
    match entry_product(column, momentum) {
        Ok(product) => Ok(product),
        Err(_) => Err(OutOfRange {
            kind: Quantity::Mass,
            index: j + 1,
        }),
    }
}
