// What a factor leaves of the shifted mass matrix.
ghost use Rattle.std.specs.Prelude.{◌≡◌, ◌≢◌, false, true, pos, length, ◌+◌, ◌*◌, ◌^◌, ◌<◌, ◌≤◌, ◌+ℤ◌, ◌-ℤ◌, ◌*ℤ◌, unsigned_abs, IfOk};
ghost use Rattle.fx_whole.specs.First.{refusal_of, first_to};
ghost use Rattle.fx_whole.specs.Sums.{sum_to};
ghost use Rattle.mj_types.specs.FactorRooms.{FactorRoom};
ghost use Rattle.mj_types.specs.Forests.{above_in};
ghost use Rattle.mj_types.specs.Masses as masses;
ghost use Rattle.mj_types.specs.Parts.{number_at};
ghost use Rattle.mj_factor.specs.Stored.{entry, shifted_mass, IsFactor};
ghost use Rattle.mj_quadratic.specs.Forms as forms;
ghost use Rattle.mj_ball.specs.Shifts as spec;

use crate::entries::{product, within};
use fx_num::{Fix, Over, Wide};
use fx_whole::{difference, scale_up_wide, sum};
use mj_factor::lists::{height, is_above};
use mj_factor::mass_of;
use mj_types::{Factor, Mass, Model};

// Row `i` and column `j` of the mass matrix less `shift` on its diagonal.
fn matrix_entry(mass: &Mass, n: usize, shift: &Fix<40>, i: usize, j: usize) -> Wide<40>
    requires few { n ≤ 64 }
    requires room { length mass.now.m ≡ n * n }
    requires row { i < n }
    requires column { j < n }
    requires mass { unsigned_abs (masses.mass_at n mass.now.m i j) ≤ 2 ^ 60 }
    requires shift { unsigned_abs shift.now.mid ≤ 2 ^ 60 }
    ensures value { result.raw
        ≡ forms.less_diagonal shift.now.mid (masses.mass_at n mass.now.m) i j }
    ensures small { unsigned_abs result.raw ≤ 2 ^ 61 }
{
    let whole = mass_of(mass, n, i, j);
    if i == j {
        Wide {
            raw: i128::from(whole.mid) - i128::from(shift.mid),
        }
    } else {
        Wide {
            raw: i128::from(whole.mid),
        }
    }
}

// `a + b`.
fn plus(a: &Wide<104>, b: &Wide<104>) -> Wide<104>
    requires first { unsigned_abs a.now.raw ≤ 2 ^ 122 }
    requires second { unsigned_abs b.now.raw ≤ 2 ^ 116 }
    ensures value { result.raw ≡ a.now.raw +ℤ b.now.raw }
    ensures size { unsigned_abs result.raw ≤ unsigned_abs a.now.raw + 2 ^ 116 }
{
    Wide {
        raw: sum(a.raw, b.raw),
    }
}

// `a` at scale 104, less `b`.
fn left_of(a: &Wide<40>, b: &Wide<104>) -> Wide<104>
    requires first { unsigned_abs a.now.raw ≤ 2 ^ 61 }
    requires second { unsigned_abs b.now.raw ≤ 2 ^ 122 }
    ensures { result.raw ≡ a.now.raw *ℤ pos (2 ^ 64) -ℤ b.now.raw }
{
    Wide {
        raw: difference(scale_up_wide(a.raw, 64), b.raw),
    }
}

// Whether `j` is `i` or above it: where it isn't, no row is at or below both.
fn meets(model: &Model, factor: &Factor, i: usize, j: usize) -> bool
    requires room { FactorRoom model.now factor.now }
    requires first { i < model.now.nv }
    requires second { j ≤ i }
    ensures apart { result ≡ false → (j < i) × (above_in model.now j i ≡ false) }
    ensures meets { result ≡ true → j ≢ i → above_in model.now j i ≡ true }
{
    j == i || is_above(model, factor, j, i)
}

// The sum of the products `D_r L_ri L_rj` over all rows: those of rows before `i` are 0.
fn products(model: &Model, factor: &Factor, i: usize, j: usize) -> Result<Wide<104>, Over>
    requires factor { IsFactor model.now factor.now }
    requires first { i < model.now.nv }
    requires second { j ≤ i }
    ensures value { IfOk result (λ y. y.raw ≡ sum_to model.now.nv
        (forms.product (number_at factor.now.d)
        (spec.with_diagonal (entry (above_in model.now) factor.now.l)) i j)) }
    ensures small { IfOk result (λ y. unsigned_abs y.raw ≤ 2 ^ 122) }
    ensures first { refusal_of result ≡ first_to model.now.nv (λ r. spec.too_large
        (forms.product (number_at factor.now.d)
        (spec.with_diagonal (entry (above_in model.now) factor.now.l)) i j r)) }
{
    if !meets(model, factor, i, j) {
        return Ok(Wide { raw: 0 });
    }
    let above_i = height(model, factor, i);
    let above_j = height(model, factor, j);
    let mut total = Wide { raw: 0 };
    for r in i..model.nv {
        let term = product(model, factor, i, above_i, j, above_j, r)?;
        total = plus(&total, &term);
    }
    Ok(total)
}

// The same for any two dofs, in any order.
fn products_of(model: &Model, factor: &Factor, i: usize, j: usize) -> Result<Wide<104>, Over>
    requires factor { IsFactor model.now factor.now }
    requires first { i < model.now.nv }
    requires second { j < model.now.nv }
    ensures value { IfOk result (λ y. y.raw ≡ sum_to model.now.nv
        (forms.product (number_at factor.now.d)
        (spec.with_diagonal (entry (above_in model.now) factor.now.l)) i j)) }
    ensures small { IfOk result (λ y. unsigned_abs y.raw ≤ 2 ^ 122) }
    ensures first { refusal_of result ≡ first_to model.now.nv (λ r. spec.too_large
        (forms.product (number_at factor.now.d)
        (spec.with_diagonal (entry (above_in model.now) factor.now.l)) i j r)) }
{
    if j <= i {
        products(model, factor, i, j)
    } else {
        products(model, factor, j, i)
    }
}

// The error of row `i` and column `j`.
fn error(
    model: &Model,
    mass: &Mass,
    shift: &Fix<40>,
    factor: &Factor,
    i: usize,
    j: usize,
) -> Result<Wide<104>, Over>
    requires mass { masses.IsMass model.now mass.now }
    requires shift { unsigned_abs shift.now.mid ≤ 2 ^ 60 }
    requires factor { IsFactor model.now factor.now }
    requires first { i < model.now.nv }
    requires second { j < model.now.nv }
    ensures value { IfOk result (λ y. y.raw ≡ spec.error_at model.now.nv
        (shifted_mass shift.now.mid model.now mass.now) (number_at factor.now.d)
        (spec.with_diagonal (entry (above_in model.now) factor.now.l)) i j) }
    ensures small { IfOk result (λ y. unsigned_abs y.raw ≤ 2 ^ 116) }
    ensures first { refusal_of result ≡ spec.error_fault model.now.nv
        (shifted_mass shift.now.mid model.now mass.now) (number_at factor.now.d)
        (spec.with_diagonal (entry (above_in model.now) factor.now.l)) i j }
{
    let total = products_of(model, factor, i, j)?;
    let whole = matrix_entry(mass, model.nv, shift, i, j);
    let left = within(&left_of(&whole, &total))?;
    Ok(left)
}

// The sizes of the errors of row `i`, added up.
fn row_size(
    model: &Model,
    mass: &Mass,
    shift: &Fix<40>,
    factor: &Factor,
    i: usize,
) -> Result<u128, Over>
    requires mass { masses.IsMass model.now mass.now }
    requires shift { unsigned_abs shift.now.mid ≤ 2 ^ 60 }
    requires factor { IsFactor model.now factor.now }
    requires row { i < model.now.nv }
    ensures value { IfOk result (λ y. y ≡ forms.row_size model.now.nv (spec.error_at model.now.nv
        (shifted_mass shift.now.mid model.now mass.now) (number_at factor.now.d)
        (spec.with_diagonal (entry (above_in model.now) factor.now.l))) i) }
    ensures small { IfOk result (λ y. y ≤ 2 ^ 122) }
    ensures first { refusal_of result ≡ spec.row_fault model.now.nv
        (shifted_mass shift.now.mid model.now mass.now) (number_at factor.now.d)
        (spec.with_diagonal (entry (above_in model.now) factor.now.l)) i }
{
    let mut size = 0u128;
    for j in 0..model.nv {
        let left = error(model, mass, shift, factor, i, j)?;
        size += left.raw.unsigned_abs();
    }
    Ok(size)
}

/// The largest sum of the sizes of a row's errors.
pub(crate) fn largest_row(
    model: &Model,
    mass: &Mass,
    shift: &Fix<40>,
    factor: &Factor,
) -> Result<u128, Over>
    requires mass { masses.IsMass model.now mass.now }
    requires shift { unsigned_abs shift.now.mid ≤ 2 ^ 60 }
    requires factor { IsFactor model.now factor.now }
    ensures value { IfOk result (λ y. y ≡ spec.largest_row model.now.nv
        (shifted_mass shift.now.mid model.now mass.now) (number_at factor.now.d)
        (spec.with_diagonal (entry (above_in model.now) factor.now.l))) }
    ensures small { IfOk result (λ y. y ≤ 2 ^ 122) }
    ensures first { refusal_of result ≡ spec.errors_fault model.now.nv
        (shifted_mass shift.now.mid model.now mass.now) (number_at factor.now.d)
        (spec.with_diagonal (entry (above_in model.now) factor.now.l)) }
{
    let mut greatest = 0u128;
    for i in 0..model.nv {
        let size = row_size(model, mass, shift, factor, i)?;
        greatest = greatest.max(size);
    }
    Ok(greatest)
}
