// Entries of a factor, and their products within a limit.
ghost use Rattle.std.specs.Prelude.{◌≡◌, ◌≢◌, true, ◌+◌, ◌^◌, ◌<◌, ◌≤◌, ◌*ℤ◌, unsigned_abs, IfOk};
ghost use Rattle.fx_whole.specs.First.{refusal_of};
ghost use Rattle.mj_tree.specs.Listing.{height, start};
ghost use Rattle.mj_types.specs.FactorRooms.{FactorRoom};
ghost use Rattle.mj_types.specs.Forests.{above_in};
ghost use Rattle.mj_types.specs.Parts.{number_at};
ghost use Rattle.mj_factor.specs.Stored.{entry, IsFactor};
ghost use Rattle.mj_quadratic.specs.Forms as forms;
ghost use Rattle.mj_ball.specs.Shifts as spec;

use fx_num::{Fix, Number, Over, Wide};
use fx_whole::{product as whole_product, wide_product};
use mj_factor::lists::begin;
use mj_types::{Factor, Model};

// Whether dof `i` is above dof `r`, whose list can name `i` at `place` only.
fn is_named(model: &Model, factor: &Factor, r: usize, i: usize, place: usize) -> bool
    requires room { FactorRoom model.now factor.now }
    requires row { r < model.now.nv }
    requires column { i < model.now.nv }
    requires place { place ≡ start (above_in model.now) r + height (above_in model.now) i }
    ensures { result ≡ above_in model.now i r }
{
    place < begin(model, factor, r + 1) && factor.above.at(place) == i + 1
}

// The stored entry of row `r` and column `i`, with `above` dofs above `i`; 0 where `i` isn't above `r`.
fn stored(model: &Model, factor: &Factor, r: usize, i: usize, above: usize) -> Fix<32>
    requires factor { IsFactor model.now factor.now }
    requires row { r < model.now.nv }
    requires column { i < model.now.nv }
    requires height { above ≡ height (above_in model.now) i }
    ensures value { result.mid ≡ entry (above_in model.now) factor.now.l r i }
    ensures small { unsigned_abs result.mid ≤ 2 ^ 48 }
{
    let place = begin(model, factor, r) + above;
    if is_named(model, factor, r, i, place) {
        *factor.l.entry(place)
    } else {
        Number { mid: 0, rad: () }
    }
}

// Row `r` and column `i` of L, with its diagonal. `above` dofs are above `i`.
fn lower_entry(model: &Model, factor: &Factor, r: usize, i: usize, above: usize) -> Fix<32>
    requires factor { IsFactor model.now factor.now }
    requires row { r < model.now.nv }
    requires column { i < model.now.nv }
    requires height { above ≡ height (above_in model.now) i }
    ensures value { result.mid
        ≡ spec.with_diagonal (entry (above_in model.now) factor.now.l) r i }
    ensures small { unsigned_abs result.mid ≤ 2 ^ 48 }
{
    if r == i {
        Number {
            mid: 1 << 32,
            rad: (),
        }
    } else {
        stored(model, factor, r, i, above)
    }
}

// The stored entry of row `r` and column `i`, where `i` is above `r`: no look at the names is needed.
fn listed_entry(model: &Model, factor: &Factor, r: usize, i: usize, above: usize) -> Fix<32>
    requires factor { IsFactor model.now factor.now }
    requires row { r < model.now.nv }
    requires column { i < model.now.nv }
    requires height { above ≡ height (above_in model.now) i }
    requires meets { above_in model.now i r ≡ true }
    ensures value { result.mid ≡ entry (above_in model.now) factor.now.l r i }
    ensures small { unsigned_abs result.mid ≤ 2 ^ 48 }
{
    *factor.l.entry(begin(model, factor, r) + above)
}

// `lower_entry` where `i` is `r` or above it.
fn known_entry(model: &Model, factor: &Factor, r: usize, i: usize, above: usize) -> Fix<32>
    requires factor { IsFactor model.now factor.now }
    requires row { r < model.now.nv }
    requires column { i < model.now.nv }
    requires height { above ≡ height (above_in model.now) i }
    requires meets { r ≢ i → above_in model.now i r ≡ true }
    ensures value { result.mid
        ≡ spec.with_diagonal (entry (above_in model.now) factor.now.l) r i }
    ensures small { unsigned_abs result.mid ≤ 2 ^ 48 }
{
    if r == i {
        Number {
            mid: 1 << 32,
            rad: (),
        }
    } else {
        listed_entry(model, factor, r, i, above)
    }
}

/// `x`, where its size is at most 2^116.
pub(crate) fn within(x: &Wide<104>) -> Result<Wide<104>, Over>
    ensures value { IfOk result (λ y. y.raw ≡ x.now.raw) }
    ensures small { IfOk result (λ y. unsigned_abs y.raw ≤ 2 ^ 116) }
    ensures first { refusal_of result ≡ spec.too_large x.now.raw }
{
    if x.raw.unsigned_abs() <= 1 << 116 {
        Ok(*x)
    } else {
        Err(Over::Value)
    }
}

// `d * l`.
fn scaled(d: &Fix<40>, l: &Fix<32>) -> Wide<72>
    ensures { result.raw ≡ d.now.mid *ℤ l.now.mid }
{
    Wide {
        raw: whole_product(d.mid, l.mid),
    }
}

// `a * b`, where its size is at most 2^116. The product of a lesser `a` can't overflow.
fn times(a: &Wide<72>, b: &Fix<32>) -> Result<Wide<104>, Over>
    requires { unsigned_abs b.now.mid ≤ 2 ^ 48 }
    ensures value { IfOk result (λ y. y.raw ≡ a.now.raw *ℤ b.now.mid) }
    ensures small { IfOk result (λ y. unsigned_abs y.raw ≤ 2 ^ 116) }
    ensures first { refusal_of result ≡ spec.too_large (a.now.raw *ℤ b.now.mid) }
{
    if a.raw.unsigned_abs() <= 1 << 78 {
        return within(&Wide {
            raw: wide_product(a.raw, i128::from(b.mid)),
        });
    }
    match a.raw.checked_mul(i128::from(b.mid)) {
        Some(raw) => within(&Wide { raw }),
        None => Err(Over::Value),
    }
}

/// `D_r L_ri L_rj`, where `j` is `i` or above it. `above_i` and `above_j` dofs are above `i` and `j`.
pub(crate) fn product(
    model: &Model,
    factor: &Factor,
    i: usize,
    above_i: usize,
    j: usize,
    above_j: usize,
    r: usize,
) -> Result<Wide<104>, Over>
    requires factor { IsFactor model.now factor.now }
    requires row { r < model.now.nv }
    requires first { i < model.now.nv }
    requires first_height { above_i ≡ height (above_in model.now) i }
    requires second { j < model.now.nv }
    requires second_height { above_j ≡ height (above_in model.now) j }
    requires meets { j ≢ i → above_in model.now j i ≡ true }
    ensures value { IfOk result (λ y. y.raw ≡ forms.product (number_at factor.now.d)
        (spec.with_diagonal (entry (above_in model.now) factor.now.l)) i j r) }
    ensures small { IfOk result (λ y. unsigned_abs y.raw ≤ 2 ^ 116) }
    ensures first { refusal_of result ≡ spec.too_large (forms.product (number_at factor.now.d)
        (spec.with_diagonal (entry (above_in model.now) factor.now.l)) i j r) }
{
    let left = lower_entry(model, factor, r, i, above_i);
    if left.mid == 0 {
        return Ok(Wide { raw: 0 });
    }
    let right = known_entry(model, factor, r, j, above_j);
    times(&scaled(factor.d.entry(r), &left), &right)
}
