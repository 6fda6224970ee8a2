// The ball of the greatest good shift.
ghost use Rattle.std.specs.Prelude.{◌≡◌, ℕ, pos, length, ◌+◌, ◌-◌, ◌*◌, ◌/◌, ◌^◌, ◌<◌, ◌≤◌, ◌<ℤ◌, false, unsigned_abs, option_map, IfSome};
ghost use Rattle.mj_types.specs.FactorRooms.{FactorRoom};
ghost use Rattle.mj_types.specs.Masses as masses;
ghost use Rattle.mj_types.specs.Parts.{number_at};
ghost use Rattle.mj_quadratic.specs.Balls.{Encloses};
ghost use Rattle.mj_quadratic.specs.Forms.{IsSymmetric};
ghost use Rattle.mj_ball.specs.Shifts as spec;

use crate::errors::largest_row;
use crate::misses::total_missed;
use fx_num::{Fix, Number};
use fx_whole::{narrow, power};
use mj_factor::{factor_less, mass_of};
use mj_types::{Ball, Factor, Mass, Model};

// `n / 2^64`, rounded down.
fn high_part(n: u128) -> u128
    requires { n ≤ 2 ^ 114 }
    ensures value { result ≡ n / 2 ^ 64 }
    ensures small { result ≤ 2 ^ 50 }
{
    n >> 64
}

// `2^k`.
fn wide_power(k: u32) -> u128
    requires { k ≤ 114 }
    ensures { result ≡ 2 ^ k }
{
    1u128 << k
}

// `2^(k + 64) - g`, or 0 where `g` is more.
fn left_of(k: u32, g: u128) -> u128
    requires { k ≤ 50 }
    ensures value { result ≡ 2 ^ (k + 64) - g }
    ensures small { result ≤ 2 ^ 114 }
{
    wide_power(k + 64).saturating_sub(g)
}

// The least part that the shift `k` leaves, where no row's errors sum to more than `g`.
fn least_part(k: u32, g: u128) -> u128
    requires { k ≤ 50 }
    ensures value { result ≡ spec.least_part k g }
    ensures small { result ≤ 2 ^ 50 }
{
    high_part(left_of(k, g))
}

// `low`, where it is at least 1.
fn at_least_one(low: u128) -> Option<u128>
    requires { low ≤ 2 ^ 50 }
    ensures value { result ≡ spec.at_least_one low }
    ensures some { IfSome result (λ x. 1 ≤ x) }
    ensures small { IfSome result (λ x. x ≤ 2 ^ 50) }
{
    if 1 <= low { Some(low) } else { None }
}

// `2^k`.
fn power_of(k: u32) -> Fix<40>
    requires { k ≤ 50 }
    ensures value { result.mid ≡ pos (2 ^ k) }
    ensures small { unsigned_abs result.mid ≤ 2 ^ 50 }
{
    Number {
        mid: narrow(power(k)),
        rad: (),
    }
}

// The least part of the shift `k`; none where `k` isn't good.
fn low_at(model: &Model, mass: &Mass, k: u32, room: &mut Factor) -> Option<u128>
    requires mass { masses.IsMass model.now mass.now }
    requires room { FactorRoom model.now room.old }
    requires shift { k ≤ 50 }
    ensures room { FactorRoom model.now room.new }
    ensures value { result
        ≡ spec.low_at model.now.nv (masses.mass_at model.now.nv mass.now.m) k }
    ensures some { IfSome result (λ low. 1 ≤ low) }
    ensures small { IfSome result (λ low. low ≤ 2 ^ 50) }
{
    let shift = power_of(k);
    match factor_less(model, mass, &shift, room) {
        Ok(()) => match largest_row(model, mass, &shift, room) {
            Ok(g) => at_least_one(least_part(k, g)),
            Err(_) => None,
        },
        Err(_) => None,
    }
}

// The ball of the shift `k`.
fn ball_from(k: u32, total: u128, low: u128) -> Ball
    requires total { total ≤ 2 ^ 122 }
    requires some { 1 ≤ low }
    requires low { low ≤ 2 ^ 50 }
    ensures { result ≡ spec.ball_from k total low }
{
    Ball {
        shift: k,
        low: (low as u64).cast_signed(),
        radius: ((total + (low - 1)) / low).cast_signed(),
    }
}

// The ball of the shift `k`, where it has a least part.
fn from_low(k: u32, total: u128, low: Option<u128>) -> Option<Ball>
    requires total { total ≤ 2 ^ 122 }
    requires some { IfSome low (λ x. 1 ≤ x) }
    requires small { IfSome low (λ x. x ≤ 2 ^ 50) }
    ensures { result ≡ option_map (spec.ball_from k total) low }
{
    match low {
        Some(low) => Some(ball_from(k, total, low)),
        None => None,
    }
}

// Whether `x` is at least `2^k + 2^10`.
fn is_high(x: &Fix<40>, k: u32) -> bool
    requires { k ≤ 50 }
    ensures { result ≡ false → x.now.mid <ℤ pos (2 ^ k + 2 ^ 10) }
{
    power_of(k).mid + 1024 <= x.mid
}

// Whether no number of the diagonal is below `2^k + 2^10`. Where one is, `k` isn't good, and
// nothing need be factored.
fn may_be_good(mass: &Mass, n: usize, k: u32) -> bool
    requires few { n ≤ 64 }
    requires room { length mass.now.m ≡ n * n }
    requires shift { k ≤ 50 }
    ensures { result ≡ false → (i : ℕ) × (i < n)
        × (masses.mass_at n mass.now.m i i <ℤ pos (2 ^ k + 2 ^ 10)) }
{
    for i in 0..n {
        let high = is_high(&mass_of(mass, n, i, i), k);
        if !high {
            return false;
        }
    }
    true
}

// The ball of the shift `k`, where `k` is good.
fn ball_at(model: &Model, mass: &Mass, total: u128, k: u32, room: &mut Factor) -> Option<Ball>
    requires mass { masses.IsMass model.now mass.now }
    requires room { FactorRoom model.now room.old }
    requires shift { k ≤ 50 }
    requires total { total ≤ 2 ^ 122 }
    ensures room { FactorRoom model.now room.new }
    ensures value { result
        ≡ spec.ball_at model.now.nv (masses.mass_at model.now.nv mass.now.m) total k }
{
    if may_be_good(mass, model.nv, k) {
        from_low(k, total, low_at(model, mass, k, room))
    } else {
        None
    }
}

// The ball of the greatest good shift.
fn greatest_ball(model: &Model, mass: &Mass, total: u128, room: &mut Factor) -> Option<Ball>
    requires mass { masses.IsMass model.now mass.now }
    requires room { FactorRoom model.now room.old }
    requires total { total ≤ 2 ^ 122 }
    ensures room { FactorRoom model.now room.new }
    ensures value { result
        ≡ spec.greatest_ball model.now.nv (masses.mass_at model.now.nv mass.now.m) total }
{
    for t in 0..51u32 {
        if let Some(ball) = ball_at(model, mass, total, 50 - t, room) {
            return Some(ball);
        }
    }
    None
}

/// A ball around the answer `a` of `M a = rhs` that holds each rational solution. For a shift `k`
/// let `L^T D L` be the factor of `M` less `2^k` on its diagonal, `G` the largest sum of the sizes
/// of a row of what it leaves, at scale 104, and `low` the whole part of `(2^(k + 64) - G) / 2^64`.
/// `k` is good where the factor's numbers are in their ranges, no product of them and no error is
/// above 2^116, and `low` is at least 1. The greatest good `k` from 50 down is taken; the radius is
/// the least whose product with `low` is at least the sum of all `|M a - rhs|`. None where no `k` is
/// good, or a row of `M a - rhs` is above 2^116. `room` is working room. Takes no memory.
pub fn ball(
    model: &Model,
    mass: &Mass,
    a: &[Fix<32>],
    rhs: &[Fix<32>],
    room: &mut Factor,
) -> Option<Ball>
    requires mass { masses.IsMass model.now mass.now }
    requires symmetric { IsSymmetric model.now.nv (masses.mass_at model.now.nv mass.now.m) }
    requires width { length a.now ≡ model.now.nv }
    requires numbers { (j : ℕ) → j < model.now.nv → unsigned_abs (number_at a.now j) ≤ 2 ^ 56 }
    requires rhs { length rhs.now ≡ model.now.nv }
    requires room { FactorRoom model.now room.old }
    ensures room { FactorRoom model.now room.new }
    ensures value { result ≡ spec.ball_of model.now.nv
        (masses.mass_at model.now.nv mass.now.m) (number_at a.now) (number_at rhs.now) }
    ensures encloses { IfSome result (λ b. Encloses model.now.nv
        (masses.mass_at model.now.nv mass.now.m) (number_at a.now) (number_at rhs.now)
        (pos (2 ^ 40)) b.radius) }
{
    match total_missed(mass, a, rhs) {
        Ok(total) => greatest_ball(model, mass, total, room),
        Err(_) => None,
    }
}
