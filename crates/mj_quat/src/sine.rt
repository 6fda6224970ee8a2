// Sine and cosine: the angle less its nearest quarter turns, two power series, and the quadrant.
ghost use Rattle.std.specs.Prelude.{◌≡◌, ℤ, ◌+◌, ◌-◌, ◌*◌, ◌/◌, ◌^◌, ◌<◌, ◌≤◌, pos, ◌+ℤ◌, ◌-ℤ◌, ◌*ℤ◌, neg_ℤ, unsigned_abs, IsTrue};
ghost use Rattle.fx_whole.specs.Nearest.{nearest};
ghost use Rattle.mj_quat.specs.Sine as spec;

use fx_num::Fix;
use fx_whole::{difference, narrow, nearest_shift, product, scale_up, size};

/// A quarter turn at scale 61.
const QUARTER_TURN: i64 = 0x3243_F6A8_885A_308D;

/// 2^124 over a quarter turn. What it gives is tested, so nothing rests on it.
const INVERSE: u64 = 0x517C_C1B7_2722_0A95;

/// 1 at scale 60.
const ONE: u64 = 1 << 60;

// ---- the angle, less its quarter turns

/// Nearly always the quarter turns nearest to an angle of that size.
fn guess(size: u64) -> u64
    ensures { result < 2 ^ 33 }
{
    let product = u128::from(size) * u128::from(INVERSE);
    (product.wrapping_add(1 << 94) >> 95) as u64
}

/// `guess` with the angle's sign.
fn signed_guess(angle: &i64) -> i64
    ensures { unsigned_abs result < 2 ^ 33 }
{
    let size = guess(angle.unsigned_abs()) as i64;
    if *angle < 0 { -size } else { size }
}

/// What is left of an angle past that many quarter turns, at scale 61.
fn left_past(angle: &i64, quarters: &i64) -> i128
    requires angle { unsigned_abs angle.now ≤ 2 ^ 52 }
    requires quarters { unsigned_abs quarters.now < 2 ^ 33 }
    ensures { result ≡ spec.fine angle.now -ℤ quarters.now *ℤ spec.quarter_turn }
{
    difference(scale_up(*angle, 29), product(*quarters, QUARTER_TURN))
}

/// Whether less than half of a quarter turn is left.
fn is_less_than_half(left: &i128) -> bool
    ensures { IsTrue result → 2 * unsigned_abs left.now < unsigned_abs spec.quarter_turn }
{
    size(*left) <= 0x1921_FB54_442D_1846
}

/// The quarter turns nearest to an angle: a guess by a product, tested exactly.
fn quarters(angle: &i64) -> i64
    requires { unsigned_abs angle.now ≤ 2 ^ 52 }
    ensures value { result ≡ spec.quarters angle.now }
    ensures size { unsigned_abs result < 2 ^ 33 }
{
    let guess = signed_guess(angle);
    if is_less_than_half(&left_past(angle, &guess)) {
        guess
    } else {
        narrow(fx_whole::nearest(scale_up(*angle, 29), i128::from(QUARTER_TURN)))
    }
}

/// What is left of an angle past its nearest quarter turns, at scale 60.
fn rest(angle: &i64, quarters: &i64) -> i64
    requires angle { unsigned_abs angle.now ≤ 2 ^ 52 }
    requires quarters { quarters.now ≡ spec.quarters angle.now }
    requires size { unsigned_abs quarters.now < 2 ^ 33 }
    ensures value { result ≡ spec.rest angle.now }
    ensures size { unsigned_abs result ≤ 13 * 2 ^ 56 }
{
    narrow(nearest_shift(left_past(angle, quarters), 1))
}

// ---- the two series, for what is left as a size: each term has the other sign than the last one

/// A product of that size over `steps * 2^60`, rounded: half of the divisor less 1 is added, the
/// low bits are dropped, and 64 bits are left to divide.
fn step_size(size: u128, steps: u32) -> u64
    requires size { size ≤ 2 ^ 120 }
    requires steps { 1 ≤ steps }
    ensures { result ≡ (2 * size + (steps * 2 ^ 60 - 1)) / (2 * (steps * 2 ^ 60)) }
{
    let half = u128::from(steps) << 59;
    let units = ((size + (half - 1)) >> 60) as u64;
    units / u64::from(steps)
}

/// `a b / steps` at scale 60, rounded.
fn product_over(a: u64, b: u64, steps: u32) -> u64
    requires a { a ≤ 2 ^ 60 }
    requires b { b ≤ 2 ^ 60 }
    requires steps { 1 ≤ steps }
    ensures { pos result ≡ nearest (pos a *ℤ pos b) (pos (steps * 2 ^ 60)) }
{
    step_size(u128::from(a) * u128::from(b), steps)
}

/// The square of a number at scale 60.
fn square(n: u64) -> u64
    requires { n ≤ 13 * 2 ^ 56 }
    ensures value { pos result ≡ spec.square (pos n) }
    ensures size { result ≤ 2 ^ 60 }
{
    product_over(n, n, 1)
}

/// The size of the term after one of that size.
fn next_size(term: u64, square: u64, steps: u32) -> u64
    requires term { term ≤ 2 ^ 60 }
    requires square { square ≤ 2 ^ 60 }
    requires steps { 2 ≤ steps }
    ensures value { neg_ℤ (pos result) ≡ spec.next_term (pos term) (pos square) steps }
    ensures half { 2 * result ≤ term }
{
    product_over(term, square, steps)
}

/// The size of a term that is added, and the sum of the terms up to it.
#[derive(Clone, Copy)]
struct Partial {
    term: u64,
    total: u64,
}

/// The sum with two terms more: one taken, by `first` steps, and one added, by `second`.
fn add_two(partial: &Partial, square: u64, first: u32, second: u32) -> Partial
    requires order { partial.now.term ≤ partial.now.total }
    requires size { partial.now.total ≤ 2 ^ 60 }
    requires square { square ≤ 2 ^ 60 }
    requires first { 2 ≤ first }
    requires second { 2 ≤ second }
    ensures term { pos result.term
        ≡ spec.next_term (spec.next_term (pos partial.now.term) (pos square) first)
        (pos square) second }
    ensures total { pos result.total
        ≡ pos partial.now.total +ℤ spec.next_term (pos partial.now.term) (pos square) first
        +ℤ pos result.term }
    ensures order { result.term ≤ result.total }
    ensures size { result.total ≤ 2 ^ 60 }
{
    let less = next_size(partial.term, square, first);
    let more = next_size(less, square, second);
    Partial {
        term: more,
        total: partial.total - less + more,
    }
}

/// Nine terms of the sine's series, for what is left of an angle.
fn sine_sum(rest: u64, square: u64) -> u64
    requires rest { rest ≤ 2 ^ 60 }
    requires square { pos square ≡ spec.square (pos rest) }
    requires size { square ≤ 2 ^ 60 }
    ensures value { pos result ≡ spec.sine_sum (pos rest) }
    ensures size { result ≤ 2 ^ 60 }
{
    let first = Partial {
        term: rest,
        total: rest,
    };
    let third = add_two(&first, square, 6, 20);
    let fifth = add_two(&third, square, 42, 72);
    let seventh = add_two(&fifth, square, 110, 156);
    let ninth = add_two(&seventh, square, 210, 272);
    ninth.total
}

/// Nine terms of the cosine's series.
fn cosine_sum(rest: u64, square: u64) -> u64
    requires square { pos square ≡ spec.square (pos rest) }
    requires size { square ≤ 2 ^ 60 }
    ensures value { pos result ≡ spec.cosine_sum (pos rest) }
    ensures size { result ≤ 2 ^ 60 }
{
    let first = Partial {
        term: ONE,
        total: ONE,
    };
    let third = add_two(&first, square, 2, 12);
    let fifth = add_two(&third, square, 30, 56);
    let seventh = add_two(&fifth, square, 90, 132);
    let ninth = add_two(&seventh, square, 182, 240);
    ninth.total
}

/// A number at scale 60, rounded to scale 32.
fn round(n: u64) -> i64
    requires { n < 2 ^ 63 }
    ensures { result ≡ nearest (pos n) (pos (2 ^ 28)) }
{
    narrow(nearest_shift(i128::from(n), 28))
}

/// A sine and a cosine at scale 32.
#[derive(Clone, Copy)]
struct Pair {
    sine: i64,
    cosine: i64,
}

/// The sine and the cosine of what is left of an angle, where that isn't negative.
fn size_pair(rest: u64) -> Pair
    requires { rest ≤ 13 * 2 ^ 56 }
    ensures sine { result.sine ≡ spec.rest_sine (pos rest) }
    ensures cosine { result.cosine ≡ spec.rest_cosine (pos rest) }
    ensures sine_size { unsigned_abs result.sine ≤ 2 ^ 32 }
    ensures cosine_size { unsigned_abs result.cosine ≤ 2 ^ 32 }
{
    let square = square(rest);
    Pair {
        sine: round(sine_sum(rest, square)),
        cosine: round(cosine_sum(rest, square)),
    }
}

/// The sine and the cosine of what is left of an angle: the sine has its sign.
fn rest_pair(rest: &i64) -> Pair
    requires { unsigned_abs rest.now ≤ 13 * 2 ^ 56 }
    ensures sine { result.sine ≡ spec.rest_sine rest.now }
    ensures cosine { result.cosine ≡ spec.rest_cosine rest.now }
    ensures sine_size { unsigned_abs result.sine ≤ 2 ^ 32 }
    ensures cosine_size { unsigned_abs result.cosine ≤ 2 ^ 32 }
{
    let pair = size_pair(rest.unsigned_abs());
    if *rest < 0 {
        Pair {
            sine: -pair.sine,
            cosine: pair.cosine,
        }
    } else {
        pair
    }
}

// ---- the quadrant

/// The number of quarter turns modulo 4.
fn quadrant(quarters: &i64) -> i64
    ensures { result ≡ pos (spec.quadrant quarters.now) }
{
    quarters.rem_euclid(4)
}

/// The sine and the cosine that many quarter turns on.
fn turn(pair: &Pair, quarters: &i64) -> Pair
    requires sine { unsigned_abs pair.now.sine ≤ 2 ^ 32 }
    requires cosine { unsigned_abs pair.now.cosine ≤ 2 ^ 32 }
    ensures sine { result.sine
        ≡ spec.quadrant_sine (spec.quadrant quarters.now) pair.now.sine pair.now.cosine }
    ensures cosine { result.cosine
        ≡ spec.quadrant_cosine (spec.quadrant quarters.now) pair.now.sine pair.now.cosine }
    ensures sine_size { unsigned_abs result.sine ≤ 2 ^ 32 }
    ensures cosine_size { unsigned_abs result.cosine ≤ 2 ^ 32 }
{
    match quadrant(quarters) {
        0 => *pair,
        1 => Pair {
            sine: pair.cosine,
            cosine: -pair.sine,
        },
        2 => Pair {
            sine: -pair.sine,
            cosine: -pair.cosine,
        },
        _ => Pair {
            sine: -pair.cosine,
            cosine: pair.sine,
        },
    }
}

/// The sine and the cosine of an angle at scale 32, sine first. Each is at most 1 in size, and is
/// the sum of the first nine terms of its series, rounded once, after the angle was reduced by its
/// nearest quarter turns. Of angles up to 2^20 in size.
#[tactic(auto, unfolding(crate::specs::Sine::sine, crate::specs::Sine::cosine))]
pub fn sin_cos(angle: Fix<32>) -> (Fix<32>, Fix<32>)
    requires { unsigned_abs angle.mid ≤ 2 ^ 52 }
    ensures sine { result.0.mid ≡ spec.sine angle.mid }
    ensures cosine { result.1.mid ≡ spec.cosine angle.mid }
    ensures sine_size { unsigned_abs result.0.mid ≤ 2 ^ 32 }
    ensures cosine_size { unsigned_abs result.1.mid ≤ 2 ^ 32 }
{
    let quarters = quarters(&angle.mid);
    let pair = turn(&rest_pair(&rest(&angle.mid, &quarters)), &quarters);
    (Fix::from_raw(pair.sine), Fix::from_raw(pair.cosine))
}

/// The law that the sine is odd, exactly, for every angle.
#[tactic(auto, using(crate::proofs::SineLaws::sine_laws))]
pub fn sine_is_odd()
    ensures { (x : ℤ) → spec.sine (neg_ℤ x) ≡ neg_ℤ (spec.sine x) }
{}

/// The law that the cosine is even, exactly, for every angle.
#[tactic(auto, using(crate::proofs::SineLaws::sine_laws))]
pub fn cosine_is_even()
    ensures { (x : ℤ) → spec.cosine (neg_ℤ x) ≡ spec.cosine x }
{}

/// The law that a quarter turn takes the sine to the cosine, and the cosine to minus the sine.
#[tactic(auto, using(crate::proofs::SineLaws::sine_laws))]
pub fn quarter_turn_on()
    ensures sine { (k t : ℤ) → spec.sine_at (k +ℤ pos 1) t ≡ spec.cosine_at k t }
    ensures cosine { (k t : ℤ) → spec.cosine_at (k +ℤ pos 1) t ≡ neg_ℤ (spec.sine_at k t) }
{}

/// The law that neither number passes 1, for every angle.
#[tactic(auto, using(crate::proofs::SineLaws::sine_laws))]
pub fn sines_are_small()
    ensures sine { (x : ℤ) → unsigned_abs (spec.sine x) ≤ 2 ^ 32 }
    ensures cosine { (x : ℤ) → unsigned_abs (spec.cosine x) ≤ 2 ^ 32 }
{}
