// Decimal numerals as fixed-point numbers.
ghost use Rattle.std.specs.Prelude.{◌≡◌, ◌+◌, ◌-◌, ◌*◌, ◌^◌, ◌<◌, ◌≤◌, pos, negsuc, ◌≤ℤ◌, ◌-ℤ◌, min, true, length, unsigned_abs, neg_ℤ, take, drop, suc, Ok, Err, MatchResult, if◌then◌else◌};
ghost use Rattle.fx_text.specs.Numeral as grammar;
ghost use Rattle.fx_text.specs.Decimal as spec;
ghost use Rattle.fx_whole.specs.Nearest.{nearest as nearest_of};

use crate::numeral::{Kind, bad_byte, kind_of};
use fx_num::{Fix, Number};
use fx_whole::nearest;
use num_traits::ToPrimitive;

/// Why a text isn't read as a number: it has no bytes; it is no numeral, and this many of its first
/// bytes begin one; it has more than 26 digits before its exponent; its number doesn't fit.
#[derive(Clone, Copy, Debug, PartialEq, Eq)]
pub enum DecimalFault {
    Empty,
    BadByte(usize),
    TooLong,
    Range,
}

// How many digits of a numeral before its exponent are read.
const MOST_DIGITS: usize = 26;

// Sizes are cut here: what reaches it fits no i64.
const SIZE_LIMIT: u128 = 1 << 64;

fn is_mark(byte: u8) -> bool
    ensures { result ≡ spec.is_mark (grammar.kind_of byte) }
{
    matches!(kind_of(byte), Kind::Mark)
}

fn is_point(byte: u8) -> bool
    ensures { result ≡ spec.is_point (grammar.kind_of byte) }
{
    matches!(kind_of(byte), Kind::Point)
}

fn is_digit(byte: u8) -> bool
    ensures { result ≡ spec.is_digit (grammar.kind_of byte) }
{
    matches!(kind_of(byte), Kind::Digit(_))
}

// The place of the exponent's mark, or the end.
fn mark_place(text: &[u8]) -> usize
    ensures value { result ≡ spec.first_of spec.is_mark text.now }
    ensures within { result ≤ length text.now }
{
    for (at, byte) in text.iter().enumerate() {
        if is_mark(*byte) {
            return at;
        }
    }
    text.len()
}

// The place of the point, or the end.
fn point_place(text: &[u8]) -> usize
    ensures value { result ≡ spec.first_of spec.is_point text.now }
    ensures within { result ≤ length text.now }
{
    for (at, byte) in text.iter().enumerate() {
        if is_point(*byte) {
            return at;
        }
    }
    text.len()
}

// The bytes behind a place, none where it is the end.
fn behind(text: &[u8], place: usize) -> &[u8]
    requires { place ≤ length text.now }
    ensures { result.now ≡ drop (suc place) text.now }
{
    if place < text.len() {
        &text[place + 1..]
    } else {
        &[]
    }
}

// `n` with the digit `byte` behind it; another byte changes nothing.
fn with_byte(n: u128, byte: u8) -> u128
    requires { 10 * n + 9 < 2 ^ 128 }
    ensures { result ≡ spec.with_byte n (grammar.kind_of byte) }
{
    match kind_of(byte) {
        Kind::Digit(digit) => 10 * n + u128::from(digit),
        _ => n,
    }
}

// The digits among the bytes as a whole number.
fn number(bytes: &[u8]) -> u128
    requires { spec.digit_count bytes.now ≤ 26 }
    ensures value { result ≡ spec.number bytes.now }
    ensures small { result < 10 ^ spec.digit_count bytes.now }
{
    let mut n = 0;
    for byte in bytes {
        n = with_byte(n, *byte);
    }
    n
}

fn digit_count(bytes: &[u8]) -> usize
    ensures { result ≡ spec.digit_count bytes.now }
{
    bytes.iter().filter(|byte| is_digit(**byte)).count()
}

fn is_negative(bytes: &[u8]) -> bool
    ensures { result ≡ spec.is_negative bytes.now }
{
    match bytes {
        [first, ..] => *first == b'-',
        [] => false,
    }
}

// The whole number with this size, below zero where `negative` says so.
pub(crate) fn apply_sign(negative: bool, size: u128) -> i128
    requires { size < 2 ^ 127 }
    ensures { result ≡ spec.apply_sign negative size }
{
    let plain = size.cast_signed();
    if negative { -plain } else { plain }
}

// The exponent of ten that a numeral ends with, 0 where it has none.
fn exponent(text: &[u8]) -> i128
    requires { grammar.is_numeral text.now ≡ true }
    ensures value { result ≡ spec.exponent text.now }
    ensures small { unsigned_abs result < 100 }
{
    let part = behind(text, mark_place(text));
    apply_sign(is_negative(part), number(part))
}

// The size of the whole number nearest to `n / 10^k`.
fn quotient(n: u128, k: u32) -> u128
    requires small { n < 2 ^ 127 }
    requires within { k ≤ 38 }
    ensures { result ≡ unsigned_abs (nearest_of (pos n) (pos (10 ^ k))) }
{
    let divisor = 10u128.pow(k);
    nearest(apply_sign(false, n), apply_sign(false, divisor)).unsigned_abs()
}

// `size * 10^count`, cut at the limit.
fn tens(size: u128, count: u32) -> u128
    ensures { result ≡ min (size * 10 ^ count) (2 ^ 64) }
{
    let mut grown = size.min(SIZE_LIMIT);
    for turn in 0..count {
        grown = (grown * 10).min(SIZE_LIMIT);
    }
    grown
}

// `n / 10^k` at this scale, cut at the limit.
fn scale_decimal(n: u128, k: i128, scale: u32) -> u128
    requires digits { n < 10 ^ 26 }
    requires scale { scale ≤ 40 }
    requires places { unsigned_abs k < 200 }
    ensures { result ≡ min (spec.scale_decimal scale n k) (2 ^ 64) }
{
    let raised = n * (1u128 << scale);
    if k > 38 {
        0
    } else if k >= 0 {
        quotient(raised, k as u32).min(SIZE_LIMIT)
    } else {
        tens(raised, k.unsigned_abs() as u32)
    }
}

// The size of the number that a numeral with this mantissa stands for, cut at the limit.
fn size_at(text: &[u8], mantissa: &[u8], scale: u32) -> u128
    requires numeral { grammar.is_numeral text.now ≡ true }
    requires mantissa { mantissa.now ≡ spec.mantissa text.now }
    requires digits { spec.digit_count mantissa.now ≤ 26 }
    requires scale { scale ≤ 40 }
    ensures { result ≡ min (spec.size_at scale text.now) (2 ^ 64) }
{
    let places = digit_count(behind(mantissa, point_place(mantissa)));
    scale_decimal(number(mantissa), places as i128 - exponent(text), scale)
}

// A number in 64 bits, where it fits.
fn in_range(raw: i128) -> Result<i64, DecimalFault>
    ensures { result ≡ spec.in_range raw }
{
    raw.to_i64().ok_or(DecimalFault::Range)
}

// The number that a numeral stands for, unless it has too many digits or doesn't fit.
fn value(text: &[u8], scale: u32) -> Result<i64, DecimalFault>
    requires numeral { grammar.is_numeral text.now ≡ true }
    requires scale { scale ≤ 40 }
    ensures { result ≡ spec.value scale text.now }
{
    let mantissa = &text[..mark_place(text)];
    if digit_count(mantissa) > MOST_DIGITS {
        return Err(DecimalFault::TooLong);
    }
    in_range(apply_sign(is_negative(text), size_at(text, mantissa, scale)))
}

fn raw_decimal(text: &[u8], scale: u32) -> Result<i64, DecimalFault>
    requires { scale ≤ 40 }
    ensures { result ≡ spec.decimal scale text.now }
{
    if text.is_empty() {
        return Err(DecimalFault::Empty);
    }
    match bad_byte(text) {
        Some(at) => Err(DecimalFault::BadByte(at)),
        None => value(text, scale),
    }
}

/// The decimal numeral that the whole text is, at scale `F`.
pub fn read_decimal<const F: u32>(text: &[u8]) -> Result<Fix<F>, DecimalFault>
    requires { F ≤ 40 }
    ensures { MatchResult result
        (λ x. spec.decimal F text.now ≡ Ok x.mid)
        (λ fault. spec.decimal F text.now ≡ Err fault) }
{
    Ok(Number::from_raw(raw_decimal(text, F)?))
}
