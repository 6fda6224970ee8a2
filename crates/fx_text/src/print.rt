// Numbers as text.
ghost use Rattle.std.specs.Prelude.{◌≡◌, ◌≤◌, ◌^◌, ◌&&◌, pos, int_lt, nat_lt, unsigned_abs, decimal, OnOk, OnErr};
ghost use Rattle.std.specs.Fmt.{signed_decimal};
ghost use Rattle.mj_io.specs.Faults.{Rose};
ghost use Rattle.mj_io.specs.Growth.{Grew, GrewPart};
ghost use Rattle.mj_io.specs.Sent.{Sent};
ghost use Rattle.fx_text.specs.Places as spec;

use crate::decimal::apply_sign;
use fx_num::Fix;
use fx_whole::nearest_shift;
use itoa::Buffer;
use mj_io::{Failed, Page, Sink, finish, put, send};

/// The greatest number of decimal places that are printed.
const MOST_PLACES: usize = 9;

/// Writes `n` in decimal digits, with a `-` below zero. After `Failed` a prefix of this text was
/// written, and the sink's count rose.
pub fn print_raw<S: Sink>(n: i128, sink: &mut S) -> Result<(), Failed>
    ensures ok { OnOk result (Grew (S.holds sink.old) (signed_decimal n) (S.holds sink.new)) }
    ensures err { OnErr result (GrewPart (S.holds sink.old) (signed_decimal n)
        (S.holds sink.new)) }
    ensures cause { OnErr result (Rose (S.faults sink.old) (S.faults sink.new)) }
    ensures calm { OnOk result (S.faults sink.new ≡ S.faults sink.old) }
    ensures later { S.faults sink.old ≤ S.faults sink.new }
{
    let mut buffer = Buffer::new();
    put(sink, buffer.format(n).as_bytes())
}

// The size of a number in units of 10^-places, rounded to the nearest.
fn unit_count(x: &Fix<32>, places: u32) -> u128
    requires size { unsigned_abs x.now.mid ≤ 2 ^ 52 }
    requires places { places ≤ 9 }
    ensures { result ≡ spec.unit_count places (unsigned_abs x.now.mid) }
{
    let units = u128::from(x.mid.unsigned_abs()) * 10u128.pow(places);
    nearest_shift(apply_sign(false, units), 32).unsigned_abs()
}

// Whether a number, of which `count` units are left, is printed with a minus.
fn has_minus(x: &Fix<32>, count: u128) -> bool
    ensures { result ≡ (int_lt x.now.mid (pos 0) && nat_lt 0 count) }
{
    x.mid < 0 && count > 0
}

// A minus, where the test says so.
fn send_minus<S: Sink>(sink: &mut S, page: &mut Page, negative: bool)
    ensures { Sent S.holds S.faults sink.old page.old (spec.minus_text negative)
        sink.new page.new }
{
    let text: &[u8] = if negative { b"-" } else { b"" };
    send(sink, page, text);
}

// The digits of a number.
fn send_natural<S: Sink>(sink: &mut S, page: &mut Page, n: u128)
    ensures { Sent S.holds S.faults sink.old page.old (decimal n) sink.new page.new }
{
    let mut buffer = Buffer::new();
    send(sink, page, buffer.format(n).as_bytes());
}

// The digits of a number, with zeros before them up to this many places.
fn send_padded<S: Sink>(sink: &mut S, page: &mut Page, n: u128, places: u32)
    requires { places ≤ 9 }
    ensures { Sent S.holds S.faults sink.old page.old (spec.padded places n) sink.new page.new }
{
    let mut buffer = Buffer::new();
    let digits = buffer.format(n).as_bytes();
    let zeros = [b'0'; MOST_PLACES];
    send(
        sink,
        page,
        &zeros[..(places as usize).saturating_sub(digits.len())],
    );
    send(sink, page, digits);
}

// A number of units of 10^-places.
fn send_places<S: Sink>(sink: &mut S, page: &mut Page, n: u128, places: u32)
    requires { places ≤ 9 }
    ensures { Sent S.holds S.faults sink.old page.old (spec.places_text places n)
        sink.new page.new }
{
    let unit = 10u128.pow(places);
    send_natural(sink, page, n / unit);
    send(sink, page, b".");
    send_padded(sink, page, n % unit, places);
}

/// Sends a number with this many decimal places, from 1 to 9, rounded to the nearest, a tie to the one
/// nearer to zero; with a `-` where it is below zero and isn't rounded to zero.
pub fn send_decimal<S: Sink>(sink: &mut S, page: &mut Page, x: &Fix<32>, places: u32)
    requires some { 1 ≤ places }
    requires places { places ≤ 9 }
    requires size { unsigned_abs x.now.mid ≤ 2 ^ 52 }
    ensures { Sent S.holds S.faults sink.old page.old (spec.decimal_text places x.now.mid)
        sink.new page.new }
{
    let count = unit_count(x, places);
    send_minus(sink, page, has_minus(x, count));
    send_places(sink, page, count, places);
}

/// Writes a number with this many decimal places, from 1 to 9, as `send_decimal` sends it. After
/// `Failed` a prefix of this text was written, and the sink's count rose.
pub fn print_decimal<S: Sink>(x: Fix<32>, places: u32, sink: &mut S) -> Result<(), Failed>
    requires some { 1 ≤ places }
    requires places { places ≤ 9 }
    requires size { unsigned_abs x.mid ≤ 2 ^ 52 }
    ensures ok { OnOk result (Grew (S.holds sink.old) (spec.decimal_text places x.mid)
        (S.holds sink.new)) }
    ensures err { OnErr result (GrewPart (S.holds sink.old)
        (spec.decimal_text places x.mid) (S.holds sink.new)) }
    ensures cause { OnErr result (Rose (S.faults sink.old) (S.faults sink.new)) }
    ensures calm { OnOk result (S.faults sink.new ≡ S.faults sink.old) }
    ensures later { S.faults sink.old ≤ S.faults sink.new }
{
    let mut page = Page::new();
    send_decimal(sink, &mut page, &x, places);
    finish(sink, &mut page)
}
