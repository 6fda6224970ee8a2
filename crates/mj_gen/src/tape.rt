// A tape of sines, as a text.
ghost use Rattle.std.specs.Prelude.{◌≡◌, ◌+◌, ◌*◌, ◌≤◌, ◌^◌, IfOk, pos, unsigned_abs};
ghost use Rattle.mj_io.specs.Sent.{Sent};
ghost use Rattle.mj_gen.specs.Tape as spec;

use crate::growing::GrowingSink;
use fx_num::Fix;
use fx_text::send_decimal;
use mj_io::{Failed, NoMemory, Page, Sink, finish, send};
use mj_quat::sin_cos;
use std::alloc::Global;

// The product of a row and a column.
fn product(row: u32, column: u32) -> u64
    requires row { row ≤ 10000 }
    requires column { column ≤ 64 }
    ensures value { result ≡ row * column }
    ensures size { result ≤ 640000 }
{
    u64::from(row) * u64::from(column)
}

// So many sixty-fourths.
fn sixty_fourths(n: u64) -> Fix<32>
    requires { n ≤ 2 ^ 26 }
    ensures value { result.mid ≡ pos (n * 2 ^ 26) }
    ensures size { unsigned_abs result.mid ≤ 2 ^ 52 }
{
    Fix::from_raw((n << 26).cast_signed())
}

// The angle in a row and a column.
fn angle(seed: u32, row: u32, column: u32) -> Fix<32>
    requires row { row ≤ 10000 }
    requires column { column ≤ 64 }
    ensures value { result.mid ≡ spec.angle seed row column }
    ensures size { unsigned_abs result.mid ≤ 2 ^ 52 }
{
    sixty_fourths(product(row, column) + u64::from(seed % 1024))
}

// A comma before each field but the first.
fn send_separator<S: Sink>(sink: &mut S, page: &mut Page, column: u32)
    ensures { Sent S.holds S.faults sink.old page.old (spec.separator column)
        sink.new page.new }
{
    let text: &[u8] = if column == 1 { b"" } else { b"," };
    send(sink, page, text);
}

// The field in a row and a column.
#[tactic(auto, unfolding(crate::specs::Tape::field_text))]
fn send_field<S: Sink>(sink: &mut S, page: &mut Page, seed: u32, row: u32, column: u32)
    requires row { row ≤ 10000 }
    requires column { column ≤ 64 }
    ensures { Sent S.holds S.faults sink.old page.old (spec.field_text seed row column)
        sink.new page.new }
{
    send_separator(sink, page, column);
    let (sine, _) = sin_cos(angle(seed, row, column));
    send_decimal(sink, page, &sine, 6);
}

// The fields of a row.
fn send_fields<S: Sink>(sink: &mut S, page: &mut Page, seed: u32, width: u32, row: u32)
    requires row { row ≤ 10000 }
    requires width { width ≤ 64 }
    ensures { Sent S.holds S.faults sink.old page.old (spec.fields_text seed width row)
        sink.new page.new }
{
    for j in 0..width {
        send_field(sink, page, seed, row, j + 1);
    }
}

// A row.
#[tactic(auto, unfolding(crate::specs::Tape::row_text))]
fn send_row<S: Sink>(sink: &mut S, page: &mut Page, seed: u32, width: u32, row: u32)
    requires row { row ≤ 10000 }
    requires width { width ≤ 64 }
    ensures { Sent S.holds S.faults sink.old page.old (spec.row_text seed width row)
        sink.new page.new }
{
    send_fields(sink, page, seed, width, row);
    send(sink, page, b"\n");
}

// The rows.
fn send_rows<S: Sink>(sink: &mut S, page: &mut Page, seed: u32, rows: u32, width: u32)
    requires rows { rows ≤ 10000 }
    requires width { width ≤ 64 }
    ensures { Sent S.holds S.faults sink.old page.old (spec.tape_text seed rows width)
        sink.new page.new }
{
    for k in 0..rows {
        send_row(sink, page, seed, width, k + 1);
    }
}

/// The text of a tape of so many rows for so many motors, comma-separated values without a header. The
/// control in row k and column j, both from 1, is the sine of (k j + s) / 64 with six decimal places,
/// where s is the seed modulo 1024.
///
/// # Errors
///
/// `NoMemory` where memory was wanted and not found.
pub fn sine_tape(alloc: Global, seed: u32, rows: u32, width: u32) -> Result<Vec<u8>, NoMemory>
    requires rows { rows ≤ 10000 }
    requires width { width ≤ 64 }
    ensures { IfOk result (λ v. v.items ≡ spec.tape_text seed rows width) }
{
    let mut sink = GrowingSink::new(alloc);
    let mut page = Page::new();
    send_rows(&mut sink, &mut page, seed, rows, width);
    match finish(&mut sink, &mut page) {
        Ok(()) => sink.into_bytes(),
        Err(Failed) => Err(NoMemory),
    }
}
