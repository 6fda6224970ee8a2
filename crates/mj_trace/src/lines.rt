// Lines of numbers, sent through a page.
ghost use Rattle.std.specs.Prelude.{◌≡◌, ◌++◌, length, decimal};
ghost use Rattle.std.specs.Fmt.{signed_decimal};
ghost use Rattle.mj_io.specs.Sent.{Sent};
ghost use Rattle.mj_types.specs.Parts.{number_at};
ghost use Rattle.mj_trace.specs.Lines as spec;
ghost use Rattle.mj_trace.specs.Block.{two_text};

use fx_list::Array;
use fx_num::Fix;
use mj_io::{Page, Sink, send, send_signed, send_size, send_unsigned, send_wide};

// A number after a space.
pub(crate) fn send_spaced<S: Sink>(sink: &mut S, page: &mut Page, n: &i64)
    ensures { Sent S.holds S.faults sink.old page.old
        (spec.spaced n.now) sink.new page.new }
{
    send(sink, page, b" ");
    send_signed(sink, page, n);
}

// Numbers, each after a space.
pub(crate) fn send_numbers<S: Sink, const F: u32>(sink: &mut S, page: &mut Page, xs: &[Fix<F>])
    ensures { Sent S.holds S.faults sink.old page.old
        (spec.numbers_text (length xs.now) (number_at xs.now)) sink.new page.new }
{
    for i in 0..xs.len() {
        send_spaced(sink, page, &xs[i].mid);
    }
}

// A label and a count.
pub(crate) fn send_counted<S: Sink>(sink: &mut S, page: &mut Page, label: &[u8], n: usize)
    ensures { Sent S.holds S.faults sink.old page.old (label.now ++ decimal n)
        sink.new page.new }
{
    send(sink, page, label);
    send_size(sink, page, n);
}

// A label and an unsigned number.
pub(crate) fn send_sum<S: Sink>(sink: &mut S, page: &mut Page, label: &[u8], n: u64)
    ensures { Sent S.holds S.faults sink.old page.old (label.now ++ decimal n)
        sink.new page.new }
{
    send(sink, page, label);
    send_unsigned(sink, page, n);
}

// A label and numbers on a line.
pub(crate) fn send_numbers_line<S: Sink, const F: u32>(
    sink: &mut S,
    page: &mut Page,
    label: &[u8],
    xs: &[Fix<F>],
)
    ensures { Sent S.holds S.faults sink.old page.old
        (spec.line label.now (spec.numbers_text (length xs.now) (number_at xs.now)))
        sink.new page.new }
{
    send(sink, page, label);
    send_numbers(sink, page, xs);
    send(sink, page, b"\n");
}

// A label and an unsigned number of 32 bits.
pub(crate) fn send_label<S: Sink>(sink: &mut S, page: &mut Page, label: &[u8], n: u32)
    ensures { Sent S.holds S.faults sink.old page.old (label.now ++ decimal n)
        sink.new page.new }
{
    send_sum(sink, page, label, u64::from(n));
}

// A label and a list's numbers on a line.
pub(crate) fn send_list_line<S: Sink, const F: u32>(
    sink: &mut S,
    page: &mut Page,
    label: &[u8],
    xs: &Array<Fix<F>>,
)
    ensures { Sent S.holds S.faults sink.old page.old
        (spec.line label.now (spec.numbers_text (length xs.now) (number_at xs.now)))
        sink.new page.new }
{
    send_numbers_line(sink, page, label, xs.as_slice());
}

// A label and an unsigned number on a line.
pub(crate) fn send_label_line<S: Sink>(sink: &mut S, page: &mut Page, label: &[u8], n: u32)
    ensures { Sent S.holds S.faults sink.old page.old
        (spec.line label.now (decimal n)) sink.new page.new }
{
    send_label(sink, page, label, n);
    send(sink, page, b"\n");
}

// A label and a wide number on a line.
pub(crate) fn send_wide_line<S: Sink>(sink: &mut S, page: &mut Page, label: &[u8], n: &i128)
    ensures { Sent S.holds S.faults sink.old page.old
        (spec.line label.now (signed_decimal n.now)) sink.new page.new }
{
    send(sink, page, label);
    send_wide(sink, page, n);
    send(sink, page, b"\n");
}

// A label and two numbers on a line.
pub(crate) fn send_two<S: Sink>(sink: &mut S, page: &mut Page, label: &[u8], a: &i64, b: &i64)
    ensures { Sent S.holds S.faults sink.old page.old
        (two_text label.now a.now b.now) sink.new page.new }
{
    send(sink, page, label);
    send_signed(sink, page, a);
    send(sink, page, b" ");
    send_signed(sink, page, b);
    send(sink, page, b"\n");
}

// A label and two wide numbers on a line.
pub(crate) fn send_two_wide<S: Sink>(
    sink: &mut S,
    page: &mut Page,
    label: &[u8],
    a: &i128,
    b: &i128,
)
    ensures { Sent S.holds S.faults sink.old page.old
        (two_text label.now a.now b.now) sink.new page.new }
{
    send(sink, page, label);
    send_wide(sink, page, a);
    send(sink, page, b" ");
    send_wide(sink, page, b);
    send(sink, page, b"\n");
}
