// The lines of a step's dual.
ghost use Rattle.std.specs.Prelude.{◌≡◌, ◌++◌, ◌<◌, ◌==◌, ℕ, cond, [], codes, decimal};
ghost use Rattle.std.specs.Fmt.{signed_decimal};
ghost use Rattle.fx_whole.specs.Joined.{joined};
ghost use Rattle.mj_io.specs.Sent.{Sent};
ghost use Rattle.mj_types.specs.Duals.{bound, wide_at, bound_at, entry_at};
ghost use Rattle.mj_types.specs.Parts.{number_at};
ghost use Rattle.mj_types.specs.StepValues.{dual_values};
ghost use Rattle.mj_trace.specs.Lines.{line, spaced, numbers_text};
ghost use Rattle.mj_trace.specs.Block as spec;

use crate::lines::{send_counted, send_numbers_line, send_spaced};
use crate::rows::send_bound;
use fx_num::Wide;
use mj_io::{Page, Sink, send, send_wide};
use mj_types::Dual;

// A wide number after a space.
fn send_spaced_wide<S: Sink>(sink: &mut S, page: &mut Page, n: &Wide<48>)
    ensures { Sent S.holds S.faults sink.old page.old (spaced n.now.raw) sink.new page.new }
{
    send(sink, page, b" ");
    send_wide(sink, page, &n.raw);
}

// Both bounds of a row.
fn send_both_bounds<S: Sink>(sink: &mut S, page: &mut Page, dual: &Dual, i: usize)
    requires { i < dual.now.m }
    ensures { Sent S.holds S.faults sink.old page.old
        (spec.bound_text (bound_at dual.now.low i) ++ spec.bound_text (bound_at dual.now.high i))
        sink.new page.new }
{
    send_bound(sink, page, dual.low.entry(i));
    send_bound(sink, page, dual.high.entry(i));
}

// A row's bounds, where the format tells them.
fn send_bounds<S: Sink>(sink: &mut S, page: &mut Page, format: u32, dual: &Dual, i: usize)
    requires { i < dual.now.m }
    ensures { Sent S.holds S.faults sink.old page.old
        (spec.dual_bounds_text format (bound_at dual.now.low i) (bound_at dual.now.high i))
        sink.new page.new }
{
    if format == 2 {
        send_both_bounds(sink, page, dual, i);
    }
}

// A row of the dual.
#[tactic(auto, unfolding(crate::specs::Block::dual_row_text))]
fn send_dual_row<S: Sink>(sink: &mut S, page: &mut Page, format: u32, dual: &Dual, i: usize)
    requires { i < dual.now.m }
    ensures { Sent S.holds S.faults sink.old page.old
        (spec.dual_row_text format (dual_values dual.now) i) sink.new page.new }
{
    send_counted(sink, page, b"d ", dual.place.at(i));
    send_spaced_wide(sink, page, dual.r.entry(i));
    send_spaced(sink, page, &dual.b.entry(i).mid);
    send_bounds(sink, page, format, dual, i);
    send_numbers_line(sink, page, b"", dual.row(i));
}

// Whether the format tells bounds.
fn send_mark<S: Sink>(sink: &mut S, page: &mut Page, format: u32)
    ensures { Sent S.holds S.faults sink.old page.old (spec.bounds_mark format)
        sink.new page.new }
{
    if format == 2 {
        send(sink, page, b" bounds");
    }
}

// The first line of a dual.
fn send_dual_head<S: Sink>(sink: &mut S, page: &mut Page, format: u32, dual: &Dual)
    ensures { Sent S.holds S.faults sink.old page.old
        (spec.dual_head format (dual_values dual.now)) sink.new page.new }
{
    send_counted(sink, page, b"dual ", dual.m);
    send_counted(sink, page, b" ", dual.nv);
    send_mark(sink, page, format);
    send(sink, page, b"\n");
}

// The rows of a dual.
fn send_dual_rows<S: Sink>(sink: &mut S, page: &mut Page, format: u32, dual: &Dual)
    ensures { Sent S.holds S.faults sink.old page.old
        (joined dual.now.m (spec.dual_row_text format (dual_values dual.now)))
        sink.new page.new }
{
    for i in 0..dual.m {
        send_dual_row(sink, page, format, dual, i);
    }
}

// The dual of a step.
#[tactic(auto, unfolding(crate::specs::Block::problem_text))]
pub(crate) fn send_dual<S: Sink>(sink: &mut S, page: &mut Page, format: u32, dual: &Dual)
    ensures { Sent S.holds S.faults sink.old page.old
        (spec.problem_text format (dual_values dual.now)) sink.new page.new }
{
    send_dual_head(sink, page, format, dual);
    send_dual_rows(sink, page, format, dual);
}
