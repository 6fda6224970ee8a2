// What a run came to.
ghost use Rattle.std.specs.Prelude.{◌≡◌, ◌++◌, ◌<◌, ◌≤◌, ◌^◌, ℕ, unsigned_abs, length, codes};
ghost use Rattle.fx_text.specs.Places.{decimal_text};
ghost use Rattle.mj_io.specs.Sent.{Sent, Wrote};
ghost use Rattle.mj_types.specs.Parts.{number_at};
ghost use Rattle.mj_trace.specs.Lines.{line};
ghost use Rattle.mj_trace.specs.Summaries as spec;

use crate::lines::{send_label, send_sum, send_wide_line};
use crate::trace::send_end;
use fx_list::Array;
use fx_num::Fix;
use fx_text::send_decimal;
use mj_io::{Failed, Page, Sink, finish, send};
use mj_types::{State, Summary};

// The steps that were done.
fn send_steps<S: Sink>(sink: &mut S, page: &mut Page, sum: &Summary)
    ensures { Sent S.holds S.faults sink.old page.old (spec.steps_text sum.now)
        sink.new page.new }
{
    send_label(sink, page, b"steps ", sum.done);
    send_label(sink, page, b" of ", sum.steps);
    send(sink, page, b"\n");
}

// The sums of rows.
fn send_row_sums<S: Sink>(sink: &mut S, page: &mut Page, sum: &Summary)
    ensures { Sent S.holds S.faults sink.old page.old (spec.row_sums_text sum.now)
        sink.new page.new }
{
    send_sum(sink, page, b"rows ", sum.rows);
    send_sum(sink, page, b" idle ", sum.idle);
    send(sink, page, b"\n");
}

// The sums of sweeps, and how often each stop came.
#[tactic(auto, unfolding(crate::specs::Summaries::sweeps_text))]
fn send_sweeps<S: Sink>(sink: &mut S, page: &mut Page, sum: &Summary)
    ensures { Sent S.holds S.faults sink.old page.old (spec.sweeps_text sum.now)
        sink.new page.new }
{
    send_sum(sink, page, b"sweeps ", sum.sweeps);
    send_sum(sink, page, b" tolerance ", sum.tolerance);
    send_sum(sink, page, b" limit ", sum.limit);
    send_sum(sink, page, b" none ", sum.none);
    send(sink, page, b"\n");
}

// A number with nine decimal places, after a space.
fn send_place<S: Sink>(sink: &mut S, page: &mut Page, x: &Fix<32>)
    requires { unsigned_abs x.now.mid ≤ 2 ^ 52 }
    ensures { Sent S.holds S.faults sink.old page.old
        (codes " " ++ decimal_text 9 x.now.mid) sink.new page.new }
{
    send(sink, page, b" ");
    send_decimal(sink, page, x, 9);
}

// Numbers with nine decimal places.
fn send_places<S: Sink>(sink: &mut S, page: &mut Page, xs: &[Fix<32>])
    requires { (i : ℕ) → i < length xs.now → unsigned_abs (number_at xs.now i) ≤ 2 ^ 52 }
    ensures { Sent S.holds S.faults sink.old page.old
        (spec.places_text (length xs.now) (number_at xs.now)) sink.new page.new }
{
    for i in 0..xs.len() {
        send_place(sink, page, &xs[i]);
    }
}

// A label and numbers with nine decimal places on a line.
fn send_places_line<S: Sink>(sink: &mut S, page: &mut Page, label: &[u8], xs: &Array<Fix<32>>)
    requires { (i : ℕ) → i < length xs.now → unsigned_abs (number_at xs.now i) ≤ 2 ^ 52 }
    ensures { Sent S.holds S.faults sink.old page.old
        (line label.now (spec.places_text (length xs.now) (number_at xs.now)))
        sink.new page.new }
{
    send(sink, page, label);
    send_places(sink, page, xs.as_slice());
    send(sink, page, b"\n");
}

/// Sends a run's summary: the steps that were done, the end, sums over them, and the last state.
#[tactic(auto, unfolding(crate::specs::Summaries::summary_text))]
pub fn send_summary<S: Sink>(sink: &mut S, page: &mut Page, sum: &Summary, state: &State)
    requires q { (i : ℕ) → i < length state.now.q
        → unsigned_abs (number_at state.now.q i) ≤ 2 ^ 52 }
    requires v { (i : ℕ) → i < length state.now.v
        → unsigned_abs (number_at state.now.v i) ≤ 2 ^ 52 }
    ensures sent { Sent S.holds S.faults sink.old page.old
        (spec.summary_text (length state.now.q) (length state.now.v) sum.now
        (number_at state.now.q) (number_at state.now.v)) sink.new page.new }
{
    send_steps(sink, page, sum);
    send_end(sink, page, &sum.end);
    send_row_sums(sink, page, sum);
    send_sweeps(sink, page, sum);
    send_wide_line(sink, page, b"gap ", &sum.gap);
    send_wide_line(sink, page, b"residual ", &sum.residual);
    send_places_line(sink, page, b"q", &state.q);
    send_places_line(sink, page, b"v", &state.v);
}

/// Writes a run's summary, as `send_summary` sends it. After `Failed` a prefix of it was written, and
/// the sink's count rose.
pub fn summary<S: Sink>(sink: &mut S, sum: &Summary, state: &State) -> Result<(), Failed>
    requires q { (i : ℕ) → i < length state.now.q
        → unsigned_abs (number_at state.now.q i) ≤ 2 ^ 52 }
    requires v { (i : ℕ) → i < length state.now.v
        → unsigned_abs (number_at state.now.v i) ≤ 2 ^ 52 }
    ensures wrote { Wrote S.holds S.faults sink.old
        (spec.summary_text (length state.now.q) (length state.now.v) sum.now
        (number_at state.now.q) (number_at state.now.v)) result sink.new }
{
    let mut page = Page::new();
    send_summary(sink, &mut page, sum, state);
    finish(sink, &mut page)
}
