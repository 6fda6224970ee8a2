// The first and the last line of a trace.
ghost use Rattle.std.specs.Prelude.{◌≡◌};
ghost use Rattle.mj_io.specs.Sent.{Sent, Wrote};
ghost use Rattle.mj_trace.specs.Trace as spec;

use crate::lines::{send_counted, send_label};
use mj_io::{Failed, Page, Sink, finish, send};
use mj_types::{End, Model, Quantity};

/// Sends the first line of the trace of a run of this many steps.
pub fn send_header<S: Sink>(sink: &mut S, page: &mut Page, model: &Model, steps: u32)
    ensures sent { Sent S.holds S.faults sink.old page.old
        (spec.header_text model.now.format model.now.nq model.now.nv steps)
        sink.new page.new }
{
    send_label(sink, page, b"trace ", model.format);
    send_counted(sink, page, b" nq=", model.nq);
    send_counted(sink, page, b" nv=", model.nv);
    send_label(sink, page, b" steps=", steps);
    send(sink, page, b"\n");
}

// The end of a run that was refused.
#[tactic(auto, unfolding(crate::specs::Trace::end_text))]
fn send_early_end<S: Sink>(sink: &mut S, page: &mut Page, step: usize, kind: Quantity, index: usize)
    ensures { Sent S.holds S.faults sink.old page.old
        (spec.end_text (End.OutOfRange step kind index)) sink.new page.new }
{
    send_counted(sink, page, b"end out-of-range step=", step);
    send(sink, page, b" kind=");
    send(sink, page, kind.name().as_bytes());
    send_counted(sink, page, b" index=", index);
    send(sink, page, b"\n");
}

/// Sends the line of a run's end.
#[tactic(auto, unfolding(crate::specs::Trace::end_text))]
pub fn send_end<S: Sink>(sink: &mut S, page: &mut Page, end: &End)
    ensures sent { Sent S.holds S.faults sink.old page.old (spec.end_text end.now)
        sink.new page.new }
{
    match end {
        End::Done => send(sink, page, b"end done\n"),
        End::OutOfRange { step, kind, index } => send_early_end(sink, page, *step, *kind, *index),
    }
}

/// Writes the first line of a trace, as `send_header` sends it. After `Failed` a prefix of it was
/// written, and the sink's count rose.
pub fn header<S: Sink>(sink: &mut S, model: &Model, steps: u32) -> Result<(), Failed>
    ensures wrote { Wrote S.holds S.faults sink.old
        (spec.header_text model.now.format model.now.nq model.now.nv steps) result sink.new }
{
    let mut page = Page::new();
    send_header(sink, &mut page, model, steps);
    finish(sink, &mut page)
}

/// Writes the line of a run's end, as `send_end` sends it. After `Failed` a prefix of it was written,
/// and the sink's count rose.
pub fn end<S: Sink>(sink: &mut S, end: &End) -> Result<(), Failed>
    ensures wrote { Wrote S.holds S.faults sink.old (spec.end_text end.now) result sink.new }
{
    let mut page = Page::new();
    send_end(sink, &mut page, end);
    finish(sink, &mut page)
}
