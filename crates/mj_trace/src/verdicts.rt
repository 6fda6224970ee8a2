// The one line that tells what the check of a dump finds, sent through a page. It takes no memory.
ghost use Rattle.std.specs.Prelude.{◌≡◌};
ghost use Rattle.mj_io.specs.Sent.{Sent, Wrote};
ghost use Rattle.mj_trace.specs.Verdicts as spec;

use crate::lines::{send_counted, send_label_line};
use mj_io::{Failed, Page, Sink, finish, send};
use mj_types::Reason;

/// Sends the line of a dump that is accepted, with so many blocks.
pub fn send_accepted<S: Sink>(sink: &mut S, page: &mut Page, blocks: u32)
    ensures sent { Sent S.holds S.faults sink.old page.old (spec.accepted_text blocks)
        sink.new page.new }
{
    send_label_line(sink, page, b"accepted ", blocks);
}

/// Sends the line of a dump that is rejected: its first line, from 1, that is at fault, and why.
pub fn send_rejected<S: Sink>(sink: &mut S, page: &mut Page, line: usize, reason: Reason)
    ensures sent { Sent S.holds S.faults sink.old page.old (spec.rejected_text line reason)
        sink.new page.new }
{
    send_counted(sink, page, b"rejected ", line);
    send(sink, page, b" ");
    send(sink, page, reason.name().as_bytes());
    send(sink, page, b"\n");
}

/// Writes the line of a dump that is accepted, as `send_accepted` sends it. After `Failed` a prefix of it
/// was written, and the sink's count rose.
pub fn accepted<S: Sink>(sink: &mut S, blocks: u32) -> Result<(), Failed>
    ensures wrote { Wrote S.holds S.faults sink.old (spec.accepted_text blocks) result sink.new }
{
    let mut page = Page::new();
    send_accepted(sink, &mut page, blocks);
    finish(sink, &mut page)
}

/// Writes the line of a dump that is rejected, as `send_rejected` sends it. After `Failed` a prefix of it
/// was written, and the sink's count rose.
pub fn rejected<S: Sink>(sink: &mut S, line: usize, reason: Reason) -> Result<(), Failed>
    ensures wrote { Wrote S.holds S.faults sink.old (spec.rejected_text line reason)
        result sink.new }
{
    let mut page = Page::new();
    send_rejected(sink, &mut page, line, reason);
    finish(sink, &mut page)
}
