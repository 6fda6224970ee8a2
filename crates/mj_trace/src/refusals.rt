// The one line that tells a refusal, sent through a page. It takes no memory.
ghost use Rattle.std.specs.Prelude.{◌≡◌, ◌++◌, decimal, IsTrue};
ghost use Rattle.mj_io.specs.Sent.{Sent, Wrote};
ghost use Rattle.mj_trace.specs.Refusal.{words_refusal, path_text, model_refusal, tape_fault_text, tape_refusal, is_refusal, refusal_text};

use crate::lines::send_counted;
use mj_io::{Failed, Page, Sink, finish, send, send_size};
use mj_types::{ModelFault, Status, TapeFault};

/// The line of words that are refused at a place.
pub fn send_words_refusal<S: Sink>(sink: &mut S, page: &mut Page, at: usize)
    ensures { Sent S.holds S.faults sink.old page.old (words_refusal at) sink.new page.new }
{
    send(sink, page, b"refused words ");
    send_size(sink, page, at);
    send(sink, page, b"\n");
}

// A space and the path, where it has a byte.
fn send_path<S: Sink>(sink: &mut S, page: &mut Page, path: &[u8])
    ensures { Sent S.holds S.faults sink.old page.old (path_text path.now) sink.new page.new }
{
    if !path.is_empty() {
        send(sink, page, b" ");
        send(sink, page, path);
    }
}

/// The line of a model that is refused.
pub fn send_model_refusal<S: Sink>(sink: &mut S, page: &mut Page, fault: &ModelFault)
    ensures { Sent S.holds S.faults sink.old page.old (model_refusal fault.now) sink.new page.new }
{
    send(sink, page, b"refused model ");
    send(sink, page, fault.code.name().as_bytes());
    send_path(sink, page, fault.path.as_slice());
    send(sink, page, b"\n");
}

// A bad number's record and column.
fn send_bad_number<S: Sink>(sink: &mut S, page: &mut Page, row: usize, column: usize)
    ensures { Sent S.holds S.faults sink.old page.old
        (tape_fault_text (TapeFault.BadNumber row column)) sink.new page.new }
{
    send(sink, page, b"BadNumber ");
    send_size(sink, page, row);
    send(sink, page, b" ");
    send_size(sink, page, column);
}

// Why a tape is refused.
fn send_tape_fault<S: Sink>(sink: &mut S, page: &mut Page, fault: TapeFault)
    ensures { Sent S.holds S.faults sink.old page.old (tape_fault_text fault) sink.new page.new }
{
    match fault {
        TapeFault::TooLarge => send(sink, page, b"TooLarge"),
        TapeFault::Width(row) => send_counted(sink, page, b"Width ", row),
        TapeFault::BadNumber(row, column) => send_bad_number(sink, page, row, column),
        TapeFault::Short(rows) => send_counted(sink, page, b"Short ", rows),
        TapeFault::Memory => send(sink, page, b"Memory"),
    }
}

/// The line of a tape that is refused, which counts from 1.
pub fn send_tape_refusal<S: Sink>(sink: &mut S, page: &mut Page, tape: usize, fault: TapeFault)
    ensures { Sent S.holds S.faults sink.old page.old (tape_refusal tape fault) sink.new page.new }
{
    send(sink, page, b"refused tape ");
    send_size(sink, page, tape);
    send(sink, page, b" ");
    send_tape_fault(sink, page, fault);
    send(sink, page, b"\n");
}

/// Sends the one line of a refusal: of words, of a model or of a tape. Of another status it sends
/// nothing.
pub fn send_refusal<S: Sink>(sink: &mut S, page: &mut Page, status: &Status)
    ensures sent { Sent S.holds S.faults sink.old page.old (refusal_text status.now)
        sink.new page.new }
{
    match status {
        Status::BadWords { at } => send_words_refusal(sink, page, *at),
        Status::BadModel(fault) => send_model_refusal(sink, page, fault),
        Status::BadTape { tape, fault } => send_tape_refusal(sink, page, *tape, *fault),
        _ => {}
    }
}

/// Writes the one line of a refusal, as `send_refusal` sends it. After `Failed` a prefix of it was
/// written, and the sink's count rose.
pub fn refusal<S: Sink>(sink: &mut S, status: &Status) -> Result<(), Failed>
    requires { IsTrue (is_refusal status.now) }
    ensures wrote { Wrote S.holds S.faults sink.old (refusal_text status.now) result sink.new }
{
    let mut page = Page::new();
    send_refusal(sink, &mut page, status);
    finish(sink, &mut page)
}
