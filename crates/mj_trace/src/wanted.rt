// The lines that a run tells behind a step's block where it is asked to.
ghost use Rattle.std.specs.Prelude.{◌≡◌, ◌<◌, ◌≤◌, length, codes};
ghost use Rattle.fx_whole.specs.Joined.{joined};
ghost use Rattle.mj_io.specs.Sent.{Sent, Wrote};
ghost use Rattle.mj_types.specs.Parts.{number_at};
ghost use Rattle.mj_types.specs.StepValues.{dual_values};
ghost use Rattle.mj_trace.specs.Block.{two_text};
ghost use Rattle.mj_trace.specs.Wanted as spec;

use crate::lines::{send_counted, send_label, send_spaced};
use mj_io::{Failed, Page, Sink, finish, send, send_signed, send_wide};
use mj_types::{Ball, Dual, Inverse};

// A ball that was found.
fn send_found<S: Sink>(sink: &mut S, page: &mut Page, ball: &Ball)
    ensures { Sent S.holds S.faults sink.old page.old (spec.found_text ball.now)
        sink.new page.new }
{
    send_label(sink, page, b"ball ", ball.shift);
    send(sink, page, b" ");
    send_signed(sink, page, &ball.low);
    send(sink, page, b" ");
    send_wide(sink, page, &ball.radius);
    send(sink, page, b"\n");
}

/// Sends the line of a ball around a step's acceleration, or that none was found.
pub fn send_ball<S: Sink>(sink: &mut S, page: &mut Page, ball: Option<Ball>)
    ensures sent { Sent S.holds S.faults sink.old page.old (spec.ball_text ball)
        sink.new page.new }
{
    match ball {
        None => send(sink, page, b"ball none\n"),
        Some(found) => send_found(sink, page, &found),
    }
}

// How far a step's forces are from those of its rows one by one, and its acceleration from their load.
fn send_distances<S: Sink>(sink: &mut S, page: &mut Page, inverse: &Inverse)
    ensures { Sent S.holds S.faults sink.old page.old
        (two_text (codes "inverse ") inverse.now.gap inverse.now.discrepancy)
        sink.new page.new }
{
    send(sink, page, b"inverse ");
    send_signed(sink, page, &inverse.gap);
    send(sink, page, b" ");
    send_wide(sink, page, &inverse.discrepancy);
    send(sink, page, b"\n");
}

// The force of row `i` of the dual by itself.
fn send_row_force<S: Sink>(sink: &mut S, page: &mut Page, dual: &Dual, inverse: &Inverse, i: usize)
    requires row { i < dual.now.m }
    requires forces { dual.now.m ≤ length inverse.now.x }
    ensures { Sent S.holds S.faults sink.old page.old
        (spec.row_force_text (dual_values dual.now).place (number_at inverse.now.x) i)
        sink.new page.new }
{
    send_counted(sink, page, b"x ", dual.place.at(i));
    send_spaced(sink, page, &inverse.x.entry(i).mid);
    send(sink, page, b"\n");
}

// The forces of all rows of the dual one by one.
fn send_row_forces<S: Sink>(sink: &mut S, page: &mut Page, dual: &Dual, inverse: &Inverse)
    requires { dual.now.m ≤ length inverse.now.x }
    ensures { Sent S.holds S.faults sink.old page.old
        (joined dual.now.m (spec.row_force_text (dual_values dual.now).place
        (number_at inverse.now.x))) sink.new page.new }
{
    for i in 0..dual.m {
        send_row_force(sink, page, dual, inverse, i);
    }
}

/// Sends the lines of a step's inverse dynamics: how far its forces are from those of its rows one by
/// one, and those, with the number of each row in the list of rows.
#[tactic(auto, unfolding(crate::specs::Wanted::inverse_text))]
pub fn send_inverse<S: Sink>(sink: &mut S, page: &mut Page, dual: &Dual, inverse: &Inverse)
    requires forces { dual.now.m ≤ length inverse.now.x }
    ensures sent { Sent S.holds S.faults sink.old page.old
        (spec.inverse_text (dual_values dual.now) (spec.inverse_values inverse.now))
        sink.new page.new }
{
    send_distances(sink, page, inverse);
    send_row_forces(sink, page, dual, inverse);
}

/// Writes the line of a ball, as `send_ball` sends it. After `Failed` a prefix of it was written, and the
/// sink's count rose.
pub fn ball_line<S: Sink>(sink: &mut S, ball: Option<Ball>) -> Result<(), Failed>
    ensures wrote { Wrote S.holds S.faults sink.old (spec.ball_text ball) result sink.new }
{
    let mut page = Page::new();
    send_ball(sink, &mut page, ball);
    finish(sink, &mut page)
}

/// Writes the lines of a step's inverse dynamics, as `send_inverse` sends them. After `Failed` a prefix of
/// them was written, and the sink's count rose.
pub fn inverse_lines<S: Sink>(sink: &mut S, dual: &Dual, inverse: &Inverse) -> Result<(), Failed>
    requires forces { dual.now.m ≤ length inverse.now.x }
    ensures wrote { Wrote S.holds S.faults sink.old
        (spec.inverse_text (dual_values dual.now) (spec.inverse_values inverse.now))
        result sink.new }
{
    let mut page = Page::new();
    send_inverse(sink, &mut page, dual, inverse);
    finish(sink, &mut page)
}
