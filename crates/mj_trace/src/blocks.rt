// The block of one step that was done.
ghost use Rattle.std.specs.Prelude.{◌≡◌, length, option_map};
ghost use Rattle.mj_io.specs.Sent.{Sent, Wrote};
ghost use Rattle.mj_types.specs.StepValues.{values_of, dual_values};
ghost use Rattle.mj_trace.specs.Block as spec;
ghost use Rattle.mj_trace.specs.Reports.{HasForces};

use crate::dual::send_dual;
use crate::lines::{send_label_line, send_list_line, send_two, send_two_wide, send_wide_line};
use crate::rows::{send_counts, send_rows};
use mj_io::{Failed, Page, Sink, finish, send};
use mj_types::{Dual, State, StepReport, Stop};

// How the solver stopped.
fn send_stop<S: Sink>(sink: &mut S, page: &mut Page, stop: Stop)
    ensures { Sent S.holds S.faults sink.old page.old (spec.stop_text stop) sink.new page.new }
{
    match stop {
        Stop::NoRows => send(sink, page, b"stop none\n"),
        Stop::Tolerance(sweeps) => send_label_line(sink, page, b"stop tolerance ", sweeps),
        Stop::Limit(sweeps) => send_label_line(sink, page, b"stop limit ", sweeps),
    }
}

// The step's number, the new state, the acceleration and its errors.
#[tactic(auto, unfolding(crate::specs::Block::motion_text))]
fn send_motion<S: Sink>(
    sink: &mut S,
    page: &mut Page,
    step: u32,
    state: &State,
    report: &StepReport,
)
    requires { length report.now.accel ≡ length state.now.v }
    ensures { Sent S.holds S.faults sink.old page.old
        (spec.motion_text (length state.now.q) (length state.now.v) step
        (values_of state.now report.now)) sink.new page.new }
{
    send_label_line(sink, page, b"step ", step);
    send_list_line(sink, page, b"q", &state.q);
    send_list_line(sink, page, b"v", &state.v);
    send_list_line(sink, page, b"a", &report.accel);
    send_wide_line(sink, page, b"residual ", &report.residual);
    send_two(
        sink,
        page,
        b"radius ",
        &report.mass_radius,
        &report.bias_radius,
    );
}

// The rows, the stop and the cost.
#[tactic(auto, unfolding(crate::specs::Block::constraint_text))]
fn send_constraints<S: Sink>(sink: &mut S, page: &mut Page, state: &State, report: &StepReport)
    requires { HasForces report.now }
    ensures { Sent S.holds S.faults sink.old page.old
        (spec.constraint_text report.now.format (values_of state.now report.now))
        sink.new page.new }
{
    send_counts(sink, page, report);
    send_rows(sink, page, report);
    send_stop(sink, page, report.stop);
    send_two_wide(
        sink,
        page,
        b"cost ",
        &report.cert.cost2,
        &report.cert.bound2,
    );
}

// The dual, where it is asked for.
fn send_asked<S: Sink>(sink: &mut S, page: &mut Page, format: u32, dual: Option<&Dual>)
    ensures { Sent S.holds S.faults sink.old page.old
        (spec.dual_text format (option_map (λ d. dual_values d.now) dual.entry)) sink.new page.new }
{
    match dual {
        None => {}
        Some(dual) => send_dual(sink, page, format, dual),
    }
}

/// Sends the block of step `step`, from 1: the state after it, what its report tells, and the dual that
/// it solved where one is given.
#[tactic(auto, unfolding(crate::specs::Block::block_text))]
pub fn send_block<S: Sink>(
    sink: &mut S,
    page: &mut Page,
    step: u32,
    state: &State,
    report: &StepReport,
    dual: Option<&Dual>,
)
    requires accel { length report.now.accel ≡ length state.now.v }
    requires forces { HasForces report.now }
    ensures sent { Sent S.holds S.faults sink.old page.old
        (spec.block_text report.now.format (length state.now.q) (length state.now.v) step
        (values_of state.now report.now) (option_map (λ d. dual_values d.now) dual.entry))
        sink.new page.new }
{
    send_motion(sink, page, step, state, report);
    send_constraints(sink, page, state, report);
    send_asked(sink, page, report.format, dual);
}

/// Writes the block of step `step`, from 1, as `send_block` sends it. After `Failed` a prefix of it was
/// written, and the sink's count rose.
pub fn block<S: Sink>(
    sink: &mut S,
    step: u32,
    state: &State,
    report: &StepReport,
    dual: Option<&Dual>,
) -> Result<(), Failed>
    requires accel { length report.now.accel ≡ length state.now.v }
    requires forces { HasForces report.now }
    ensures wrote { Wrote S.holds S.faults sink.old
        (spec.block_text report.now.format (length state.now.q) (length state.now.v) step
        (values_of state.now report.now) (option_map (λ d. dual_values d.now) dual.entry))
        result sink.new }
{
    let mut page = Page::new();
    send_block(sink, &mut page, step, state, report, dual);
    finish(sink, &mut page)
}
