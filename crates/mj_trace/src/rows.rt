// The lines of a step's rows.
ghost use Rattle.std.specs.Prelude.{◌≡◌, ◌++◌, ◌+◌, ◌^◌, ◌<◌, ℕ, cond, length, codes};
ghost use Rattle.fx_whole.specs.Joined.{joined};
ghost use Rattle.mj_io.specs.Sent.{Sent};
ghost use Rattle.mj_types.specs.Duals.{bound};
ghost use Rattle.mj_types.specs.Parts.{number_at};
ghost use Rattle.mj_types.specs.Problems.{forces};
ghost use Rattle.mj_types.specs.StepValues.{row, active_before, active_count};
ghost use Rattle.mj_trace.specs.Block as spec;
ghost use Rattle.mj_trace.specs.Reports.{HasForces, report_rest, report_row};

use crate::lines::{send_counted, send_spaced};
use fx_num::Fix;
use mj_io::{Page, Sink, send, send_size, send_unsigned};
use mj_types::{Row, Source, StepReport};

// An edge of a contact.
fn send_edge<S: Sink>(sink: &mut S, page: &mut Page, contact: usize, edge: u32)
    ensures { Sent S.holds S.faults sink.old page.old
        (spec.source_text (Source.Contact contact edge)) sink.new page.new }
{
    send_counted(sink, page, b"contact ", contact);
    send(sink, page, b" ");
    send_unsigned(sink, page, u64::from(edge));
}

// What a row stands for.
fn send_source<S: Sink>(sink: &mut S, page: &mut Page, source: Source)
    ensures { Sent S.holds S.faults sink.old page.old (spec.source_text source)
        sink.new page.new }
{
    match source {
        Source::Low(joint) => send_counted(sink, page, b"low ", joint),
        Source::High(joint) => send_counted(sink, page, b"high ", joint),
        Source::TendonLow(tendon) => send_counted(sink, page, b"tlow ", tendon),
        Source::TendonHigh(tendon) => send_counted(sink, page, b"thigh ", tendon),
        Source::Contact(contact, edge) => send_edge(sink, page, contact, edge),
        Source::Equality(equality) => send_counted(sink, page, b"equality ", equality),
        Source::Friction(joint) => send_counted(sink, page, b"friction ", joint),
    }
}

// A bound after a space, and a mark where it is missing.
pub(crate) fn send_bound<S: Sink>(sink: &mut S, page: &mut Page, limit: &Option<Fix<20>>)
    ensures { Sent S.holds S.faults sink.old page.old (spec.bound_text (bound limit.now))
        sink.new page.new }
{
    match limit {
        None => send(sink, page, b" -"),
        Some(x) => send_spaced(sink, page, &x.mid),
    }
}

// Both bounds.
fn send_both_bounds<S: Sink>(sink: &mut S, page: &mut Page, x: &Row)
    ensures { Sent S.holds S.faults sink.old page.old
        ((codes " in" ++ spec.bound_text (bound x.now.low)) ++ spec.bound_text (bound x.now.high))
        sink.new page.new }
{
    send(sink, page, b" in");
    send_bound(sink, page, &x.low);
    send_bound(sink, page, &x.high);
}

// A row's bounds, where the format tells them.
fn send_bounds<S: Sink>(sink: &mut S, page: &mut Page, format: u32, x: &Row)
    ensures { Sent S.holds S.faults sink.old page.old (spec.bounds_text format x.now)
        sink.new page.new }
{
    if format == 2 {
        send_both_bounds(sink, page, x);
    }
}

// The force of row `k` of the dual, and the ends of its box.
fn send_force<S: Sink>(sink: &mut S, page: &mut Page, report: &StepReport, k: usize)
    requires f { k < length report.now.forces.f }
    requires lo { k < length report.now.cert.lo }
    requires hi { k < length report.now.cert.hi }
    ensures { Sent S.holds S.faults sink.old page.old
        (spec.force_text (forces report.now.forces) (number_at report.now.cert.lo)
        (number_at report.now.cert.hi) k) sink.new page.new }
{
    send_spaced(sink, page, &report.forces.f.entry(k).mid);
    send_spaced(sink, page, &report.cert.lo.entry(k).mid);
    send_spaced(sink, page, &report.cert.hi.entry(k).mid);
}

// What follows a row's source.
fn send_rest<S: Sink>(sink: &mut S, page: &mut Page, report: &StepReport, i: usize, k: usize)
    requires report { HasForces report.now }
    requires row { i < length report.now.rows.list }
    requires active { k ≡ active_before report.now.rows.list i }
    ensures { Sent S.holds S.faults sink.old page.old (report_rest report.now i)
        sink.new page.new }
{
    let row = report.rows.entry(i);
    if row.idle {
        send(sink, page, b" idle");
    } else {
        send_active(sink, page, report, row, k);
    }
}

// What follows the source of row `k` of the dual.
fn send_active<S: Sink>(sink: &mut S, page: &mut Page, report: &StepReport, row: &Row, k: usize)
    requires f { k < length report.now.forces.f }
    requires lo { k < length report.now.cert.lo }
    requires hi { k < length report.now.cert.hi }
    ensures { Sent S.holds S.faults sink.old page.old
        (spec.force_text (forces report.now.forces) (number_at report.now.cert.lo)
        (number_at report.now.cert.hi) k ++ spec.bounds_text report.now.format row.now)
        sink.new page.new }
{
    send_force(sink, page, report, k);
    send_bounds(sink, page, report.format, row);
}

// Row `i`, before which `k` rows are in the dual.
#[tactic(auto, unfolding(crate::specs::Block::row_text))]
fn send_row<S: Sink>(sink: &mut S, page: &mut Page, report: &StepReport, i: usize, k: usize)
    requires report { HasForces report.now }
    requires row { i < length report.now.rows.list }
    requires active { k ≡ active_before report.now.rows.list i }
    ensures { Sent S.holds S.faults sink.old page.old (report_row report.now i)
        sink.new page.new }
{
    // there is a row after it at most, so that its number fits
    let _rows = report.rows.len();
    send(sink, page, b"row ");
    send_size(sink, page, i + 1);
    send(sink, page, b" ");
    send_source(sink, page, report.rows.entry(i).source);
    send_rest(sink, page, report, i, k);
    send(sink, page, b"\n");
}

// All rows.
pub(crate) fn send_rows<S: Sink>(sink: &mut S, page: &mut Page, report: &StepReport)
    requires { HasForces report.now }
    ensures { Sent S.holds S.faults sink.old page.old
        (joined (length report.now.rows.list) (report_row report.now)) sink.new page.new }
{
    let mut k = 0;
    for i in 0..report.rows.len() {
        send_row(sink, page, report, i, k);
        k = count_if(!report.rows.entry(i).idle, k);
    }
}

// How many rows are idle.
fn count_idle(report: &StepReport) -> usize
    ensures { result ≡ spec.idle_count report.now.rows.list }
{
    let mut idle = 0;
    for i in 0..report.rows.len() {
        idle = count_if(report.rows.entry(i).idle, idle);
    }
    idle
}

// One more where the test says so.
fn count_if(test: bool, n: usize) -> usize
    requires { n + 1 < 2 ^ 64 }
    ensures { result ≡ n + cond {A = ℕ} test 1 0 }
{
    if test { n + 1 } else { n }
}

// How many rows there are, and how many of them are idle.
pub(crate) fn send_counts<S: Sink>(sink: &mut S, page: &mut Page, report: &StepReport)
    ensures { Sent S.holds S.faults sink.old page.old
        (spec.counts_text report.now.rows.list) sink.new page.new }
{
    send_counted(sink, page, b"rows ", report.rows.len());
    send_counted(sink, page, b" idle ", count_idle(report));
    send(sink, page, b"\n");
}
