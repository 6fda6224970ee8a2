// What a run comes to: its steps one after another, each taken into the sums as it is done.
ghost use Rattle.std.specs.Prelude.{◌≡◌, ◌+◌, ◌-◌, ◌^◌, ◌<◌, ◌≤◌, ◌≤ℤ◌, ◌-ℤ◌, ℕ, Bool, IsTrue, IfOk, IfErr, cond, length, max, not, pos, unsigned_abs};
ghost use Rattle.fx_whole.specs.First.{refusal_of};
ghost use Rattle.mj_optimum.specs.Stop.{sweeps_of};
ghost use Rattle.mj_passive.specs.Forces.{AreControls};
ghost use Rattle.mj_step.specs.Steps.{step_state, step_values, step_fault};
ghost use Rattle.mj_step.specs.Workspace.{MadeFor, HasGap};
ghost use Rattle.mj_trace.specs.Block.{idle_count};
ghost use Rattle.mj_types.specs.declared.state.State.{State};
ghost use Rattle.mj_types.specs.States.{Fits};
ghost use Rattle.mj_types.specs.StepValues.{StepValues, row, active_count, values_of};
ghost use Rattle.mj_run.specs.Controls.{controls_at, tape_of, Serves};
ghost use Rattle.mj_run.specs.Run.{start, state_at, done_of};
ghost use Rattle.mj_run.specs.Summing as spec;

use crate::run::{Controls, Runner, early_end};
use fx_list::Listing;
use fx_num::Fix;
use mj_types::{Cert, End, Model, OutOfRange, Row, StepReport, Stop, Summary};

// One more where the test says so.
fn count_if(test: bool, n: u64) -> u64
    requires { n + 1 < 2 ^ 64 }
    ensures { result ≡ n + cond {A = ℕ} test 1 0 }
{
    if test { n + 1 } else { n }
}

// How many rows are in the dual.
fn count_active(rows: &Listing<Row>) -> u64
    requires { rows.now.most ≤ 1024 }
    ensures count { result ≡ active_count rows.now.list }
    ensures few { result ≤ 1024 }
{
    let mut active = 0;
    for i in 0..rows.len() {
        active = count_if(!rows.entry(i).idle, active);
    }
    active
}

// How many rows are idle.
fn count_idle(rows: &Listing<Row>) -> u64
    requires { rows.now.most ≤ 1024 }
    ensures count { result ≡ idle_count rows.now.list }
    ensures few { result ≤ 1024 }
{
    let mut idle = 0;
    for i in 0..rows.len() {
        idle = count_if(rows.entry(i).idle, idle);
    }
    idle
}

// How many sweeps were made.
fn sweeps_in(stop: Stop) -> u64
    ensures count { result ≡ sweeps_of stop }
    ensures few { result < 2 ^ 32 }
{
    match stop {
        Stop::NoRows => 0,
        Stop::Tolerance(sweeps) => u64::from(sweeps),
        Stop::Limit(sweeps) => u64::from(sweeps),
    }
}

// Whether there was nothing to sweep.
fn is_none(stop: Stop) -> bool
    ensures { result ≡ spec.is_none stop }
{
    match stop {
        Stop::NoRows => true,
        _ => false,
    }
}

// Whether the sweeps stopped at the tolerance.
fn is_tolerance(stop: Stop) -> bool
    ensures { result ≡ spec.is_tolerance stop }
{
    match stop {
        Stop::Tolerance(_) => true,
        _ => false,
    }
}

// Whether they stopped at their limit.
fn is_limit(stop: Stop) -> bool
    ensures { result ≡ spec.is_limit stop }
{
    match stop {
        Stop::Limit(_) => true,
        _ => false,
    }
}

// How far the cost is above its bound.
fn gap(cert: &Cert) -> u128
    requires { HasGap cert.now }
    ensures { result ≡ unsigned_abs (cert.now.cost2 -ℤ cert.now.bound2) }
{
    (cert.cost2 - cert.bound2).unsigned_abs()
}

// The larger of two sizes.
fn larger(most: &i128, size: u128) -> i128
    requires most { unsigned_abs most.now < 2 ^ 127 }
    requires size { size < 2 ^ 127 }
    ensures value { result ≡ pos (max (unsigned_abs most.now) size) }
    ensures small { unsigned_abs result < 2 ^ 127 }
{
    most.unsigned_abs().max(size).cast_signed()
}

/// The summary of a run of so many steps before the first of them.
pub fn no_steps(steps: u32) -> Summary
    ensures sums { (told : ℕ → StepValues) → result ≡ spec.summary_to told 0 steps End.Done }
    ensures spare { spec.HasSpareSums result }
{
    Summary {
        steps,
        done: 0,
        end: End::Done,
        rows: 0,
        idle: 0,
        sweeps: 0,
        tolerance: 0,
        limit: 0,
        none: 0,
        gap: 0,
        residual: 0,
    }
}

// The same sums, of a run that ends so.
fn ended(sum: Summary, end: End) -> Summary
    ensures { (told : ℕ → StepValues) → sum ≡ spec.summary_to told sum.done sum.steps sum.end
        → result ≡ spec.summary_to told sum.done sum.steps end }
{
    Summary { end, ..sum }
}

// The sums with one step more, which this report tells of.
fn with_step(sum: Summary, report: &StepReport) -> Summary
    requires rows { report.now.rows.most ≤ 1024 }
    requires gap { HasGap report.now.cert }
    requires residual { pos 0 ≤ℤ report.now.residual }
    requires spare { spec.HasSpareSums sum }
    requires count { sum.done < 2 ^ 32 - 1 }
    ensures spare { spec.HasSpareSums result }
    ensures more { (told : ℕ → StepValues) (state : State)
        → values_of state report.now ≡ told sum.done
        → sum ≡ spec.summary_to told sum.done sum.steps sum.end
        → result ≡ spec.summary_to told (sum.done + 1) sum.steps sum.end }
{
    Summary {
        steps: sum.steps,
        done: sum.done + 1,
        end: sum.end,
        rows: sum.rows + count_active(&report.rows),
        idle: sum.idle + count_idle(&report.rows),
        sweeps: sum.sweeps + sweeps_in(report.stop),
        tolerance: count_if(is_tolerance(report.stop), sum.tolerance),
        limit: count_if(is_limit(report.stop), sum.limit),
        none: count_if(is_none(report.stop), sum.none),
        gap: larger(&sum.gap, gap(&report.cert)),
        residual: larger(&sum.residual, report.residual.unsigned_abs()),
    }
}

// The step after those that are summed, with its sums where it is done.
fn sum_step(
    model: &Model,
    runner: &mut Runner,
    controls: &[Fix<32>],
    sum: Summary,
) -> Result<Summary, OutOfRange>
    requires made { MadeFor model.now runner.old.work }
    requires fits { Fits model.now runner.old.state }
    requires controls { AreControls model.now controls.now }
    requires spare { spec.HasSpareSums sum }
    requires count { sum.done < 2 ^ 32 - 1 }
    ensures made { MadeFor model.now runner.new.work }
    ensures fits { Fits model.now runner.new.state }
    ensures first { refusal_of result
        ≡ step_fault model.now runner.old.state controls.now }
    ensures state { IfOk result (λ _. runner.new.state
        ≡ step_state model.now runner.old.state controls.now) }
    ensures kept { IfErr result (λ _. runner.new.state ≡ runner.old.state) }
    ensures spare { IfOk result (λ next. spec.HasSpareSums next) }
    ensures more { IfOk result (λ next. (told : ℕ → StepValues)
        → step_values model.now runner.old.state controls.now ≡ told sum.done
        → sum ≡ spec.summary_to told sum.done sum.steps sum.end
        → next ≡ spec.summary_to told (sum.done + 1) sum.steps sum.end) }
{
    runner.work.step(model, &mut runner.state, controls)?;
    Ok(with_step(sum, runner.work.report()))
}

/// Runs the model from its start under these controls and writes nothing: the answer is what the run of
/// so many steps comes to, and the runner holds the state after the last step that was done. Takes no
/// memory.
pub fn sum_run(model: &Model, runner: &mut Runner, controls: &Controls, steps: u32) -> Summary
    requires made { MadeFor model.now runner.old.work }
    requires fits { Fits model.now runner.old.state }
    requires start { runner.old.state ≡ start model.now }
    requires serves { Serves controls.now (length model.now.motors) steps }
    ensures made { MadeFor model.now runner.new.work }
    ensures fits { Fits model.now runner.new.state }
    ensures summary { result ≡ spec.summary_of model.now
        (controls_at (length model.now.motors) (tape_of controls.now)) steps }
    ensures state { runner.new.state ≡ state_at model.now
        (controls_at (length model.now.motors) (tape_of controls.now))
        (done_of model.now
        (controls_at (length model.now.motors) (tape_of controls.now)) steps) }
{
    let mut sum = no_steps(steps);
    for done in 0..steps {
        let row = controls.at(model.motors.len(), steps, done);
        match sum_step(model, runner, row, sum) {
            Ok(next) => sum = next,
            Err(out) => return ended(sum, early_end(done, &out)),
        }
    }
    sum
}
