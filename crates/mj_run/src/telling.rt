// A step of a run, and what is told of it.
ghost use Rattle.std.specs.Prelude.{◌≡◌, ◌+◌, ◌-◌, ◌<◌, ◌≤◌, ◌^◌, List, None, IsTrue, IfOk, IfErr, length};
ghost use Rattle.fx_whole.specs.First.{refusal_of};
ghost use Rattle.mj_inverse.specs.Separated.{inverse_fault};
ghost use Rattle.mj_io.specs.Sent.{Sent};
ghost use Rattle.mj_passive.specs.Forces.{AreControls};
ghost use Rattle.mj_step.specs.Steps.{step_state, step_fault, ball_at};
ghost use Rattle.mj_step.specs.Workspace.{MadeFor};
ghost use Rattle.mj_trace.specs.Block.{block_text};
ghost use Rattle.mj_trace.specs.Reports.{HasForces};
ghost use Rattle.mj_trace.specs.Wanted.{ball_text, inverse_values};
ghost use Rattle.mj_types.specs.declared.state.State.{State};
ghost use Rattle.mj_types.specs.Control.{Control};
ghost use Rattle.mj_types.specs.States.{Fits};
ghost use Rattle.mj_types.specs.StepValues.{values_of, dual_values};
ghost use Rattle.mj_run.specs.Stepped.{HasStepped, HasInverse};
ghost use Rattle.mj_run.specs.Told as spec;

use crate::run::Runner;
use fx_num::Fix;
use mj_inverse::separated;
use mj_io::{Page, Sink};
use mj_trace::{send_ball, send_block, send_inverse};
use mj_types::{Model, OutOfRange, Wants};

// The step under these controls.
fn take_step(model: &Model, runner: &mut Runner, controls: &[Fix<32>]) -> Result<(), OutOfRange>
    requires made { MadeFor model.now runner.old.work }
    requires fits { Fits model.now runner.old.state }
    requires room { length runner.old.inverse.x ≡ model.now.njmax }
    requires controls { AreControls model.now controls.now }
    ensures made { MadeFor model.now runner.new.work }
    ensures fits { Fits model.now runner.new.state }
    ensures room { length runner.new.inverse.x ≡ model.now.njmax }
    ensures first { refusal_of result
        ≡ step_fault model.now runner.old.state controls.now }
    ensures stepped { IfOk result
        (λ _. HasStepped model.now runner.old.state controls.now runner.new) }
{
    runner.work.step(model, &mut runner.state, controls)?;
    Ok(())
}

// The inverse dynamics of a step that was done.
fn take_inverse(model: &Model, runner: &mut Runner) -> Result<(), OutOfRange>
    requires { (s : State) × (u : List Control) × HasStepped model.now s u runner.old }
    ensures made { MadeFor model.now runner.new.work }
    ensures fits { Fits model.now runner.new.state }
    ensures room { length runner.new.inverse.x ≡ model.now.njmax }
    ensures stepped { (s : State) (u : List Control) → HasStepped model.now s u runner.old
        → HasStepped model.now s u runner.new }
    ensures first { (s : State) (u : List Control) → HasStepped model.now s u runner.old
        → refusal_of result ≡ inverse_fault (spec.given_at model.now s u) }
    ensures inverse { IfOk result (λ _. (s : State) (u : List Control)
        → HasStepped model.now s u runner.old → HasInverse model.now s u runner.new.inverse) }
{
    let report = runner.work.report();
    separated(
        runner.work.dual(),
        runner.work.jacobian(),
        &report.forces,
        runner.work.smooth(),
        report.accel.as_slice(),
        runner.work.mass(),
        runner.work.free_load(),
        &mut runner.inverse,
    )?;
    Ok(())
}

// The same, where it is asked for.
fn take_more(model: &Model, runner: &mut Runner, wants: bool) -> Result<(), OutOfRange>
    requires { (s : State) × (u : List Control) × HasStepped model.now s u runner.old }
    ensures made { MadeFor model.now runner.new.work }
    ensures fits { Fits model.now runner.new.state }
    ensures room { length runner.new.inverse.x ≡ model.now.njmax }
    ensures stepped { (s : State) (u : List Control) → HasStepped model.now s u runner.old
        → HasStepped model.now s u runner.new }
    ensures first { (s : State) (u : List Control) → HasStepped model.now s u runner.old
        → refusal_of result
        ≡ spec.with_more wants None (inverse_fault (spec.given_at model.now s u)) }
    ensures inverse { IfOk result (λ _. IsTrue wants → (s : State) (u : List Control)
        → HasStepped model.now s u runner.old → HasInverse model.now s u runner.new.inverse) }
{
    if wants {
        take_inverse(model, runner)
    } else {
        Ok(())
    }
}

// The step under these controls, and what is asked for of it.
fn step_once(
    model: &Model,
    runner: &mut Runner,
    controls: &[Fix<32>],
    wants: Wants,
) -> Result<(), OutOfRange>
    requires made { MadeFor model.now runner.old.work }
    requires fits { Fits model.now runner.old.state }
    requires room { length runner.old.inverse.x ≡ model.now.njmax }
    requires controls { AreControls model.now controls.now }
    ensures made { MadeFor model.now runner.new.work }
    ensures fits { Fits model.now runner.new.state }
    ensures room { length runner.new.inverse.x ≡ model.now.njmax }
    ensures first { refusal_of result
        ≡ spec.told_fault wants model.now runner.old.state controls.now }
    ensures stepped { IfOk result
        (λ _. HasStepped model.now runner.old.state controls.now runner.new) }
    ensures inverse { IfOk result (λ _. IsTrue wants.inverse
        → HasInverse model.now runner.old.state controls.now runner.new.inverse) }
{
    take_step(model, runner, controls)?;
    take_more(model, runner, wants.inverse)?;
    Ok(())
}

// The block of a step that was done, with its dual where that is asked for.
fn send_done<S: Sink>(sink: &mut S, page: &mut Page, runner: &Runner, step: u32, wants: bool)
    requires done { IsTrue runner.now.work.is_done }
    requires accel { length runner.now.work.report.accel ≡ length runner.now.state.v }
    requires forces { HasForces runner.now.work.report }
    ensures { Sent S.holds S.faults sink.old page.old
        (block_text runner.now.work.report.format (length runner.now.state.q)
        (length runner.now.state.v) step (values_of runner.now.state runner.now.work.report)
        (spec.asked wants (dual_values runner.now.work.dual))) sink.new page.new }
{
    let report = runner.work.report();
    if wants {
        let dual = Some(runner.work.dual());
        send_block(sink, page, step, &runner.state, report, dual);
    } else {
        send_block(sink, page, step, &runner.state, report, None);
    }
}

// A ball around the acceleration of a step that was done.
fn send_ball_of<S: Sink>(sink: &mut S, page: &mut Page, model: &Model, runner: &mut Runner)
    requires { (s : State) × (u : List Control) × HasStepped model.now s u runner.old }
    ensures stepped { (s : State) (u : List Control) → HasStepped model.now s u runner.old
        → HasStepped model.now s u runner.new }
    ensures inverse { runner.new.inverse ≡ runner.old.inverse }
    ensures sent { (s : State) (u : List Control) → HasStepped model.now s u runner.old
        → Sent S.holds S.faults sink.old page.old (ball_text (ball_at model.now s u))
        sink.new page.new }
{
    let ball = runner.work.ball(model);
    send_ball(sink, page, ball);
}

// The same, where it is asked for.
fn send_asked_ball<S: Sink>(
    sink: &mut S,
    page: &mut Page,
    model: &Model,
    runner: &mut Runner,
    wants: bool,
)
    requires { (s : State) × (u : List Control) × HasStepped model.now s u runner.old }
    ensures stepped { (s : State) (u : List Control) → HasStepped model.now s u runner.old
        → HasStepped model.now s u runner.new }
    ensures inverse { runner.new.inverse ≡ runner.old.inverse }
    ensures sent { (s : State) (u : List Control) → HasStepped model.now s u runner.old
        → Sent S.holds S.faults sink.old page.old
        (spec.ball_lines wants (ball_at model.now s u)) sink.new page.new }
{
    if wants {
        send_ball_of(sink, page, model, runner);
    }
}

// The inverse dynamics of a step that was done, where they are asked for.
fn send_asked_inverse<S: Sink>(sink: &mut S, page: &mut Page, runner: &Runner, wants: bool)
    requires done { IsTrue runner.now.work.is_done }
    requires room { runner.now.work.dual.m ≤ length runner.now.inverse.x }
    ensures { Sent S.holds S.faults sink.old page.old
        (spec.inverse_lines wants (dual_values runner.now.work.dual)
        (inverse_values runner.now.inverse)) sink.new page.new }
{
    if wants {
        send_inverse(sink, page, runner.work.dual(), &runner.inverse);
    }
}

/// The step after `done` others, and what is told of it where it is done.
pub(crate) fn send_step<S: Sink>(
    sink: &mut S,
    page: &mut Page,
    model: &Model,
    runner: &mut Runner,
    controls: &[Fix<32>],
    done: u32,
    wants: Wants,
) -> Result<(), OutOfRange>
    requires made { MadeFor model.now runner.old.work }
    requires fits { Fits model.now runner.old.state }
    requires room { length runner.old.inverse.x ≡ model.now.njmax }
    requires controls { AreControls model.now controls.now }
    requires count { done < 2 ^ 32 - 1 }
    ensures made { MadeFor model.now runner.new.work }
    ensures fits { Fits model.now runner.new.state }
    ensures room { length runner.new.inverse.x ≡ model.now.njmax }
    ensures first { refusal_of result
        ≡ spec.told_fault wants model.now runner.old.state controls.now }
    ensures state { IfOk result (λ _. runner.new.state
        ≡ step_state model.now runner.old.state controls.now) }
    ensures sent { IfOk result (λ _. Sent S.holds S.faults sink.old page.old
        (spec.told_text wants model.now done runner.old.state controls.now)
        sink.new page.new) }
    ensures sink { IfErr result (λ _. sink.new ≡ sink.old) }
    ensures page { IfErr result (λ _. page.new ≡ page.old) }
{
    step_once(model, runner, controls, wants)?;
    send_done(sink, page, runner, done + 1, wants.dual);
    send_asked_ball(sink, page, model, runner, wants.ball);
    send_asked_inverse(sink, page, runner, wants.inverse);
    Ok(())
}
