// Jobs, the gate ahead of each, and the fan.
ghost use Rattle.std.specs.Prelude.{◌≡◌, ◌≤◌, ℕ};
ghost use Rattle.std.specs.Thread.{IsSend, IsSync};
ghost use Rattle.mj_fan.specs.InPlace.{InPlace, Ran};

use std::thread::{Threads, join_mut};

/// A piece of work with a number.
pub trait Job: Send {
    /// The number of a job.
    ghost number_of: { Self → ℕ };

    /// What `run` promises of a job before it and after it.
    ghost ran: { Self → Self → Type 0 };

    /// The job's number.
    fn number(&self) -> usize
        ensures { result ≡ number_of self.now };

    /// Does the job. Its number stays.
    fn run(&mut self)
        ensures ran { ran self.old self.new }
        ensures number { number_of self.new ≡ number_of self.old };
}

/// What is called ahead of each job's run, in the thread that runs it.
pub trait Gate: Sync {
    /// Called with the number of the job that is about to run.
    fn before(&self, job: usize);
}

/// The gate that does nothing.
#[derive(Debug, Clone, Copy)]
pub struct NoGate;

impl Gate for NoGate {
    fn before(&self, _job: usize) {}
}

// Runs the jobs one after another.
fn run_in_order<J: Job, G: Gate>(gate: &G, jobs: &mut [J])
    ensures { InPlace (Ran J.ran J.number_of) jobs.old jobs.new }
{
    for i in 0..jobs.len() {
        gate.before(jobs[i].number());
        jobs[i].run();
    }
}

/// Runs each job once, in its place, by at most `pieces` threads at a time: jobs and pieces are split
/// in two until one piece is left. Takes no memory.
#[cycle(halves)]
pub fn fan<R: Threads + Sync, J: Job, G: Gate>(rt: &R, jobs: &mut [J], pieces: usize, gate: &G)
    requires pieces { 1 ≤ pieces }
    ensures { InPlace (Ran J.ran J.number_of) jobs.old jobs.new }
{
    if pieces < 2 || jobs.len() < 2 {
        run_in_order(gate, jobs);
        return;
    }
    let few = pieces / 2;
    let rest = pieces - few;
    let (lower, upper) = jobs.split_at_mut(jobs.len() / 2);
    join_mut(
        rt,
        &mut ||
            requires { IsSync R.row × IsSync G.row × IsSend J.row × (1 ≤ few) }
            ensures { InPlace (Ran J.ran J.number_of) lower.entry.now lower.exit.now }
        { fan(rt, lower, few, gate) },
        &mut ||
            requires { IsSync R.row × IsSync G.row × IsSend J.row × (1 ≤ rest) }
            ensures { InPlace (Ran J.ran J.number_of) upper.entry.now upper.exit.now }
        { fan(rt, upper, rest, gate) },
    );
}
