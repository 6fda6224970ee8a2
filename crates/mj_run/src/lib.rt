//! Runs of a model and what they tell: the trace of one, or the summaries of many that threads share.
#![tactic(auto)]

pub mod job;
pub mod jobs;
pub mod laws;
pub mod run;
pub mod summing;
mod telling;

pub use job::RunJob;
pub use jobs::{add_job, first_end, run_all, run_batch, send_reports};
pub use laws::{told_forces_are_best, told_runs_end_alike, told_steps_are_done};
pub use run::{Controls, Runner, send_run};
pub use summing::{no_steps, sum_run};
