//! Jobs fanned out over threads: each is as its own run leaves it, in its place.
#![tactic(auto)]

pub mod jobs;
pub mod laws;

pub use jobs::{Gate, Job, NoGate, fan};
pub use laws::{joined, mapped};
