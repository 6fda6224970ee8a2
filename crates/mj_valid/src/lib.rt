//! Judges a raw model: names, limits, ranges and units. It gives the model, or the first refusal.
#![tactic(auto)]

pub mod judging;
mod start;
mod walked;

pub use judging::{judge, model};
