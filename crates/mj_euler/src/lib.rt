//! The state after a step, by semi-implicit Euler.
#![tactic(auto)]

pub mod integration;
mod joints;
mod numbers;

pub use integration::integrate;
