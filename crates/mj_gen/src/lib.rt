//! Generated input for benches and tests: the model of a chain and a tape of sines, each the same for
//! the same seed.
#![tactic(auto)]

mod chain;
mod growing;
mod numbers;
mod tape;

pub use chain::chain_model;
pub use tape::sine_tape;
