//! One step: from a state and its controls to the acceleration and the next state.
#![tactic(auto)]

pub mod laws;
mod loading;
mod report;
pub mod work;

pub use laws::{solutions_are_in_balls, steps_are_certified, steps_are_covered};
pub use work::Work;
