//! Inverse dynamics of a step: the force of each row by itself, where the acceleration is known.
#![tactic(auto)]

mod filling;
pub mod inverse;
pub mod laws;
mod loads;
mod rows;

pub use inverse::separated;
pub use laws::row_forces_are_best;
