//! How far a step's acceleration can be from the rational solution of its own equation of motion: a
//! ball, by the factor of the mass matrix less a power of two on its diagonal.
#![tactic(auto)]

pub mod balls;
mod entries;
mod errors;
pub mod laws;
mod misses;

pub use balls::ball;
pub use laws::balls_enclose;
