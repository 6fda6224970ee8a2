//! The forces that springs, dampers, fixed tendons and motors apply.
#![tactic(auto)]

mod dofs;
mod joints;
mod motors;
mod numbers;
mod tendons;

pub use dofs::applied;
