//! The solver of a dual: projected Gauss-Seidel in exact integers.
#![tactic(auto)]

mod row;
mod shift;
mod solver;
mod start;
mod sweep;

pub use mj_types::Stop;
pub use solver::solve;
