//! The tree-sparse factor of the mass matrix, its solves, and the residual of a solve.
#![tactic(auto)]

mod factoring;
pub mod laws;
pub mod lists;
mod numbers;
mod passes;
mod residuals;
mod solving;

pub use factoring::{factor, factor_less};
pub use numbers::mass_of;
pub use residuals::{residual, residual_of, row_times};
pub use solving::{half_solve, half_solve_by, pivot_roots, solve};
