//! The dual of a state: each constraint's row, reduced by the factor of the mass matrix.
#![tactic(auto)]

mod active;
mod assembling;
mod contacts;
mod joints;
pub mod lawful;
pub mod laws;
pub mod numbers;
mod reducing;
mod taking;
mod tendons;

pub use assembling::assemble;
pub use lawful::{constraints_are_lawful, impedance_lies_between, state_duals_are_lawful};
pub use laws::{assembly_reads_dofs, passing_rows_are_found};
pub use numbers::{along, limited};
pub use reducing::reduce;
