//! The forces of a dual with their certificate, told by the dual's own rows.
#![tactic(auto)]

pub mod laws;
mod solving;

pub use laws::{duals_are_lawful, forces_are_enclosed, problems_read_own_rows};
pub use solving::enclose;
