//! The two sums of a dual's cost that have a limit are judged row by row.
#![tactic(auto)]

pub mod sums;

pub use sums::judge;
