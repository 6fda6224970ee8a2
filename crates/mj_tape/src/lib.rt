//! Tapes: the controls of a run, read from comma-separated values.
#![tactic(auto)]

mod judge;
pub mod reading;

pub use reading::{tape, tapes_hold_their_fields};
