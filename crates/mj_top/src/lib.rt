//! The top call.
#![tactic(auto)]

pub mod batch;
mod bench;
mod checking;
pub mod laws;
pub mod top;

pub use laws::{outcomes_are_one, workers_do_not_matter};
pub use mj_words::accepted_words_have_no_bad_place;
pub use top::{run_gated, run_words};
