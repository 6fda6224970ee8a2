//! A dump, which is the trace of a run with its duals, is judged without a model: line by line for its
//! form and limits, and block by block for its numbers.
#![tactic(auto)]

pub mod ball;
mod block;
mod closing;
pub mod counts;
pub mod dual;
mod ending;
pub mod header;
mod judge;
pub mod laws;
mod motion;
pub mod numbers;
pub mod rejection;
pub mod room;
pub mod rows;
pub mod sources;
mod text;

pub use laws::{accepted_blocks_hold, accepted_numbers_hold, verdict_is_one};
pub use text::check;
