//! The texts of a run: its trace line by line, its summary, the one line of a refusal, and that of a verdict.
#![tactic(auto)]

pub mod blocks;
mod dual;
mod lines;
pub mod refusals;
mod rows;
pub mod summaries;
pub mod trace;
pub mod verdicts;
pub mod wanted;

pub use blocks::{block, send_block};
pub use refusals::{
    refusal, send_model_refusal, send_refusal, send_tape_refusal, send_words_refusal,
};
pub use summaries::{send_summary, summary};
pub use trace::{end, header, send_end, send_header};
pub use verdicts::{accepted, rejected, send_accepted, send_rejected};
pub use wanted::{ball_line, inverse_lines, send_ball, send_inverse};
