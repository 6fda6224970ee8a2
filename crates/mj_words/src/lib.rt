//! The words after the program's name: which are accepted, and what they ask for.
#![tactic(auto)]

mod numbers;
pub mod table;
pub mod words;

pub use table::{Command, Name};
pub use words::{
    accepted_words_have_no_bad_place, bad_place, bench_link_count, bench_step_count, command_of,
    dump_of, link_count, model_of, nth_tape, seed_of, step_count, tape_count, tape_name, tape_of,
    wants_ball, wants_dual, wants_inverse, worker_count,
};
