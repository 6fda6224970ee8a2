//! Numbers as text: decimal numerals are read at a binary scale, and numbers are printed.
#![tactic(auto)]

pub mod decimal;
pub mod laws;
mod numeral;
pub mod print;
pub mod raw;

pub use decimal::{DecimalFault, read_decimal};
pub use print::{print_decimal, print_raw, send_decimal};
pub use raw::{read_natural, read_raw};
