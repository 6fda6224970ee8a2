//! The certificate of a dual's forces: their cost, a bound that no feasible force's cost is below, and a
//! box around every feasible force that costs no more.
#![tactic(auto)]

pub mod certificate;
mod cost;
mod curve;
mod ends;
mod exact;
mod fall;
mod room;
mod slope;

pub use certificate::{certify, optimum_when_closed};
