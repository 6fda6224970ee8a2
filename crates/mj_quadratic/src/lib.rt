//! Quadratic forms over integers: how far a form is from that of a factor, and the ball around an
//! answer of `m x = s` that holds each rational solution.
#![tactic(auto)]

pub mod laws;

pub use laws::ball_holds;
