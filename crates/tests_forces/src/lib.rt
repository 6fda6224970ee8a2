//! The tests of the solver of a dual and of its certificate, called by themselves.
#![tactic(auto)]

#[cfg(test)]
mod solving;
