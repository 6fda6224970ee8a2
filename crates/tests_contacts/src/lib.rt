//! The tests of pairs of geoms, and of how soft a constraint is.
#![tactic(auto)]

#[cfg(test)]
mod impedance;
#[cfg(test)]
mod touching;
