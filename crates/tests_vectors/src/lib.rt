//! The tests of vectors, sines and rotations: values worked apart from the program.
#![tactic(auto)]

#[cfg(test)]
mod sines;
#[cfg(test)]
mod turns;
#[cfg(test)]
mod vectors;
