//! The tests of numbers and lists: values worked apart from the program, and what no contract says. They
//! stand in a crate of their own, since a crate with a test is proved twice.
#![tactic(auto)]

#[cfg(test)]
mod lists;
#[cfg(test)]
mod nears;
#[cfg(test)]
mod numbers;
#[cfg(test)]
mod shared;
#[cfg(test)]
mod wholes;
#[cfg(test)]
mod widths;
