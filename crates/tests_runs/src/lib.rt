//! The tests of whole runs: files and outputs that fail, outputs of little room, gates ahead of a
//! batch's runs. Whole commands over files that stand are cases of the built program, in `tests/cases`.
#![tactic(auto)]

#[cfg(test)]
mod faults;
#[cfg(test)]
mod gates;
#[cfg(test)]
mod input;
#[cfg(test)]
mod pages;
