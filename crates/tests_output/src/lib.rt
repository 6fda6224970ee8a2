//! The tests of output, files and text: what is written and told where a write, a read or a room fails,
//! with worked texts.
#![tactic(auto)]

#[cfg(test)]
mod cabinets;
#[cfg(test)]
mod pages;
#[cfg(test)]
mod shared;
#[cfg(test)]
mod sinks;
#[cfg(test)]
mod streams;
#[cfg(test)]
mod texts;
