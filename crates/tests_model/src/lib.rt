//! The tests of models, tapes, words, traces and jobs on threads.
#![tactic(auto)]

#[cfg(test)]
mod fanning;
#[cfg(test)]
mod generated;
#[cfg(test)]
mod judging;
#[cfg(test)]
mod reading;
#[cfg(test)]
mod sharing;
#[cfg(test)]
mod tapes;
#[cfg(test)]
mod traces;
#[cfg(test)]
mod words;
