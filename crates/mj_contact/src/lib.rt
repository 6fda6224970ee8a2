//! The contacts of a state: which pairs of geoms are tested, and their contacts in order.
#![tactic(auto)]

mod filter;
mod list;
mod pair;

pub use list::contacts;
