//! The lists of a model, from its bodies with their joints and geoms.
#![tactic(auto)]

pub mod layout;

pub use layout::{BodyParts, Layout, lay_out, position_count, velocity_count};
