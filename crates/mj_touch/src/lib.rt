//! Where two geoms touch: the formulas of all kinds of pair, and the tangents of a contact.
#![tactic(auto)]

mod capsules;
mod frame;
mod leaves;
mod pairs;
mod planes;
mod shape;
mod spheres;
mod touch;

pub use frame::{TangentPair, tangents};
pub use pairs::touches;
pub use shape::{Shape, is_plane};
pub use touch::{Touch, Touches};
