//! Vectors in space and spatial algebra in fixed point: each product of vectors is added exactly to
//! sums that the caller rounds once.
#![tactic(auto)]

pub mod cross;
pub mod dot;
pub mod inertia;
mod leaf;
pub mod plain;
pub mod settling;
pub mod spatial;
pub mod vector;

pub use cross::cross_into;
pub use dot::{dot_into, pair_into};
pub use inertia::{Inertia10, add10, inertia_into, is_short, short_inertia_into};
pub use plain::{minus, move_along, plus, project, stretch};
pub use settling::{settle3, settle6};
pub use spatial::{add3, add6, force_cross_into, motion_cross_into, times6_into};
pub use vector::{M3, Q4, Sp6, Sum3, Sum6, Total3, Total6, V3, Vector3, Vector6};
