//! The constraint rows of a state: which of them stand, how far each is violated, how soft it is, its
//! bounds and its Jacobian.
#![tactic(auto)]

mod count;
mod edges;
mod jacobian;
mod joints;
pub mod laws;
mod levers;
mod limits;
mod mixing;
mod pushing;
mod slopes;

pub use count::{judge_count, row_count};
pub use edges::{edge, edge_count, first_edge};
pub use joints::{equality, friction, has_friction};
pub use laws::{edges_add_up, unmoved_is_zero};
pub use limits::{
    has_high, has_low, has_tendon_high, has_tendon_low, high, low, tendon_high, tendon_low,
};
pub use slopes::{Slope, contact_slopes, no_slopes};
