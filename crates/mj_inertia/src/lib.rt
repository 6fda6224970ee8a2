//! Composite inertias and the mass matrix in the space of dofs.
#![tactic(auto)]

mod composing;
pub mod laws;
mod matrix;
mod numbers;

pub use composing::composites;
pub use laws::{
    carried_up_is_composite, composite_momentum_is_sum, mass_is_symmetric, radii_cover_unrounded,
};
pub use matrix::mass_matrix;
