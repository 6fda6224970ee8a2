//! Rotations in fixed point.
#![tactic(auto)]

pub mod hamilton;
pub mod lengths;
mod products;
pub mod rotating;
pub mod sine;
pub mod turning;

pub use hamilton::compose;
pub use lengths::{renorm, unit, vector_length, vector_over};
pub use rotating::{matrix, rotate, rotate_by};
pub use sine::{cosine_is_even, quarter_turn_on, sin_cos, sine_is_odd, sines_are_small};
pub use turning::{advance, axis_angle};
