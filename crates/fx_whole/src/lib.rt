//! Integers: rounding, roots, and the arithmetic that every layer above is written in.
#![tactic(auto)]

pub mod arithmetic;
mod reciprocal;
pub mod roots;
pub mod rounding;
pub mod shifting;

pub use arithmetic::{
    add_product, difference, is_between, is_within, narrow, negate, power, product, scale_up,
    scale_up_wide, size, sum, wide_product,
};
pub use reciprocal::{Divisor, nearest_by};
pub use roots::{guess_near_one, isqrt, isqrt_from};
pub use rounding::{nearest, nearest_shift};
pub use shifting::{is_rounded_within, nearest_by_half, rounding_rest};
