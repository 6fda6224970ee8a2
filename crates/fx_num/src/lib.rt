//! Fixed-point numbers, plain or with a carried radius: exact sums of products, and one rounding.
#![tactic(auto)]

pub mod carry;
pub mod divide;
pub mod laws;
pub mod limits;
pub mod number;
pub mod product;
pub mod ratios;
pub mod scalar;
pub mod settling;

pub use carry::{Carry, Over, Plain};
pub use divide::div_nearest;
pub use fx_whole::{isqrt, nearest};
pub use laws::{join_either, join_grouped, mul_alike, settle_alike};
pub use limits::{limited, narrow_within, nearest_within};
pub use number::{Fix, Num, Number, Sum, Total, Wide};
pub use product::{mul_into, none, widened};
pub use ratios::{ratio, ratio_near_one};
pub use scalar::{
    add, minus_product, pair_difference, pair_sum, plus_product, round, rounded_difference,
    rounded_product, rounded_sum, subtract,
};
pub use settling::{lower, settle, settle_plain, times};
