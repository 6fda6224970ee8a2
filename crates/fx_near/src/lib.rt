//! Fixed-point numbers that carry a radius: each covers every exact number that it may stand for, and
//! what is computed from them covers what is computed from those.
#![tactic(auto)]

pub mod band;
pub mod laws;
pub mod quotient;
pub mod rooting;

pub use band::{Band, Near, exact};
pub use laws::{
    exact_covers, product_covers, quotient_covers, radius_is_least, root_covers, settled_covers,
    sum_covers,
};
pub use quotient::div_near;
pub use rooting::root_near;
