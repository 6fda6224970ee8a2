//! Judging the keys of a model one by one: a value within its limits, or what is wrong with it.
#![tactic(auto)]

pub mod choices;
pub mod keys;
pub mod names;
pub mod numbers;
pub mod softness;
pub mod vectors;

pub use choices::{
    Extent, condim, format, geom_kind_of, joint_kind_of, joint_type, only_text, range, size,
};
pub use keys::{
    judge, judge_axis, judge_diagonal, judge_friction, judge_number, judge_range, judge_rotation,
    judge_size, judge_soft, judge_text, judge_vector, judge_whether, judge_whole, unturned,
};
pub use names::{is_named, name, same_text};
pub use numbers::{between, entry, small, unless, whole};
pub use softness::{Solimp, Solref, impedance, reference, soft};
pub use vectors::{axis, diagonal, rotation, turned, vector};
