//! The tables of a raw model, judged key by key in the order of the format: what they give, or the first
//! refusal.
#![tactic(auto)]

pub mod bodies;
pub mod counts;
pub mod equalities;
pub mod geoms;
pub mod joints;
pub mod motors;
pub mod names;
pub mod settings;
pub mod tendons;

pub use bodies::judge_bodies;
pub use counts::judge_counts;
pub use equalities::judge_equalities;
pub use geoms::judge_geoms;
pub use motors::judge_motors;
pub use settings::{Settings, judge_option};
pub use tendons::judge_tendons;
