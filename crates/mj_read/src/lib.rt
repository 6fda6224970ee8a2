//! Reads the model format: a TOML document gives a raw model, key by key, or is refused at its first
//! fault.
#![tactic(auto)]

pub mod bodies;
mod defaults;
pub mod document;
pub mod equalities;
pub mod geoms;
pub mod joints;
pub mod keyframes;
pub mod motors;
pub mod settings;
pub mod tendons;

pub use bodies::{RawBody, RawInertial};
pub use document::{RawModel, raw_model};
pub use equalities::RawEquality;
pub use geoms::RawGeom;
pub use joints::RawJoint;
pub use keyframes::RawKeyframe;
pub use motors::RawMotor;
pub use settings::RawOption;
pub use tendons::{RawTendon, RawTerm};
