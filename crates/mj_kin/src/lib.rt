//! The kinematics of a step: poses, inertias and motion columns.
#![tactic(auto)]

mod bodies;
mod columns;
mod frame;
mod geoms;
mod inertias;
mod joints;
mod leaves;
mod placing;
mod skipping;

pub use placing::frames;
