//! How hard a constraint holds: its impedance, and the acceleration that it asks for.
#![tactic(auto)]

pub mod solimp;
pub mod solref;

pub use solimp::impedance;
pub use solref::reference;
