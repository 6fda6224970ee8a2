//! The bias forces of a state: what its motion and gravity ask for at each dof (Featherstone, Rigid
//! Body Dynamics Algorithms, chapter 5), along the tree, with the radii of a kind of number.
#![tactic(auto)]

mod bodies;
mod dofs;
mod down;
mod forces;
pub mod laws;
mod numbers;
mod settling;
mod up;

pub use forces::bias;
