//! A text is read from its beginning on, piece by piece. What a run writes is read backwards: a piece
//! is found where the text begins with one of the piece's texts.
#![tactic(auto)]

pub mod scan;

pub use scan::Scan;
