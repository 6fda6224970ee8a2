//! Lists that contracts see as lists: of any type, of bytes, and within a room taken ahead.
#![tactic(auto)]

pub mod array;
pub mod listing;
pub mod text;

pub use array::Array;
pub use listing::Listing;
pub use text::Text;
