//! Reading TOML tables: refusals with a code and a path, the forms of values, the keys of a table, and
//! a walker that keeps the first refusal.
#![tactic(auto)]

pub mod form;
pub mod key;
pub mod refusal;
pub mod table;
pub mod walker;

pub use form::{AllNumbers, Form, NumberAt, Numbers, TextForm, Whole};
pub use key::{has_key, holds_text, value_at};
pub use refusal::{Refusal, refuse, under_item, under_key};
pub use table::walk_table;
pub use walker::{Walk, Walker};
