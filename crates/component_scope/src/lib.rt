//! The names that are seen while a component text is read: what each is declared as, and the fields of each store.
#![tactic(auto)]

mod fields;
mod rows;
mod scope;

pub use fields::{Fields, SharedFields};
pub use rows::Rows;
pub use scope::{Declaration, Kind, Scope};
