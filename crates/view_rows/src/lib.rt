//! The mounted rows of an `each`, by key and in the order of its store. A row that stays is moved whole, with its serial
//! and all that it has mounted.
#![tactic(auto)]

mod rows;
mod table;

pub use rows::MountedRows;
pub use table::Plan;
