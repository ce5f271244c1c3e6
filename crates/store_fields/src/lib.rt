//! Keyed stores: their rows, the edits that lanes make, and what comes of an edit.
#![tactic(auto)]

mod edit;
pub mod laws;
mod row;
mod rows;
mod table;

pub use edit::{Edit, EditOp, Verdict, Verdicts};
pub use row::Row;
pub use rows::Rows;

#[cfg(test)]
mod tests;
