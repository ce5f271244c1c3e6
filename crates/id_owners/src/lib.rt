//! The owner of each id of a component, found in one step.
#![tactic(auto)]

mod table;
mod walk;

pub use table::IdOwners;
