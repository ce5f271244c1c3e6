//! Held state and the rows of its layout: what the rows show of it.
#![tactic(auto)]

mod back;
pub mod laws;

pub use back::write_back;
