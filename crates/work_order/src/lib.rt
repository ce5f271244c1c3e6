//! The order of work on one node: what is done next on it, given how far the work is.
#![tactic(auto)]

mod frame;
pub mod laws;
mod order;

pub use frame::{Due, Frame};
pub use order::{Next, needs_number, next_on, next_with};

#[cfg(test)]
mod tests;
