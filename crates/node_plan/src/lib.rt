//! The layout of a component in a state: its plan, and which row of it has which place.
#![tactic(auto)]

mod layout;
mod nodes;
mod owners;
mod rows;

pub use layout::{Laid, lay_out, lay_out_lines};
pub use node_names::{Names, NodePlace};

#[cfg(test)]
mod tests;
