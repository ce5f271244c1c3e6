//! The graph over the rows of a plan for one caller: phases with their calls, and what is done between them.
#![tactic(auto)]

mod between;
mod calls;
mod disposal;
mod edits;
mod getting;
mod graph;
mod making;
mod phases;
mod pumping;
mod putting;
mod relaying;
mod table;
mod writing;

pub use graph::Graph;
pub use relaying::Relaid;
