//! The operations of lanes are woven into the calls of the graph that they make, with those that make none between
//! them. These are definitions with their laws. There is no code here: the crates above cite them in their contracts.
#![tactic(auto)]

pub mod laws;
pub mod worked;
pub mod wrong;
