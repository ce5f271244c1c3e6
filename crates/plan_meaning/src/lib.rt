//! The layout of a component: its rows, each with its place, and the plan over them, as definitions with their
//! laws. There is no code here: the crates above cite these definitions in their contracts.
#![tactic(auto)]

pub mod laws;
pub mod worked;
