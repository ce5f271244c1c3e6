//! Rows that go over from one layout of a component to the next, as definitions with their laws. There is no
//! code here: the crates above cite these definitions in their contracts.
#![tactic(auto)]

pub mod laws;
pub mod worked;
