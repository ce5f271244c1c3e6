//! What a history of calls gives: a phase as one caller after another makes it. These are definitions with their laws.
//! There is no code here: the crates above cite them in their contracts.
#![tactic(auto)]

pub mod laws;
