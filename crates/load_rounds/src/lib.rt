//! How many rounds of polls bring all loads, where the loader is prompt.
#![tactic(auto)]

pub mod laws;
pub mod worked;
