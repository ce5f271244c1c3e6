//! What each token of the name of a tag or attribute does to what was read of a component text so far
//! (`docs/SEMANTICS.md`).
#![tactic(auto)]

mod tags;

pub use tags::{accept_dash, accept_name, accept_part};
