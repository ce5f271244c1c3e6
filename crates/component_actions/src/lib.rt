//! What each action makes of what was read of a component text so far (`docs/SEMANTICS.md`).
#![tactic(auto)]

mod actions;
mod attributes;
mod blocks;

pub use actions::perform;
