//! What each action makes of what was read of a script text so far (`docs/SEMANTICS.md`).
#![tactic(auto)]

mod actions;

pub use actions::perform;
