//! The journal of a run: its phases, each with what was noted in it.
#![tactic(auto)]

mod journal;

pub use journal::Journal;
