//! What one phase of a script does to the graph of its component, to its answers and to its report.
#![tactic(auto)]

mod phase;
mod telling;

pub use phase::{answers_behind, make_phase, put_lines};
pub use telling::tell_edits;
