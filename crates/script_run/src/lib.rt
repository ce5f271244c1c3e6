//! The run of a script over the graph of its component.
#![tactic(auto)]

mod phase;
mod run;
mod today;

pub use run::{Ran, run_script};
pub use today::runs_today;
