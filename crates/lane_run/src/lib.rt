//! The lanes of a phase, run over the graph of a component.
#![tactic(auto)]

mod lane;
mod lanes;
mod room;
mod today;

pub use lanes::run_lanes;
pub use room::edit_room;
pub use today::lanes_run;
