//! The graph between phases, for one caller: what a component holds, the rows of its plan, and the journal.
#![tactic(auto)]

mod begun;
mod phases;
mod settling;
mod still;
mod ways;

pub use load_polls::{Late, Pending};
pub use run_journal::Journal;
pub use settling::Settled;
pub use still::{Stage, Still, Target};

#[cfg(test)]
mod tests;
