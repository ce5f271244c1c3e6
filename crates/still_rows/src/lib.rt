//! The work of one caller over the rows of a plan: values that are asked for, writes, and settling.
#![tactic(auto)]

mod bring;
mod calls;
mod clock;
mod evaluating;
mod fresh;
mod lawful;
pub mod laws;
mod moves;
mod stack;
mod writes;

pub use bring::{Ended, Gone, bring_up, go_on};
pub use calls::{Work, get, refresh, set, settle_memos, settle_span};
pub use clock::{Clock, Full, PHASE_ROOM};
pub use fresh::fresh_rows;
pub use lawful::is_lawful;
pub use moves::{Moved, advance, row_at};
pub use stack::Stack;
pub use writes::{keep, record_run};

#[cfg(test)]
mod tests;
