//! The report of a run as bytes: the lines of answers, of journals and of loads that are pending. Each function
//! appends to the bytes that it is given, in pieces as long as they come. Where memory can't be had, a front of
//! what was to be written may stand behind them.
#![tactic(auto)]

mod answers;
mod code;
mod journal;
pub mod laws;
mod phase;
mod pieces;
mod waiting;

pub use answers::{put_answer, put_answers, put_reply};
pub use code::put_code;
pub use journal::{put_entries, put_entry, put_fact};
pub use phase::put_phase;
pub use waiting::put_waiting;

#[cfg(test)]
mod tests;
