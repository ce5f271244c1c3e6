//! What a run hands out: what the operations of a script are answered, and the entries of the journal.
#![tactic(auto)]

mod answer;
mod entry;
pub mod laws;
mod limits;

pub use answer::{Answer, Answers, Reply};
pub use entry::Entry;
pub use limits::LAST_NUMBER;
