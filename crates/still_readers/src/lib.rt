//! Who reads each row of a plan, and the marking of readers where a row is written.
#![tactic(auto)]

mod building;
mod marking;
mod readers;

pub use marking::{Marking, write_row};
pub use readers::{Reader, Readers, Span, is_recorded};
