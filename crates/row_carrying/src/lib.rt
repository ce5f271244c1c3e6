//! Rows that go over from one layout to the next.
#![tactic(auto)]

mod carry;
pub mod laws;
mod targets;

pub use carry::carry_over;
pub use targets::rows_to;
