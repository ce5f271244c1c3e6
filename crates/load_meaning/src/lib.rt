//! What polls of the loads of a component come to.
#![tactic(auto)]

mod late;
pub mod laws;
pub mod worked;

pub use late::Late;
