//! What the edits and the disposals of a phase leave of held state, and what comes of each edit.
#![tactic(auto)]

mod disposals;
mod edits;
pub mod laws;
mod one;

pub use disposals::fold_disposals;
pub use edits::fold_edits;
