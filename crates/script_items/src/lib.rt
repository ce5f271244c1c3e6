//! What a script text means: the phases of a script, their lanes, and the operations of each lane.
#![tactic(auto)]

mod laws;
mod operation;
mod script;

pub use laws::{kept_with_its_texts, members_are_within};
pub use operation::ScriptOp;
pub use script::{END_OF_ROWS, Script};

#[cfg(test)]
mod tests;
