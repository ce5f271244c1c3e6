//! What was read of a script text so far: the state through which the reader of script texts goes
//! (`docs/SEMANTICS.md`). It borrows the names and texts of a component, and holds the texts that the script adds.
#![tactic(auto)]

mod draft;
mod named;
mod phases;
mod texts;

pub use draft::ScriptDraft;
pub use named::{Named, named_by};
pub use phases::{add_op, begin_lane, lanes};
pub use texts::ScriptTexts;
