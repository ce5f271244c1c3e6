//! Script texts as a language that the reader reads (`docs/SEMANTICS.md`): the state through which it goes, with what
//! each token and each action does to it.
#![tactic(auto)]

mod state;
mod text_state;

pub use state::ScriptState;
