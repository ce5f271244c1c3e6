//! The grammars of component texts and of script texts, as tables of productions, and that one token of
//! lookahead decides them.
#![tactic(auto)]

pub mod component;
mod component_expansions;
mod component_productions;
mod kind;
mod laws;
pub mod script;
mod script_productions;

pub use kind::{Class, Kind, Seen, kind_of};
pub use laws::{
    closers_add_no_text, closers_leave_elements_open, component_ends, component_reads_by_one_token,
    script_ends, script_reads_by_one_token, worked_texts,
};

#[cfg(test)]
mod tests;
