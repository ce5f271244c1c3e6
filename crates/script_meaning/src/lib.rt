//! What script texts mean, the first bad token of those that mean nothing, and what whole inputs mean:
//! definitions, and what follows from them.
#![tactic(auto)]

mod input;
mod laws;
mod worked;

pub use input::{
    accepted_inputs, input_never_both, input_one_of_both, input_one_refusal, one_input,
    refused_inputs,
};
pub use laws::{
    names_are_members, never_both, one_of_both, one_refusal, one_script, scripts_are_kept,
    scripts_are_short, texts_only_grow, words_are_in_the_table,
};
pub use worked::{
    accepted_scripts, fields_of_rows, names_in_paths, numbers_and_tokens, phases_and_lanes,
};
