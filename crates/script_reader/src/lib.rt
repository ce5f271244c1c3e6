//! Reads the text of a script for a component (`docs/LANGUAGE.md`, "Script texts").
#![tactic(auto)]

mod reader;
mod texts;

pub use reader::read_script;

#[cfg(test)]
mod tests;
