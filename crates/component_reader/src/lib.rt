//! The reader of component texts: it gives the component that a text means, or why it means none, and where
//! (`docs/LANGUAGE.md`, "Refusals").
#![tactic(auto)]

mod reader;

pub use reader::read_component;

#[cfg(test)]
mod tests;
