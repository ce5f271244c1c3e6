//! Whether the items of a component lay out too many nodes (`docs/LANGUAGE.md`, "Limits"). Each item is looked at twice,
//! however many stores and `each` there are.
#![tactic(auto)]

mod most;
mod nodes;
mod numbers;

pub use nodes::has_too_many_nodes;

#[cfg(test)]
mod tests;
