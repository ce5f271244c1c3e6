//! Held state: the values of the live signals, the rows of the live stores, the keys that arrived for the live
//! loads, and which owners are live. Each call says what becomes of it by the definitions of plain evaluation.
#![tactic(auto)]

mod first;
mod held;
mod holding;
pub mod laws;

pub use held::Held;

#[cfg(test)]
mod tests;
