//! What a component text means, and why a text is refused: the types that the readers give, and what holds
//! of each component.
#![tactic(auto)]

mod around;
mod component;
pub mod laws;
mod refusal;

pub use component::{Attr, Attrs, Component, Item, Items};
pub use refusal::{Count, Place, Refusal, Why};

#[cfg(test)]
mod tests;
