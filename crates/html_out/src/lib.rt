//! How texts and values are written in a page: their bytes, and a way to a sink that takes no memory.
#![tactic(auto)]

mod escape;
pub mod laws;
mod shown;
mod transfer;

pub use escape::{escape_text, escape_value};
pub use shown::show;
pub use transfer::put;

#[cfg(test)]
mod tests;
