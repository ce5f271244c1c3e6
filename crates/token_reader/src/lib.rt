//! The reader of texts by one token of lookahead, once for every language: it takes one token after another from left
//! to right, and keeps on a stack what has to come. What a token or an action does is an `impl` of `TextState`.
#![tactic(auto)]

mod bytes;
mod pending;
mod reader;
mod state;

pub use bytes::{place_at, read_bytes};
pub use reader::read;
pub use state::TextState;

#[cfg(test)]
mod tests;
