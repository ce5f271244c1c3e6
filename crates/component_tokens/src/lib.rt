//! What each token does to what was read of a component text so far (`docs/SEMANTICS.md`).
#![tactic(auto)]

mod accept;
mod declarations;
mod literals;
mod numbers;
mod uses;
mod written;

pub use accept::accept_token;
