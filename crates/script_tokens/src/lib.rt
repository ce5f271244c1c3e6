//! What each token does to what was read of a script text so far (`docs/SEMANTICS.md`).
#![tactic(auto)]

mod accept;
mod inserts;
mod keys;
mod literals;
mod paths;
mod phases;

pub use accept::accept_token;
