//! The call on one effect: whether it needs a run, and its run under a number of its own.
#![tactic(auto)]

mod effect;
mod find;
mod run;

pub use effect::{Effect, run_effect};
pub use find::{Found, find_out};
pub use run::run_under;

#[cfg(test)]
mod tests;
