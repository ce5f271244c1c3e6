//! Loads: asking a loader for the value of a key until it has arrived.
#![tactic(auto)]

pub mod laws;
mod loading;

pub use loading::{Loading, Polled};

#[cfg(test)]
mod tests;
