//! What a node read when it last ran, what is kept of each row between phases, and sets of rows.
#![tactic(auto)]

mod bit_row;
mod body;
mod colour;
pub mod laws;
mod opening;

pub use bit_row::BitRow;
pub use body::{Body, Cause, Read, Reads};
pub use colour::Colour;
pub use opening::{Opened, Opening};

#[cfg(test)]
mod tests;
