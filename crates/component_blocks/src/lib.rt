//! What is seen and what is open while a component text is read: the names that are declared, and the blocks and
//! elements, with their attributes and items.
#![tactic(auto)]

mod blocks;
pub mod laws;

pub use blocks::Blocks;
