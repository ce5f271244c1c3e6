//! One block or element that is open while a component text is read: as it began, with its attributes and items so far.
#![tactic(auto)]

mod attributes;
mod block;

pub use attributes::Attributes;
pub use block::{Block, Frame};
