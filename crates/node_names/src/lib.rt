//! Which row of a plan has which place of a component.
#![tactic(auto)]

mod names;
mod place;

pub use names::Names;
pub use place::NodePlace;
