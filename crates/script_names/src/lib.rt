//! The names of a component, as a script finds them: what a name stands for in an area, and where a field stands
//! among those of its store, at once, however many there are.
#![tactic(auto)]

mod names;
mod walk;
mod what;

pub use names::Names;
pub use what::{Store, What};
