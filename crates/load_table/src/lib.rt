//! The loads of a component, and the values of their resources by key.
#![tactic(auto)]

pub mod laws;
mod load;
mod resource;
mod resources;
mod table;
mod walk;
pub mod worked;

pub use load::Load;
pub use table::LoadTable;
