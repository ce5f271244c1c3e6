//! The page of a component in a held state, by plain evaluation of its text: no graph and no cache, and in the
//! time of what is evaluated and written.
#![tactic(auto)]

mod buffer;
mod page;
mod pending;

pub use page::{held_page_bytes, page_bytes};
pub use pending::pending_loads;

#[cfg(test)]
mod tests;
