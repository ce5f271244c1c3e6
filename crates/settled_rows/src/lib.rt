//! The rows of a component: the first ones, and what each settling makes of them.
#![tactic(auto)]

mod finishing;
mod first;

pub use finishing::finish;
pub use first::FirstRows;
