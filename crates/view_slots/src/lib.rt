//! What one home of a mounted view has mounted, the page outside of all rows or one row of an `each`, in slots by id;
//! and the walk that mounts a home again in the slots that are there, which takes no memory.
#![tactic(auto)]

mod cell;
mod mounting;
mod near;
mod sight;
mod slot;
mod slots;

pub use near::Near;
pub use sight::Sight;
pub use slots::Slots;
