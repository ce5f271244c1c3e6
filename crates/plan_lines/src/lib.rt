//! A component written out in a state: a line for each place, in text order, and which ids have a place for
//! each row of a store.
#![tactic(auto)]

mod keyed;
mod line;
mod scene;
mod writer;

pub use keyed::keyed_ids;
pub use line::Line;
pub use scene::{RowAround, Scene};
pub use writer::write_out;
