//! The value of each place of a component in a held state, by plain evaluation of its text: no graph and no cache.
#![tactic(auto)]

mod evaluation;
mod pairs;
mod place_values;
mod rows;

pub use evaluation::values_of;
pub use place_values::{PlaceValues, ValuePlace};
pub use rows::row_at;
