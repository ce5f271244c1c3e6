//! What the readers of component texts and of scripts take from a token: its place, its value, what it says, and
//! its number in the table of texts (`docs/SEMANTICS.md`).
#![tactic(auto)]

mod names;
mod numbers;
mod places;
mod texts;

pub use names::{goes_on, is_key, is_part};
pub use numbers::{negated, negated_next, number, value, value_up_to};
pub use places::{check, place_of, refused};
pub use texts::{add_content, add_found, add_text, content, is_full};
