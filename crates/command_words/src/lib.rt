//! The words behind the program's name, and the settings that they stand for.
#![tactic(auto)]

mod error;
pub mod laws;
mod matches;
mod settings;
mod words;

pub use error::WordsError;
pub use settings::Settings;
pub use words::read_words;

#[cfg(test)]
mod tests;
