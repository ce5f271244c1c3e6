//! The top call: from the words of the command and the bytes of an input to the run of its script and the bytes of its page.
#![tactic(auto)]

mod answer;
mod ending;
mod finish;
mod input;
mod run;

pub use finish::{Finish, Outcome};
pub use run::page;

#[cfg(test)]
mod rows;
#[cfg(test)]
mod tests;
