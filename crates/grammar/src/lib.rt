//! Grammars as tables of productions: what a table derives, what a list of tokens means by it, and what
//! its first bad token is. Where a table passes a test by one token of lookahead, a reader with a stack
//! accepts exactly what the table derives (`docs/SEMANTICS.md`, "Grammars").
#![tactic(auto)]

mod laws;
mod stack;
mod symbol;

pub use laws::{
    lookahead_decides, meaning_is_unique, never_both, next_ones, one_of_both,
    one_of_both_by_the_last, refusal_is_unique, running_tells, size_is_bounded, tests_suffice,
};
pub use stack::Stack;
pub use symbol::Symbol;
