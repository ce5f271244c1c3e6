//! What each action makes of the operands of an expression that is read in a component text (`docs/SEMANTICS.md`).
#![tactic(auto)]

mod expressions;

pub use expressions::{make_binary, make_if, make_literal, take_whole};
