//! What the bytes of a part of the input mean, where a grammar and the meaning of its tokens are given; and why a
//! part means nothing. Component texts and script texts are two such parts.
#![tactic(auto)]

mod laws;

pub use laws::{never_both, one_meaning, one_of_both, one_refusal, outcome_is_meaning};
