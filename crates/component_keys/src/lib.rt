//! What each token of a resource's key does to what was read of a component text so far (`docs/SEMANTICS.md`).
#![tactic(auto)]

mod keys;

pub use keys::{
    accept_empty_key, accept_key_minus, accept_negated_key, accept_number_key, accept_text_key,
};
