//! What a page is: held state, plain evaluation by recursion over the text, pending loads and the bytes of a
//! page, for each form of item, as definitions with their laws. There is no graph, no cache and no code here:
//! the crates above cite these definitions in their contracts.
#![tactic(auto)]

pub mod laws;
pub mod worked;
