//! What a mounted view is: which parts of a page are mounted in held state, how a view is made again from a settled
//! graph, with the serials of its rows and how often each text was replaced, and the page that it writes; as
//! definitions with their laws. There is no code here: a view will cite these definitions in its contracts.
#![tactic(auto)]

pub mod laws;
pub mod worked;
