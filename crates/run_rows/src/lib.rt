//! Worked rows of what a run means: phases that ran rightly, what is reported of them, and phases that ran wrongly,
//! each in one way, with the fact that refuses it. Each is the contract of a function that does nothing.
#![tactic(auto)]

pub mod lanes;
pub mod openings;
pub mod reports;
pub mod right;
pub mod states;
pub mod whole;
pub mod wrong;
