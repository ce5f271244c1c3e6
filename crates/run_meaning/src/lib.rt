//! What a run means: when a journal and the answers of a script's lanes fit together, why each operation is
//! answered as it is, how the held state goes from phase to phase, and what is reported. These are definitions
//! with their laws and worked rows. There is no code here: the crates above cite them in their contracts.
#![tactic(auto)]

pub mod laws;
