//! What a graph goes over to behind a phase after which rows may have come or gone: held state with the phase folded
//! in, and the layout of the component in it.
#![tactic(auto)]

mod codes;
mod folding;
mod making;
mod putting;
mod staying;
mod taking;

pub use making::Next;
pub use staying::fold_in_place;
