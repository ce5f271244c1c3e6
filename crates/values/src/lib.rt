//! Values, expressions and plans: the vocabulary of every crate above.
#![tactic(auto)]

mod code;
mod expr;
pub mod laws;
pub mod limits;
mod memory;
mod packing;
mod plan;
mod reserved;
mod sequence;
mod texts;
mod tried;

pub use code::{Code, Op};
pub use expr::Expr;
pub use memory::NoMemory;
pub use plan::{
    Aim, Disposal, Fact, Facts, Kind, Left, Noted, Plan, PlanNode, PlanNodes, PlanOwner,
    PlanOwners, Pumped, Stop,
};
pub use reserved::Reserved;
pub use sequence::{Codes, Numbers, Sequence};
pub use texts::{TextRefusal, Texts};
pub use tried::{Tried, attempt};

#[cfg(test)]
mod tests;
