//! A graph is settled, as often as asked for.
#![tactic(auto)]

mod settling;

pub use settling::settle_rounds;
