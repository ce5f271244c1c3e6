//! The outside: where bytes come from and go to, when loads arrive, and what waits before each
//! operation of a lane. Each is a trait, so that a caller hands in the real one or one in memory.
#![tactic(auto)]

mod counts;
mod delays;
mod failing_loader;
mod memory;
mod std_streams;
mod traits;
mod transfer;

pub use delays::{Delays, OpenGate};
pub use failing_loader::FailingLoader;
pub use memory::{MemorySink, MemorySource};
pub use std_streams::{StdSink, StdSource};
pub use traits::{Arrival, Failed, Gate, Loader, Sink, Source};
pub use transfer::{ReadError, read_up_to};

#[cfg(test)]
mod tests;
