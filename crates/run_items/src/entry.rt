//! Entries of a journal.

use values::Fact;

/// An entry of a journal: what was noted, with its place. Phases count from 1, and numbers from 1 in each
/// phase.
#[derive(Clone, Copy, Debug, PartialEq, Eq)]
pub struct Entry {
    pub phase: u32,
    pub number: u32,
    pub fact: Fact,
}
