//! Answers to the operations of a script.

use store_fields::Verdict;
use values::{Code, Disposal, Pumped, Sequence};

/// What an operation was answered. Rows and owners are those of the plan that the phase opened with, and
/// numbers those of the phase's journal.
#[derive(Clone, Copy, Debug, PartialEq, Eq)]
pub enum Reply {
    /// The value was written, under this number.
    Set(u32),
    /// This value, with its number in the phase: 0 for the one that the phase opened with.
    Got(Code, u32),
    /// What came of each effect.
    Pumped(Pumped),
    /// How many owners were disposed now, and how many before.
    Disposal(Disposal),
    /// The edit was accepted, under this number, and this came of it when the phase was settled.
    Edited(u32, Verdict),
    /// There was no such row of the store when the phase opened.
    NoRow,
    /// This row was being brought up to date by another lane.
    Busy(u32),
    /// This row was marked by another lane while it was brought up to date.
    Again(u32),
    /// This owner is disposed.
    Disposed(u32),
    /// This number was drawn, which is above the last one that a phase notes.
    Full(u32),
}

/// A reply with the place of its operation. Phases, lanes and operations count from 1.
#[derive(Clone, Copy, Debug, PartialEq, Eq)]
pub struct Answer {
    pub phase: u32,
    pub lane: u32,
    pub op: u32,
    pub reply: Reply,
}

/// The answers of a run: phase by phase, in a phase lane by lane, in a lane in order of operations.
pub type Answers = Sequence<Answer>;
