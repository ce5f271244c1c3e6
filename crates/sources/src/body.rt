//! What a node read when it last ran, and why it ran.
ghost use Rattle.std.specs.Prelude.{◌≡◌, ◌<◌, ◌≤◌, ◌+◌, [], ◌∷◌, ◌++◌, length, IfOk, Some, None};
ghost use Rattle.values.specs.Reserved.{room_of};

use std::alloc::Global;
use values::{NoMemory, Reserved};

/// A read of a row.
#[derive(Clone, Copy, Debug, PartialEq, Eq)]
pub struct Read {
    /// The row that was read.
    pub row: u32,
    /// The version that it had: a count of ticks, which grows with each new value of the row.
    pub version: u64,
    /// The value that it had, packed (`Code::pack`).
    pub code: u64,
}

/// Reads, in the order in which they were made, with room for more.
pub type Reads = Reserved<Read>;

/// Why a node ran.
#[derive(Clone, Copy, Debug, PartialEq, Eq)]
pub enum Cause {
    /// It had never run.
    First,
    /// A source was read at version `old` in the run before, and then had version `new`.
    Changed { source: u32, old: u64, new: u64 },
}

/// What is recorded of a node's last run, in memory that was taken before.
#[derive(Debug, Drop)]
pub struct Body {
    /// The distinct rows that the run read, in order of first reading.
    pub reads: Reads,
    /// Why the node ran. There is none exactly where it never ran.
    pub cause: Option<Cause>,
    /// As many reads have room in each run.
    pub room: u32,
    ghost roomy: { room ≤ room_of reads },
}

impl Body {
    /// The body of a node that never ran, with room for so many reads.
    pub fn new(alloc: Global, room: u32) -> Result<Body, NoMemory>
        ensures reads { IfOk result (λ body. body.reads.list ≡ []) }
        ensures cause { IfOk result (λ body. body.cause ≡ None) }
        ensures room { IfOk result (λ body. body.room ≡ room) }
        ensures spare { IfOk result (λ body. room ≤ body.reads.spare) }
    {
        let reads = Reserved::with_room(alloc, room as usize)?;
        Ok(Body {
            reads,
            cause: None,
            room,
        })
    }

    /// Begins the record of a new run, which has no reads yet.
    pub fn begin(&mut self, cause: Cause)
        ensures reads { self.new.reads.list ≡ [] }
        ensures cause { self.new.cause ≡ Some cause }
        ensures room { self.new.room ≡ self.old.room }
        ensures spare { self.new.room ≤ self.new.reads.spare }
        ensures in_all { room_of self.new.reads ≡ room_of self.old.reads }
    {
        self.reads.clear();
        self.cause = Some(cause);
    }

    /// Adds a read to the run.
    pub fn push(&mut self, read: Read)
        requires { 0 < self.old.reads.spare }
        ensures reads { self.new.reads.list ≡ self.old.reads.list ++ read ∷ [] }
        ensures cause { self.new.cause ≡ self.old.cause }
        ensures room { self.new.room ≡ self.old.room }
        ensures spare { self.new.reads.spare + 1 ≡ self.old.reads.spare }
    {
        self.reads.push(read);
    }

    /// Records a whole run at once.
    pub fn replace(&mut self, cause: Cause, reads: &[Read])
        requires { length reads.now ≤ room_of self.old.reads }
        ensures reads { self.new.reads.list ≡ reads.now }
        ensures cause { self.new.cause ≡ Some cause }
        ensures room { self.new.room ≡ self.old.room }
        ensures in_all { room_of self.new.reads ≡ room_of self.old.reads }
    {
        self.reads.copy_from(reads);
        self.cause = Some(cause);
    }
}
