//! Edits of stores.
ghost use Rattle.std.specs.Prelude.{◌≡◌, IfOk};

use std::alloc::Global;
use values::{Code, Codes, NoMemory, Sequence};

/// What an edit does to the rows of its store. Places count from 0; one at or past the end means the end,
/// and the end is written `u32::MAX`.
#[derive(Debug, Drop)]
pub enum EditOp {
    /// A new row stands at the place.
    Insert {
        key: Code,
        fields: Codes,
        place: u32,
    },
    /// The row with the key goes.
    Remove {
        key: Code,
    },
    /// The row with the key goes to the place in the list of the others.
    Move {
        key: Code,
        place: u32,
    },
}

impl EditOp {
    /// The same edit, in memory of its own.
    pub fn copy(&self, alloc: Global) -> Result<EditOp, NoMemory>
        ensures { IfOk result (λ op. op ≡ self.now) }
    {
        match self {
            EditOp::Insert { key, fields, place } => Ok(EditOp::Insert {
                key: *key,
                fields: fields.copy(alloc)?,
                place: *place,
            }),
            EditOp::Remove { key } => Ok(EditOp::Remove { key: *key }),
            EditOp::Move { key, place } => Ok(EditOp::Move {
                key: *key,
                place: *place,
            }),
        }
    }
}

/// An edit of the store with this id.
#[derive(Debug, Drop)]
pub struct Edit {
    pub store: u32,
    pub op: EditOp,
}

impl Edit {
    /// The same edit, in memory of its own.
    pub fn copy(&self, alloc: Global) -> Result<Edit, NoMemory>
        ensures { IfOk result (λ edit. edit ≡ self.now) }
    {
        Ok(Edit {
            store: self.store,
            op: self.op.copy(alloc)?,
        })
    }
}

/// What comes of an edit.
#[derive(Clone, Copy, Debug, PartialEq, Eq)]
pub enum Verdict {
    /// It was made.
    Done,
    /// A row with the key to be inserted was there.
    Present,
    /// There is no row with the key, or no store for the edit.
    Absent,
    /// The store holds as many rows as it may.
    AtMax,
}

/// What comes of each of several edits, in their order.
pub type Verdicts = Sequence<Verdict>;
