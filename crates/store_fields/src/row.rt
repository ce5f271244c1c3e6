//! A row of a store.
ghost use Rattle.std.specs.Prelude.{◌≡◌, IfOk};

use std::alloc::Global;
use values::{Code, Codes, NoMemory};

/// A row: its key, by which the store knows it, and the value of each of the store's fields, in the order
/// of the fields' declaration.
#[derive(Debug, Drop)]
pub struct Row {
    pub key: Code,
    pub fields: Codes,
}

impl Row {
    /// The same row, in memory of its own.
    pub fn copy(&self, alloc: Global) -> Result<Row, NoMemory>
        ensures { IfOk result (λ row. row ≡ self.now) }
    {
        Ok(Row {
            key: self.key,
            fields: self.fields.copy(alloc)?,
        })
    }
}
