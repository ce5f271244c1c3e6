//! Mounted texts and attributes.
ghost use Rattle.std.specs.Prelude.{◌≡◌};
ghost use Rattle.view_meaning.specs.Mounted.{cell_again};
ghost use Rattle.view_slots.specs.Plain.{cell_meant, cells_meant};

use crate::sight::Found;
use values::Code;

/// A shown value: what it shows, the version of its node, and how often it was replaced since it was mounted.
#[derive(Clone, Copy, Debug, PartialEq, Eq)]
pub(crate) struct Cell {
    pub code: Code,
    pub version: u64,
    pub written: u64,
}

impl Cell {
    /// The cell of a node as it is now, where this one was mounted before or none was.
    pub(crate) fn again(before: Option<Cell>, found: &Found) -> Cell
        ensures { cell_meant result ≡ cell_again (cells_meant before) found.now.code found.now.version }
    {
        let written = match before {
            None => 0,
            Some(cell) if cell.version == found.version => cell.written,
            Some(cell) => cell.written.saturating_add(1),
        };
        Cell {
            code: found.code,
            version: found.version,
            written,
        }
    }
}
