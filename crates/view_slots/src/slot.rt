//! The slot of one id.
ghost use Rattle.std.specs.Prelude.{◌≡◌, map};
ghost use Rattle.std.specs.Bool.{OnTrue, OnFalse};
ghost use Rattle.view_slots.specs.Home.{blank_face, blank_sides, turned, undone, sides_celled, sides_opened, sides_repeated};
ghost use Rattle.view_slots.specs.Plain.{cell_meant, face_meant, sides_of, all_sides};

use crate::cell::Cell;

/// What is mounted of one id.
#[derive(Clone, Copy, Debug, PartialEq, Eq)]
pub(crate) struct Face {
    /// The text or attribute that shows its value.
    pub cell: Option<Cell>,
    /// Whether what stands in the area or `if` is mounted.
    pub is_open: bool,
    /// Whether the rows of the `each` are mounted.
    pub has_rows: bool,
}

impl Face {
    /// Nothing is mounted.
    pub(crate) fn blank() -> Face
        ensures { face_meant result ≡ blank_face }
    {
        Face {
            cell: None,
            is_open: false,
            has_rows: false,
        }
    }
}

/// What is mounted of one id, what was at the last update, and at which row of the plan it was found last.
#[derive(Clone, Copy, Debug, PartialEq, Eq)]
pub(crate) struct Slot {
    pub before: Face,
    pub now: Face,
    pub row: Option<u32>,
}

impl Slot {
    /// Nothing is mounted, and nothing was.
    pub(crate) fn blank() -> Slot
        ensures { sides_of result ≡ blank_sides }
    {
        Slot {
            before: Face::blank(),
            now: Face::blank(),
            row: None,
        }
    }

    /// With this cell, which was found at this row.
    pub(crate) fn with_cell(self, cell: Cell, row: u32) -> Slot
        ensures { sides_of result ≡ sides_celled (cell_meant cell) (sides_of self) }
    {
        Slot {
            before: self.before,
            now: Face {
                cell: Some(cell),
                is_open: self.now.is_open,
                has_rows: self.now.has_rows,
            },
            row: Some(row),
        }
    }

    /// With what stands in an `if` mounted, where its condition is true; that was found at this row.
    pub(crate) fn with_branch(self, is_true: bool, row: u32) -> Slot
        ensures open { OnTrue is_true (sides_of result ≡ sides_opened (sides_of self)) }
        ensures closed { OnFalse is_true (sides_of result ≡ sides_of self) }
    {
        let slot = if is_true { self.opened() } else { self };
        Slot {
            before: slot.before,
            now: slot.now,
            row: Some(row),
        }
    }

    /// With what stands in the area or `if` mounted.
    pub(crate) fn opened(self) -> Slot
        ensures { sides_of result ≡ sides_opened (sides_of self) }
    {
        Slot {
            before: self.before,
            now: Face {
                cell: self.now.cell,
                is_open: true,
                has_rows: self.now.has_rows,
            },
            row: self.row,
        }
    }

    /// With the rows of the `each` mounted.
    pub(crate) fn with_rows(self) -> Slot
        ensures { sides_of result ≡ sides_repeated (sides_of self) }
    {
        Slot {
            before: self.before,
            now: Face {
                cell: self.now.cell,
                is_open: self.now.is_open,
                has_rows: true,
            },
            row: self.row,
        }
    }
}

/// Nothing is mounted any more, and what was stands beside.
pub(crate) fn turn_all(slots: &mut [Slot])
    ensures { all_sides slots.new ≡ map turned (all_sides slots.old) }
{
    for slot in slots.iter_mut() {
        *slot = Slot {
            before: slot.now,
            now: Face::blank(),
            row: slot.row,
        };
    }
}

/// All is as it was before it was turned.
pub(crate) fn undo_all(slots: &mut [Slot])
    ensures { all_sides slots.new ≡ map undone (all_sides slots.old) }
{
    for slot in slots.iter_mut() {
        slot.now = slot.before;
    }
}
