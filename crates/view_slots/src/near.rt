//! Guesses of rows.

/// Where in the plan the node of a place may well be: a part that was found before stands as many rows further as the
/// one before it has moved, and one that was not comes behind the one before it. A guess that is wrong costs a look-up.
#[derive(Clone, Copy, Debug, PartialEq, Eq)]
pub struct Near {
    next: u32,
    shift: u32,
}

impl Near {
    /// Nothing was found yet.
    pub fn new() -> Near {
        Near { next: 0, shift: 0 }
    }

    /// Where a part that was found at this row last is looked for first.
    pub(crate) fn guess(&self, was: Option<u32>) -> u32 {
        match was {
            Some(row) => row.wrapping_add(self.shift),
            None => self.next,
        }
    }

    /// It was found at this row.
    pub(crate) fn note(&mut self, was: Option<u32>, row: u32) {
        self.next = row.wrapping_add(1);
        if let Some(old) = was {
            self.shift = row.wrapping_sub(old);
        }
    }
}
