//! What is kept of the rows between two phases.
ghost use Rattle.std.specs.Prelude.{◌≡◌, ◌∷◌, ◌++◌, [], OnOk, OnErr};

use crate::body::Body;
use crate::colour::Colour;
use std::alloc::Global;
use values::{NoMemory, Numbers, Sequence};

/// What is kept of a row.
#[derive(Debug, Drop)]
pub struct Opened {
    /// The row's value, packed (`Code::pack`).
    pub code: u64,
    /// The version of that value: a count of ticks.
    pub version: u64,
    /// What is known of the row's value.
    pub colour: Colour,
    /// What its last run read. Of a row that is not derived it has no meaning.
    pub body: Body,
}

/// The rows of a plan between two phases, which a phase opens with and ends with.
#[derive(Debug, Drop)]
pub struct Opening {
    /// One for each row, in order.
    pub rows: Sequence<Opened>,
    /// The numbers of the owners that are disposed.
    pub dead: Numbers,
    /// The count of ticks when the phase opens. A version of a phase is its base plus the number in
    /// that phase.
    pub base: u64,
}

impl Opening {
    /// No row, no disposed owner, and base 0.
    pub fn new(alloc: Global) -> Opening
        ensures rows { result.rows ≡ [] }
        ensures dead { result.dead ≡ [] }
        ensures base { result.base ≡ 0 }
    {
        Opening {
            rows: Sequence::new(alloc),
            dead: Sequence::new(alloc),
            base: 0,
        }
    }

    /// The count of ticks when the phase opens.
    pub fn base(&self) -> u64
        ensures { result ≡ self.now.base }
    {
        self.base
    }

    /// Changes the base alone.
    pub fn set_base(&mut self, base: u64)
        ensures { self.new ≡ record self.old { base = base } }
    {
        self.base = base;
    }

    /// Adds the next row. After an error the opening is as it was.
    pub fn push(&mut self, row: Opened) -> Result<(), NoMemory>
        ensures added { OnOk result (self.new ≡ record self.old { rows = self.old.rows ++ row ∷ [] }) }
        ensures unchanged { OnErr result (self.new ≡ self.old) }
    {
        self.rows.push(row)
    }

    /// Adds a disposed owner. After an error the opening is as it was.
    pub fn push_dead(&mut self, owner: u32) -> Result<(), NoMemory>
        ensures added { OnOk result (self.new ≡ record self.old { dead = self.old.dead ++ owner ∷ [] }) }
        ensures unchanged { OnErr result (self.new ≡ self.old) }
    {
        self.dead.push(owner)
    }
}
