//! The places of the rows, found by place and by row.
ghost use Rattle.std.specs.Prelude.{◌≡◌, ◌<◌, ◌∷◌, ◌++◌, [], length, slice_get, Some, None, IsTrue, IfOk, OnOk, OnErr};
ghost use Rattle.values.specs.declared.limits.TheConstants.{MOST_NODES};
ghost use Rattle.plain_evaluation.specs.Place.{outside, of_row, position_of};

use crate::place::NodePlace;
use indexmap::IndexSet;
use std::alloc::Global;
use std::marker::Model;
use values::limits::MOST_NODES;
use values::{Code, NoMemory};

/// The place of each row of a plan. Contracts see the list of the places, in order of row. A look-up takes the
/// same time however many rows there are.
#[derive(Drop)]
pub struct Names {
    places: IndexSet<NodePlace>,
}

impl Model for Names {
    ghost use Rattle.std.specs.Prelude.{List, ◌≤◌, length};
    ghost use Rattle.values.specs.declared.limits.TheConstants.{MOST_NODES};
    ghost use Rattle.plain_evaluation.specs.Place.{Place};

    ghost Value = { List Place };

    ghost view = { λ n. n.places.keys };

    ghost invariant = { λ n. length n.places.keys ≤ MOST_NODES };
}

impl Names {
    /// No places yet, with room for so many.
    pub fn with_room(alloc: Global, room: usize) -> Result<Names, NoMemory>
        ensures { IfOk result (λ names. names ≡ []) }
    {
        let places = IndexSet::with_capacity(alloc, room)?;
        Ok(Names { places })
    }

    /// Adds the place of the next row.
    pub fn push(&mut self, place: NodePlace) -> Result<(), NoMemory>
        requires room { length self.old < MOST_NODES }
        requires absent { position_of self.old place ≡ None }
        ensures added { OnOk result (self.new ≡ self.old ++ place ∷ []) }
        ensures unchanged { OnErr result (self.new ≡ self.old) }
    {
        self.places.insert(place)?;
        Ok(())
    }

    /// The row of a place. `None` exactly where no row has it.
    pub fn row(&self, place: NodePlace) -> Option<u32>
        ensures { result ≡ position_of self.now place }
    {
        let row = self.places.get_index_of(&place)?;
        Some(row as u32)
    }

    /// The same, where the place may well be that of the row `near`, which is looked at first.
    pub fn row_near(&self, place: NodePlace, near: u32) -> Option<u32>
        ensures { result ≡ position_of self.now place }
    {
        if self.has_at(near, place) {
            Some(near)
        } else {
            self.row(place)
        }
    }

    /// Whether the place is that of this row.
    fn has_at(&self, row: u32, place: NodePlace) -> bool
        ensures { IsTrue result → position_of self.now place ≡ Some row }
    {
        let _count = self.places.len();
        match self.places.get_index(row as usize) {
            Some(there) => place == *there,
            None => false,
        }
    }

    /// The row of an id outside every `each`. `None` exactly where the id has no such row.
    pub fn find(&self, id: u32) -> Option<u32>
        ensures { result ≡ position_of self.now (outside id) }
    {
        self.row(NodePlace::outside(id))
    }

    /// The row of a store's field, or of a node inside an `each`, for the store's row with the key. `None`
    /// exactly where there is none.
    pub fn find_field(&self, id: u32, key: Code) -> Option<u32>
        ensures { result ≡ position_of self.now (of_row id key) }
    {
        self.row(NodePlace::of_row(id, key))
    }

    /// The place of a row. `None` at or past the end.
    pub fn place(&self, row: u32) -> Option<NodePlace>
        ensures { result ≡ slice_get self.now row }
    {
        self.places.get_index(row as usize).copied()
    }

    /// How many rows there are.
    pub fn len(&self) -> u32
        ensures { result ≡ length self.now }
    {
        self.places.len() as u32
    }
}
