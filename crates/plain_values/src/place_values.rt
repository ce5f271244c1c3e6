//! Values by place.
ghost use Rattle.std.specs.Prelude.{◌≡◌, Some, IfOk, OnOk};
ghost use Rattle.plain_evaluation.specs.Place.{place_at};
ghost use Rattle.plain_evaluation.specs.Scratch.{no_values, with_value};
ghost use Rattle.plain_values.specs.Seen.{values_seen};

use std::alloc::Global;
use std::collections::HashMap;
use std::marker::Model;
use values::{Code, NoMemory};

/// Where a value belongs: an id, with the key of the store's row where it is a field or stands inside an `each`.
#[derive(Clone, Copy, PartialEq, Eq, Hash)]
pub struct ValuePlace {
    id: usize,
    key: Option<Code>,
}

impl Model for ValuePlace {
    ghost use Rattle.plain_evaluation.specs.Place.{Place};

    ghost Value = { Place };

    ghost view = { λ p. record { id = p.id; key = p.key } };

    ghost inverse = { λ p. record { id = p.id; key = p.key } };
}

impl ValuePlace {
    /// The place of an id, in the row with the key or in none.
    pub fn new(id: usize, key: Option<Code>) -> ValuePlace
        ensures { result ≡ place_at id key }
    {
        ValuePlace { id, key }
    }
}

/// The value of each place; one that has none is empty.
#[derive(Drop)]
pub struct PlaceValues {
    codes: HashMap<ValuePlace, Code>,
}

impl PlaceValues {
    /// No values.
    pub fn new(alloc: Global) -> PlaceValues
        ensures { values_seen result ≡ no_values }
    {
        PlaceValues {
            codes: HashMap::new(alloc),
        }
    }

    /// No values, with room for so many.
    pub fn with_room(alloc: Global, room: usize) -> Result<PlaceValues, NoMemory>
        ensures { IfOk result (λ values. values_seen values ≡ no_values) }
    {
        let codes = HashMap::with_capacity(alloc, room)?;
        Ok(PlaceValues { codes })
    }

    /// The value of the place.
    pub fn get(&self, place: ValuePlace) -> Code
        ensures { result ≡ values_seen self.now place }
    {
        self.codes.get(&place).copied().unwrap_or(Code::Empty)
    }

    /// Gives the place this value.
    pub fn set(&mut self, place: ValuePlace, code: Code) -> Result<(), NoMemory>
        ensures { OnOk result (values_seen self.new ≡ with_value place code (values_seen self.old)) }
    {
        self.codes.insert(place, code)?;
        Ok(())
    }
}
