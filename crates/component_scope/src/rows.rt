//! The store whose rows an `each` shows.

ghost use Rattle.std.specs.Prelude.{◌≡◌, ◌==◌, ◌+◌, ◌<◌, ◌^◌, None, IfOk, length, position};
ghost use Rattle.std.specs.Option.{option_map};
ghost use Rattle.component_meaning.specs.Names.{rows_from};

use crate::fields::{Fields, SharedFields};
use std::alloc::{AllocError, Global};
use std::marker::Model;

/// A store, by its id, with the names of its fields. The id behind its own is that of its rows' keys, and each field has
/// one behind that.
#[derive(Drop)]
pub struct Rows {
    store: u32,
    fields: SharedFields,
}

impl Model for Rows {
    ghost use Rattle.std.specs.Prelude.{◌+◌, ◌<◌, ◌^◌, length};
    ghost use Rattle.component_meaning.specs.State.{Rows as Fielded};

    ghost Value = { Fielded };

    ghost view = { λ r. record { store = r.store; fields = r.fields } };

    ghost invariant = { λ r. r.store + 2 + length r.fields < 2 ^ 32 };
}

impl Rows {
    /// The store with this id and these fields.
    pub fn new(store: u32, fields: SharedFields) -> Rows
        requires { store + 2 + length fields < 2 ^ 32 }
        ensures { result ≡ record { store = store; fields = fields } }
    {
        Rows { store, fields }
    }

    /// What stands for the store where none is named.
    pub fn none(alloc: Global) -> Result<Rows, AllocError>
        ensures { IfOk result (λ rows. rows ≡ rows_from None) }
    {
        let fields = SharedFields::new(alloc, Fields::new(alloc))?;
        Ok(Rows::new(0, fields))
    }

    /// The id of the store.
    pub fn store(&self) -> u32
        ensures { result ≡ self.now.store }
    {
        self.store
    }

    /// The id of a row's key.
    pub fn key(&self) -> u32
        ensures { result ≡ self.now.store + 1 }
    {
        self.store + 1
    }

    /// The id of a row's field of this name, by its number in the table of texts.
    pub fn field(&self, name: u32) -> Option<u32>
        ensures { result ≡ option_map (λ place. self.now.store + 2 + place) (position (λ field. field == name) self.now.fields) }
    {
        let place = self.fields.place(name)?;
        Some(self.store + 2 + place as u32)
    }

    /// A further owner of the same.
    pub fn share(&self) -> Result<Rows, AllocError>
        ensures { IfOk result (λ rows. rows ≡ self.now) }
    {
        let fields = self.fields.share()?;
        Ok(Rows {
            store: self.store,
            fields,
        })
    }
}
