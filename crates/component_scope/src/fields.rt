//! The names of a store's fields.

ghost use Rattle.std.specs.Prelude.{◌≡◌, ◌==◌, [], ◌∷◌, ◌++◌, ◌<◌, IfOk, OnOk, OnErr, IfSome, length, position};

use std::alloc::{AllocError, Global};
use std::collections::HashMap;
use std::marker::Model;
use std::rc::Rc;
use values::Numbers;

/// The names of a store's fields, by their numbers in the table of texts, in text order. The place of a name among them
/// is found at once, however many there are.
#[derive(Drop)]
pub struct Fields {
    names: Vec<u32>,
    places: HashMap<u32, usize>,
}

impl Model for Fields {
    ghost use Rattle.std.specs.Prelude.{◌≡◌, ◌==◌, ℕ, List, nat_eq, position};
    ghost use Rattle.std.specs.HashMap.{get};

    ghost Value = { List ℕ };

    ghost view = { λ f. f.names.items };

    ghost invariant = { λ f. (name : ℕ) → get nat_eq f.places name ≡ position (λ field. field == name) f.names.items };
}

impl Fields {
    /// No fields.
    pub fn new(alloc: Global) -> Fields
        ensures { result ≡ [] }
    {
        Fields {
            names: Vec::new(alloc),
            places: HashMap::new(alloc),
        }
    }

    /// The names, in text order.
    pub fn as_slice(&self) -> &[u32]
        ensures { result.now ≡ self.now }
    {
        self.names.as_slice()
    }

    /// A list of the names, in text order.
    pub fn listed(&self, alloc: Global) -> Result<Numbers, AllocError>
        ensures { IfOk result (λ names. names ≡ self.now) }
    {
        let names = Vec::from_slice(alloc, self.names.as_slice())?;
        Ok(Numbers::from_vec(names))
    }

    /// The place of the first field of this name, counted from 0.
    pub fn place(&self, name: u32) -> Option<usize>
        ensures place { result ≡ position (λ field. field == name) self.now }
        ensures within { IfSome result (λ place. place < length self.now) }
    {
        self.places.get(&name).copied()
    }

    /// Adds a field at the end.
    pub fn push(&mut self, name: u32) -> Result<(), AllocError>
        ensures added { OnOk result (self.new ≡ self.old ++ name ∷ []) }
        ensures unchanged { OnErr result (self.new ≡ self.old) }
    {
        let place = self.names.len();
        let known = self.places.contains_key(&name);
        self.names.push(name)?;
        if !known {
            if let Err(_) = self.places.insert(name, place) {
                self.names.pop();
                return Err(AllocError);
            }
        }
        Ok(())
    }
}

/// The names of a store's fields, shared by its declaration and each `each` over it. Contracts see the names alone.
#[derive(Drop)]
pub struct SharedFields {
    fields: Rc<Fields>,
}

impl Model for SharedFields {
    ghost use Rattle.std.specs.Prelude.{ℕ, List};

    ghost Value = { List ℕ };

    ghost view = { λ f. f.fields.value };
}

impl SharedFields {
    /// The same names, to be shared.
    pub fn new(alloc: Global, fields: Fields) -> Result<SharedFields, AllocError>
        ensures { IfOk result (λ shared. shared ≡ fields) }
    {
        let fields = Rc::new(alloc, fields)?;
        Ok(SharedFields { fields })
    }

    /// A further owner of the same names.
    pub fn share(&self) -> Result<SharedFields, AllocError>
        ensures { IfOk result (λ shared. shared ≡ self.now) }
    {
        let fields = self.fields.clone()?;
        Ok(SharedFields { fields })
    }

    /// The place of the first field of this name, counted from 0.
    pub fn place(&self, name: u32) -> Option<usize>
        ensures place { result ≡ position (λ field. field == name) self.now }
        ensures within { IfSome result (λ place. place < length self.now) }
    {
        self.fields.as_ref().place(name)
    }
}
