//! The keys of a resource.

ghost use Rattle.std.specs.Prelude.{◌≡◌, [], ◌∷◌, ◌++◌, OnOk};
ghost use Rattle.std.specs.List.{list_any};
ghost use Rattle.values.specs.Evaluation.{is_same};

use std::alloc::{AllocError, Global};
use std::collections::HashSet;
use std::marker::Model;
use values::{Code, Codes};

/// Keys, in text order. Whether one is among them is found at once, however many there are. Contracts see the list
/// of the keys.
#[derive(Drop)]
pub struct Keys {
    keys: Vec<Code>,
    found: HashSet<Code>,
}

impl Model for Keys {
    ghost use Rattle.std.specs.Prelude.{◌≡◌, List};
    ghost use Rattle.std.specs.List.{list_any};
    ghost use Rattle.std.specs.HashSet.{contains};
    ghost use Rattle.values.specs.declared.code.Code.{Code};
    ghost use Rattle.values.specs.contracts.code.CodePartialEq.TheImpl as code;
    ghost use Rattle.values.specs.Evaluation.{is_same};

    ghost Value = { List Code };

    ghost view = { λ k. k.keys.items };

    ghost invariant = { λ k. (key : Code) → contains (code.ghosts).eq k.found key ≡ list_any (is_same key) k.keys.items };
}

impl Keys {
    /// No keys.
    pub fn new(alloc: Global) -> Keys
        ensures { result ≡ [] }
    {
        Keys {
            keys: Vec::new(alloc),
            found: HashSet::new(alloc),
        }
    }

    /// Whether the key is among them.
    pub fn contains(&self, key: Code) -> bool
        ensures { result ≡ list_any (is_same key) self.now }
    {
        self.found.contains(&key)
    }

    /// Adds the key at the end.
    pub fn push(&mut self, key: Code) -> Result<(), AllocError>
        ensures { OnOk result (self.new ≡ self.old ++ key ∷ []) }
    {
        self.keys.push(key)?;
        if let Err(_) = self.found.insert(key) {
            self.keys.pop();
            return Err(AllocError);
        }
        Ok(())
    }

    /// The keys alone, in the memory that they have.
    pub fn into_codes(self) -> Codes
        ensures { result ≡ self }
    {
        let Keys { keys, .. } = self;
        Codes::from_vec(keys)
    }
}
