//! The table.
ghost use Rattle.std.specs.Prelude.{◌≡◌, IfOk, length};
ghost use Rattle.plain_evaluation.specs.Scratch.{value_by};
ghost use Rattle.load_table.specs.Loads.{loads_in};
ghost use Rattle.load_table.specs.Table.{load_at, pairs_at};

use crate::load::Load;
use crate::resources::{Resources, put_resources, value_of};
use crate::walk::{Loads, put_loads};
use component_items::Component;
use indexmap::IndexMap;
use std::alloc::Global;
use std::marker::Model;
use values::{Code, NoMemory, Sequence};

/// The loads of a component, in order of declaration, whether live or not. Contracts see the list of them, each with
/// the pairs of its resource. A look-up of a value takes the same time however many keys a resource has.
#[derive(Drop)]
pub struct LoadTable {
    resources: Resources,
    loads: Loads,
}

impl Model for LoadTable {
    ghost use Rattle.std.specs.Prelude.{List};
    ghost use Rattle.load_table.specs.Loads.{LoadOf};
    ghost use Rattle.load_table.specs.Table.{loads_with};

    ghost Value = { List LoadOf };

    ghost view = { λ t. loads_with t.resources.entries t.loads };
}

impl LoadTable {
    /// The table of a component. It takes the time of its items and of the keys of its resources.
    pub fn new(alloc: Global, component: &Component) -> Result<LoadTable, NoMemory>
        ensures { IfOk result (λ table. table ≡ loads_in component.now) }
    {
        let items = component.items();
        let mut resources = IndexMap::new(alloc);
        put_resources(alloc, items, &mut resources)?;
        let mut loads = Sequence::new(alloc);
        put_loads(items, &resources, &mut loads)?;
        Ok(LoadTable { resources, loads })
    }

    /// How many loads there are.
    pub fn len(&self) -> usize
        ensures { result ≡ length self.now }
    {
        self.loads.len()
    }

    /// The load at the place, counted from 0 in order of declaration. `None` at or past the end.
    pub fn load(&self, place: usize) -> Option<Load>
        ensures { result ≡ load_at self.now place }
    {
        self.loads.at(place).copied()
    }

    /// The value of the resource of the load at the place for the key. It is empty where the resource has no such
    /// key, and past the end.
    pub fn value(&self, place: usize, key: Code) -> Code
        ensures { result ≡ value_by (pairs_at self.now place) key }
    {
        match self.loads.at(place) {
            Some(load) => value_of(&self.resources, load.resource, key),
            None => Code::Empty,
        }
    }
}
