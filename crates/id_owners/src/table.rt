//! The table.
ghost use Rattle.std.specs.Prelude.{◌≡◌, IfOk};
ghost use Rattle.component_items.specs.declared.component.Component.{Component as ComponentValue};
ghost use Rattle.component_items.specs.Kept.{IsKept};
ghost use Rattle.plan_meaning.specs.Told.{owner_of_id};
ghost use Rattle.id_owners.specs.Table.{owners_by_id};

use crate::walk::put_owners;
use component_items::Component;
use std::alloc::Global;
use std::marker::Model;
use values::{NoMemory, Numbers};

/// The owner of each id of a component: that of the innermost area around its item, or the top, 0. Contracts see the
/// list of the owners, by id.
#[derive(Drop)]
pub struct IdOwners {
    owners: Numbers,
}

impl Model for IdOwners {
    ghost use Rattle.std.specs.Prelude.{List, ℕ};

    ghost Value = { List ℕ };

    ghost view = { λ o. o.owners };
}

impl IdOwners {
    /// The table of a component. It takes the time of its items.
    pub fn new(alloc: Global, component: &Component) -> Result<IdOwners, NoMemory>
        ensures { IfOk result (λ owners. owners ≡ owners_by_id component.now) }
    {
        let mut owners = Numbers::new(alloc);
        put_owners(component.items(), 0, &mut owners)?;
        Ok(IdOwners { owners })
    }

    /// The owner of the id. An id that the component has not is answered as one of the top.
    pub fn owner(&self, id: u32) -> u32
        ensures { (component : ComponentValue) → IsKept component → self.now ≡ owners_by_id component → result ≡ owner_of_id component id }
    {
        self.owners.at(id as usize).copied().unwrap_or(0)
    }
}
