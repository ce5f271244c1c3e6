//! The state at the start, put together item by item, in text order.
ghost use Rattle.std.specs.Prelude.{◌≡◌, ◌∷◌, [], ◌<◌, ◌^◌, length, map, OnOk};
ghost use Rattle.std.specs.List.{flat_map};
ghost use Rattle.component_items.specs.Ids.{item_ids, ids_in, item_owners, owners_in};
ghost use Rattle.plain_evaluation.specs.Held.{nothing, stored, no_rows, first_attr};
ghost use Rattle.held_state.specs.Built.{with_more, with_item, with_items, with_area, AreNext};
ghost use Rattle.held_state.specs.Seen.{holding_seen};
ghost use Rattle.held_state.specs.Start.{built};

use crate::holding::{Going, Holding};
use component_items::{Attr, Item};
use std::alloc::Global;
use store_fields::Rows;
use values::NoMemory;

/// What each id so far holds, and what goes with each owner so far.
#[derive(Drop)]
pub(crate) struct Start {
    pub alloc: Global,
    pub holdings: Vec<Holding>,
    pub goings: Vec<Going>,
}

impl Start {
    /// An owner, and what it has around it.
    #[cycle(start)]
    pub(crate) fn area(&mut self, items: &[Item]) -> Result<(), NoMemory>
        requires { AreNext (built self.old) (ids_in items.now) (length (built self.old).goings ∷ owners_in items.now) }
        ensures { OnOk result (built self.new ≡ with_area items.now (built self.old)) }
    {
        let first_id = self.holdings.len();
        let first_owner = self.goings.len();
        self.goings.push(Going {
            first_id,
            past_id: first_id,
            first_owner,
            past_owner: first_owner,
        })?;
        self.items(items)?;
        self.goings[first_owner] = Going {
            first_id,
            past_id: self.holdings.len(),
            first_owner,
            past_owner: self.goings.len(),
        };
        Ok(())
    }

    #[cycle(start)]
    fn items(&mut self, items: &[Item]) -> Result<(), NoMemory>
        requires { AreNext (built self.old) (ids_in items.now) (owners_in items.now) }
        ensures { OnOk result (built self.new ≡ with_items items.now (built self.old)) }
    {
        for item in items {
            self.item(item)?;
        }
        Ok(())
    }

    #[cycle(start)]
    fn item(&mut self, item: &Item) -> Result<(), NoMemory>
        requires { AreNext (built self.old) (item_ids item.now) (item_owners item.now) }
        ensures { OnOk result (built self.new ≡ with_item item.now (built self.old)) }
    {
        match item {
            Item::Signal { start, .. } => self.put(Holding::Value(*start)),
            Item::Memo { .. } => self.put(Holding::Nothing),
            Item::Effect { .. } => self.put(Holding::Nothing),
            Item::Resource { .. } => self.put(Holding::Nothing),
            Item::Load { .. } => {
                self.put(Holding::Arrived(None))?;
                self.put(Holding::Nothing)
            }
            Item::Store { max, fields, .. } => self.put_store(*max, fields.as_slice()),
            Item::Cleanup { .. } => Ok(()),
            Item::Area { items, .. } => {
                self.put(Holding::Nothing)?;
                self.area(items.as_slice())
            }
            Item::If { items, .. } => {
                self.put(Holding::Nothing)?;
                self.items(items.as_slice())
            }
            Item::Each { items, .. } => {
                self.put(Holding::Nothing)?;
                self.items(items.as_slice())
            }
            Item::Element { attrs, items, .. } => {
                self.put_attrs(attrs.as_slice())?;
                self.items(items.as_slice())
            }
            Item::Text { .. } => Ok(()),
            Item::Shown { .. } => self.put(Holding::Nothing),
        }
    }

    /// A store with no rows, its key and its fields.
    fn put_store(&mut self, max: u32, fields: &[u32]) -> Result<(), NoMemory>
        requires { length fields.now < 2 ^ 32 }
        ensures { OnOk result (built self.new ≡ with_more (stored (no_rows max (length fields.now)) ∷ nothing ∷ map (λ field. nothing) fields.now) (built self.old)) }
    {
        let rows = Rows::new(self.alloc, max, fields.len() as u32)?;
        self.put(Holding::Stored(rows))?;
        self.put(Holding::Nothing)?;
        for _ in fields {
            self.put(Holding::Nothing)?;
        }
        Ok(())
    }

    fn put_attrs(&mut self, attrs: &[Attr]) -> Result<(), NoMemory>
        ensures { OnOk result (built self.new ≡ with_more (flat_map first_attr attrs.now) (built self.old)) }
    {
        for attr in attrs {
            self.put_attr(attr)?;
        }
        Ok(())
    }

    fn put_attr(&mut self, attr: &Attr) -> Result<(), NoMemory>
        ensures { OnOk result (built self.new ≡ with_more (first_attr attr.now) (built self.old)) }
    {
        match attr {
            Attr::Bare { .. } | Attr::Fixed { .. } => Ok(()),
            Attr::Shown { .. } => self.put(Holding::Nothing),
        }
    }

    /// What the next id holds.
    fn put(&mut self, holding: Holding) -> Result<(), NoMemory>
        ensures { OnOk result (built self.new ≡ with_more (holding_seen holding ∷ []) (built self.old)) }
    {
        self.holdings.push(holding)?;
        Ok(())
    }
}
