//! The loads whose key has not arrived.
ghost use Rattle.std.specs.Prelude.{◌≡◌, ◌++◌, suc, IfOk, OnOk};
ghost use Rattle.std.specs.List.{flat_map};
ghost use Rattle.plain_evaluation.specs.Held.{arrived_held};
ghost use Rattle.plain_evaluation.specs.Place.{outside};
ghost use Rattle.plain_evaluation.specs.Scratch.{has_arrived, pending};
ghost use Rattle.plain_evaluation.specs.Written.{state_of};
ghost use Rattle.plain_values.specs.Seen.{values_seen};
ghost use Rattle.plain_page.specs.Waiting.{load_waiting, item_waiting, items_waiting};

use component_items::{Component, Item};
use held_state::Held;
use plain_values::{PlaceValues, ValuePlace, values_of};
use std::alloc::Global;
use store_fields::Rows;
use values::NoMemory;

/// The ids of the live loads whose key has not arrived, in order of declaration: those whose key has another
/// value than the one that arrived, or for which none did (`docs/SEMANTICS.md`, "Loads").
pub fn pending_loads(
    alloc: Global,
    component: &Component,
    held: &Held,
) -> Result<Vec<u32>, NoMemory>
    ensures { IfOk result (λ loads. loads.items ≡ pending component.now held.now.held) }
{
    let values = values_of(alloc, component, held)?;
    let waiting = Waiting {
        values: &values,
        held,
    };
    let mut loads = Vec::new(alloc);
    if held.is_live(0) {
        waiting.items(component.items(), &mut loads)?;
    }
    Ok(loads)
}

/// What tells whether a load waits: the value of each place, and the state.
#[derive(Drop)]
struct Waiting<'a> {
    values: &'a PlaceValues,
    held: &'a Held,
}

impl Waiting<'_> {
    #[cycle(waiting)]
    fn items(&self, items: &[Item], loads: &mut Vec<u32>) -> Result<(), NoMemory>
        ensures { OnOk result (loads.new.items ≡ loads.old.items ++ items_waiting (state_of self.now.held.now.held) (values_seen self.now.values.now) items.now) }
    {
        for item in items {
            self.item(item, loads)?;
        }
        Ok(())
    }

    #[cycle(waiting)]
    fn item(&self, item: &Item, loads: &mut Vec<u32>) -> Result<(), NoMemory>
        ensures { OnOk result (loads.new.items ≡ loads.old.items ++ item_waiting (state_of self.now.held.now.held) (values_seen self.now.values.now) item.now) }
    {
        match item {
            Item::Signal { .. } => Ok(()),
            Item::Memo { .. } => Ok(()),
            Item::Effect { .. } => Ok(()),
            Item::Resource { .. } => Ok(()),
            Item::Load { id, .. } => self.load(*id, loads),
            Item::Store { .. } => Ok(()),
            Item::Cleanup { .. } => Ok(()),
            Item::Area { owner, items, .. } => {
                if !self.held.is_live(*owner) {
                    return Ok(());
                }
                self.items(items.as_slice(), loads)
            }
            Item::If { items, .. } => self.items(items.as_slice(), loads),
            Item::Each { store, items, .. } => match self.held.rows(*store) {
                None => Ok(()),
                Some(rows) => self.each(rows, items.as_slice(), loads),
            },
            Item::Element { items, .. } => self.items(items.as_slice(), loads),
            Item::Text { .. } => Ok(()),
            Item::Shown { .. } => Ok(()),
        }
    }

    /// The items once for each row of the store.
    #[cycle(waiting)]
    fn each(&self, rows: &Rows, items: &[Item], loads: &mut Vec<u32>) -> Result<(), NoMemory>
        ensures { OnOk result (loads.new.items ≡ loads.old.items ++ flat_map (λ row. items_waiting (state_of self.now.held.now.held) (values_seen self.now.values.now) items.now) rows.now.rows) }
    {
        for _ in 0..rows.count() {
            self.items(items, loads)?;
        }
        Ok(())
    }

    fn load(&self, id: u32, loads: &mut Vec<u32>) -> Result<(), NoMemory>
        ensures { OnOk result (loads.new.items ≡ loads.old.items ++ load_waiting (state_of self.now.held.now.held) (values_seen self.now.values.now) id) }
    {
        if !self.has_arrived(id) {
            loads.push(id)?;
        }
        Ok(())
    }

    /// Whether the key that arrived for the load is the value of its key.
    fn has_arrived(&self, id: u32) -> bool
        ensures { result ≡ has_arrived (arrived_held self.now.held.now.held id) (values_seen self.now.values.now (outside (suc id))) }
    {
        let key = self.values.get(ValuePlace::new(id as usize + 1, None));
        match self.held.arrived(id).unwrap_or(None) {
            None => false,
            Some(code) => code == key,
        }
    }
}
