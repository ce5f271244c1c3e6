//! The most rows of each store.

ghost use Rattle.std.specs.Prelude.{◌≡◌, ℕ, ◌+◌, ◌==◌, ◌≤◌, if◌then◌else◌, OnOk};
ghost use Rattle.component_items.specs.Counts.{maximum_in, item_maximum};
ghost use Rattle.node_counts.specs.Nodes.{most_in, capped};

use crate::numbers::{add, cap};
use component_items::Item;
use std::alloc::AllocError;
use std::collections::HashMap;

/// The most rows of the store with the id, as far as they were noted.
pub fn most_of(most: &HashMap<u32, usize>, store: u32) -> usize
    ensures { result ≡ capped (most_in most.now store) }
{
    match most.get(&store) {
        Some(rows) => cap(*rows),
        None => 0,
    }
}

/// A store with this id has so many rows at the most.
fn note_store(most: &mut HashMap<u32, usize>, id: u32, max: u32) -> Result<(), AllocError>
    ensures { OnOk result ((store : ℕ) → capped (most_in most.new store) ≡ capped (most_in most.old store + (if id == store then max else 0))) }
{
    let rows = add(most_of(most, id), cap(max as usize));
    most.insert(id, rows)?;
    Ok(())
}

/// Notes the most rows of each store that is declared in these items.
#[cycle(note)]
pub fn note_all(items: &[Item], most: &mut HashMap<u32, usize>) -> Result<(), AllocError>
    ensures { OnOk result ((store : ℕ) → capped (most_in most.new store) ≡ capped (most_in most.old store + maximum_in items.now store)) }
{
    for item in items {
        note(item, most)?;
    }
    Ok(())
}

#[cycle(note)]
fn note(item: &Item, most: &mut HashMap<u32, usize>) -> Result<(), AllocError>
    ensures { OnOk result ((store : ℕ) → capped (most_in most.new store) ≡ capped (most_in most.old store + item_maximum item.now store)) }
{
    match item {
        Item::Store { id, max, .. } => note_store(most, *id, *max),
        Item::Area { items, .. }
        | Item::If { items, .. }
        | Item::Each { items, .. }
        | Item::Element { items, .. } => note_all(items.as_slice(), most),
        _ => Ok(()),
    }
}
