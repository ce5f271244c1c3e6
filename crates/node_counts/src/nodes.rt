//! How many nodes items lay out.

ghost use Rattle.std.specs.Prelude.{◌≡◌, ℕ, ◌+◌, ◌*◌, ◌≤◌, nat_lt, IfOk};
ghost use Rattle.std.specs.List.{sum_by};
ghost use Rattle.component_items.specs.Counts.{item_nodes, attr_nodes, nodes_of};
ghost use Rattle.node_counts.specs.Nodes.{most_in, capped, Agrees};
ghost use Rattle.node_counts.specs.Own.{own_nodes};

use crate::most::{most_of, note_all};
use crate::numbers::{TOO_MANY, add, cap, multiply};
use component_items::{Attr, Item};
use std::alloc::{AllocError, Global};
use std::collections::HashMap;
use values::limits::MOST_NODES;

/// Whether the items lay out more nodes than a component may.
pub fn has_too_many_nodes(alloc: Global, items: &[Item]) -> Result<bool, AllocError>
    ensures { IfOk result (λ too_many. too_many ≡ nat_lt MOST_NODES (nodes_of items.now)) }
{
    let mut most = HashMap::new(alloc);
    note_all(items, &mut most)?;
    Ok(count_all(items, &most) > MOST_NODES)
}

/// The nodes of the values that attributes show.
fn count_attrs(attrs: &[Attr]) -> usize
    ensures { result ≡ capped (sum_by attr_nodes attrs.now) }
{
    let mut count = 0;
    for attr in attrs {
        count = add(count, count_attr(attr));
    }
    count
}

fn count_attr(attr: &Attr) -> usize
    ensures { result ≡ attr_nodes attr.now }
{
    match attr {
        Attr::Bare { .. } | Attr::Fixed { .. } => 0,
        Attr::Shown { .. } => 1,
    }
}

/// The nodes of the item itself: not those of the items that it holds.
fn count_own(item: &Item) -> usize
    ensures { result ≡ capped (own_nodes item.now) }
{
    match item {
        Item::Signal { .. }
        | Item::Memo { .. }
        | Item::Effect { .. }
        | Item::If { .. }
        | Item::Shown { .. } => 1,
        Item::Load { .. } => 2,
        Item::Store { max, fields, .. } => multiply(cap(*max as usize), cap(fields.len())),
        Item::Element { attrs, .. } => count_attrs(attrs.as_slice()),
        Item::Resource { .. }
        | Item::Cleanup { .. }
        | Item::Area { .. }
        | Item::Each { .. }
        | Item::Text { .. } => 0,
    }
}

/// The nodes of the items, where each store has so many rows at the most.
#[cycle(count)]
fn count_all(items: &[Item], most: &HashMap<u32, usize>) -> usize
    ensures { (rows : ℕ → ℕ) → Agrees (most_in most.now) rows → result ≡ capped (sum_by (item_nodes rows) items.now) }
{
    let mut count = 0;
    for item in items {
        count = add(count, count_item(item, most));
    }
    count
}

#[cycle(count)]
fn count_item(item: &Item, most: &HashMap<u32, usize>) -> usize
    ensures nodes { (rows : ℕ → ℕ) → Agrees (most_in most.now) rows → result ≡ capped (item_nodes rows item.now) }
    ensures within { result ≤ TOO_MANY }
{
    let own = count_own(item);
    match item {
        Item::Each { store, items, .. } => {
            let inner = cap(count_all(items.as_slice(), most));
            add(own, multiply(most_of(most, *store), inner))
        }
        Item::Area { items, .. } | Item::If { items, .. } | Item::Element { items, .. } => {
            add(own, cap(count_all(items.as_slice(), most)))
        }
        _ => own,
    }
}
