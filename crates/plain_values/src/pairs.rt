//! The pairs of resources, by resource and key.
ghost use Rattle.std.specs.Prelude.{◌≡◌, IfOk, OnOk};
ghost use Rattle.std.specs.List.{zip};
ghost use Rattle.component_items.specs.declared.component.Item.TheViews.{out-Item};
ghost use Rattle.plain_values.specs.Pairs.{with_pairs, with_resource, pairs_of};
ghost use Rattle.plain_values.specs.Seen.{values_seen};

use crate::place_values::{PlaceValues, ValuePlace};
use component_items::Item;
use std::alloc::Global;
use values::{Code, NoMemory};

/// The value of each resource for each of its keys. Where a key stands twice, the first value counts.
pub(crate) fn resource_pairs(alloc: Global, items: &[Item]) -> Result<PlaceValues, NoMemory>
    ensures { IfOk result (λ pairs. values_seen pairs ≡ pairs_of items.now) }
{
    let mut pairs = PlaceValues::new(alloc);
    let mut left = items.len();
    while left > 0 {
        left -= 1;
        put_resource(&items[left], &mut pairs)?;
    }
    Ok(pairs)
}

fn put_resource(item: &Item, pairs: &mut PlaceValues) -> Result<(), NoMemory>
    ensures { OnOk result (values_seen pairs.new ≡ with_resource (out-Item item.now) (values_seen pairs.old)) }
{
    match item {
        Item::Resource {
            id,
            keys,
            values,
            ..
        } => put_pairs(*id as usize, keys.as_slice(), values.as_slice(), pairs),
        Item::Signal { .. }
        | Item::Memo { .. }
        | Item::Effect { .. }
        | Item::Load { .. }
        | Item::Store { .. }
        | Item::Cleanup { .. }
        | Item::Area { .. }
        | Item::If { .. }
        | Item::Each { .. }
        | Item::Element { .. }
        | Item::Text { .. }
        | Item::Shown { .. } => Ok(()),
    }
}

fn put_pairs(
    id: usize,
    keys: &[Code],
    codes: &[Code],
    pairs: &mut PlaceValues,
) -> Result<(), NoMemory>
    ensures { OnOk result (values_seen pairs.new ≡ with_pairs id (zip keys.now codes.now) (values_seen pairs.old)) }
{
    let mut left = keys.len().min(codes.len());
    while left > 0 {
        left -= 1;
        pairs.set(ValuePlace::new(id, Some(keys[left])), codes[left])?;
    }
    Ok(())
}
