//! The loads, item by item, in text order.
ghost use Rattle.std.specs.Prelude.{◌≡◌, ◌++◌, ◌∷◌, [], OnOk};
ghost use Rattle.load_table.specs.Loads.{item_loads, loads_among};
ghost use Rattle.load_table.specs.Table.{after_by, pairs_by, loads_with};

use crate::load::Load;
use crate::resources::{self, Resources};
use component_items::Item;
use values::{NoMemory, Sequence};

/// Loads, in order of declaration.
pub(crate) type Loads = Sequence<Load>;

/// Adds the loads that the items hold.
#[cycle(loads)]
pub(crate) fn put_loads(
    items: &[Item],
    resources: &Resources,
    loads: &mut Loads,
) -> Result<(), NoMemory>
    ensures { OnOk result (loads_with resources.now.entries loads.new ≡ loads_with resources.now.entries loads.old ++ loads_among (pairs_by resources.now.entries) (after_by resources.now.entries) items.now) }
{
    for item in items {
        put_item(item, resources, loads)?;
    }
    Ok(())
}

#[cycle(loads)]
fn put_item(item: &Item, resources: &Resources, loads: &mut Loads) -> Result<(), NoMemory>
    ensures { OnOk result (loads_with resources.now.entries loads.new ≡ loads_with resources.now.entries loads.old ++ item_loads (pairs_by resources.now.entries) (after_by resources.now.entries) item.now) }
{
    match item {
        Item::Load { id, resource, .. } => put_load(*id, *resource, resources, loads),
        Item::Area { items, .. } => put_loads(items.as_slice(), resources, loads),
        Item::If { items, .. } => put_loads(items.as_slice(), resources, loads),
        Item::Each { items, .. } => put_loads(items.as_slice(), resources, loads),
        Item::Element { items, .. } => put_loads(items.as_slice(), resources, loads),
        Item::Signal { .. } => Ok(()),
        Item::Memo { .. } => Ok(()),
        Item::Effect { .. } => Ok(()),
        Item::Resource { .. } => Ok(()),
        Item::Store { .. } => Ok(()),
        Item::Cleanup { .. } => Ok(()),
        Item::Text { .. } => Ok(()),
        Item::Shown { .. } => Ok(()),
    }
}

fn put_load(
    id: u32,
    resource: u32,
    resources: &Resources,
    loads: &mut Loads,
) -> Result<(), NoMemory>
    ensures { OnOk result (loads_with resources.now.entries loads.new ≡ loads_with resources.now.entries loads.old ++ record { id = id; resource = resource; after = after_by resources.now.entries resource; pairs = pairs_by resources.now.entries resource } ∷ []) }
{
    let after = resources::after_of(resources, resource);
    loads.push(Load {
        id,
        resource,
        after,
    })
}
