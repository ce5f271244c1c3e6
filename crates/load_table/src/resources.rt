//! The resources of a component by id.
ghost use Rattle.std.specs.Prelude.{◌≡◌, OnOk};
ghost use Rattle.component_items.specs.declared.component.Item.TheViews.{out-Item};
ghost use Rattle.plain_evaluation.specs.Scratch.{value_by};
ghost use Rattle.load_table.specs.Table.{after_by, pairs_by, resource_told, resources_told, resources_put};

use crate::resource::Resource;
use component_items::Item;
use indexmap::IndexMap;
use std::alloc::Global;
use values::{Code, NoMemory};

/// Each resource at its id.
pub(crate) type Resources = IndexMap<u32, Resource>;

/// Puts the resources among the items in. They stand at the top alone.
pub(crate) fn put_resources(
    alloc: Global,
    items: &[Item],
    resources: &mut Resources,
) -> Result<(), NoMemory>
    ensures { OnOk result (resources.new.entries ≡ resources_put resources.old.entries (resources_told items.now)) }
{
    for item in items {
        put_resource(alloc, item, resources)?;
    }
    Ok(())
}

fn put_resource(alloc: Global, item: &Item, resources: &mut Resources) -> Result<(), NoMemory>
    ensures { OnOk result (resources.new.entries ≡ resources_put resources.old.entries (resource_told (out-Item item.now))) }
{
    match item {
        Item::Resource {
            id,
            after,
            keys,
            values,
            ..
        } => {
            let resource = Resource::new(alloc, *after, keys.as_slice(), values.as_slice())?;
            resources.insert(*id, resource)?;
            Ok(())
        }
        Item::Signal { .. }
        | Item::Memo { .. }
        | Item::Effect { .. }
        | Item::Load { .. }
        | Item::Store { .. }
        | Item::Cleanup { .. }
        | Item::Area { .. }
        | Item::If { .. }
        | Item::Each { .. }
        | Item::Element { .. }
        | Item::Text { .. }
        | Item::Shown { .. } => Ok(()),
    }
}

/// After how many attempts a load of the resource arrives.
pub(crate) fn after_of(resources: &Resources, id: u32) -> u32
    ensures { result ≡ after_by resources.now.entries id }
{
    match resources.get(&id) {
        Some(resource) => resource.after(),
        None => 0,
    }
}

/// The value of the resource for the key, or the empty one where there is none.
pub(crate) fn value_of(resources: &Resources, id: u32, key: Code) -> Code
    ensures { result ≡ value_by (pairs_by resources.now.entries id) key }
{
    match resources.get(&id) {
        Some(resource) => resource.value(key),
        None => Code::Empty,
    }
}
