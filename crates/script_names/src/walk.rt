//! A component is walked once for its names.

ghost use Rattle.std.specs.Prelude.{◌≡◌, ◌++◌, ◌<◌, ◌^◌, All, IfOk, OnOk};
ghost use Rattle.component_items.specs.Ids.{ids_in, item_ids};
ghost use Rattle.script_meaning.specs.Names.{names_of, names_in, item_names};

use crate::names::Names;
use crate::what::{Store, What};
use component_items::{Component, Item};
use std::alloc::{AllocError, Global};
use values::NoMemory;

impl<'a> Names<'a> {
    /// The names that a component declares. They are found in one pass over its items.
    pub fn new(alloc: Global, component: &'a Component) -> Result<Names<'a>, NoMemory>
        ensures { IfOk result (λ names. names ≡ names_of component.entry.now.items) }
    {
        let mut names = Names::empty(alloc);
        add_items(alloc, &mut names, component.items(), 0)?;
        Ok(names)
    }
}

/// Adds the names that the items declare in the block of an owner.
#[cycle(walk)]
fn add_items<'a>(
    alloc: Global,
    names: &mut Names<'a>,
    items: &'a [Item],
    owner: u32,
) -> Result<(), AllocError>
    requires small { All (λ id. id < 2 ^ 31) (ids_in items.now) }
    ensures { OnOk result (names.new ≡ names.old ++ names_in owner items.entry.now) }
{
    for item in items {
        add_item(alloc, names, item, owner)?;
    }
    Ok(())
}

/// The same for one item.
#[cycle(walk)]
fn add_item<'a>(
    alloc: Global,
    names: &mut Names<'a>,
    item: &'a Item,
    owner: u32,
) -> Result<(), AllocError>
    requires small { All (λ id. id < 2 ^ 31) (item_ids item.now) }
    ensures { OnOk result (names.new ≡ names.old ++ item_names item.entry.now owner) }
{
    match item {
        Item::Signal { id, name, .. } => names.declare(owner, *name, What::Signal(*id)),
        Item::Memo { id, name, .. } => names.declare(owner, *name, What::Memo(*id)),
        Item::Load { id, name, .. } => names.declare(owner, *name, What::Load(*id)),
        Item::Effect { name, .. } => names.declare(owner, *name, What::Other),
        Item::Resource { name, .. } => names.declare(owner, *name, What::Other),
        Item::Store {
            id,
            name,
            fields,
            starts,
            ..
        } => {
            let store = Store::new(alloc, *id, fields.as_slice(), starts.as_slice())?;
            names.declare(owner, *name, What::Store(store))
        }
        Item::Area {
            name,
            owner: inside,
            items,
            ..
        } => {
            names.declare(owner, *name, What::Area(*inside))?;
            add_items(alloc, names, items.as_slice(), *inside)
        }
        Item::Element { items, .. } => add_items(alloc, names, items.as_slice(), owner),
        Item::If { .. } => Ok(()),
        Item::Each { .. } => Ok(()),
        Item::Cleanup { .. } => Ok(()),
        Item::Text { .. } => Ok(()),
        Item::Shown { .. } => Ok(()),
    }
}
