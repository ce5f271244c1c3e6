//! The owners of a plan.
ghost use Rattle.std.specs.Prelude.{◌≡◌, ◌∷◌, ◌++◌, map, IfOk, OnOk};
ghost use Rattle.plan_meaning.specs.Owners.{item_owning, owners_inside, top_owner};
ghost use Rattle.node_plan.specs.OwnersOf.{cleanups_in};

use component_items::Item;
use std::alloc::Global;
use values::{NoMemory, Numbers, PlanOwner, PlanOwners, Sequence};

/// The top, and the areas in text order, live or not, each with the owner around it and its cleanups.
pub(crate) fn owners_of(alloc: Global, items: &[Item]) -> Result<PlanOwners, NoMemory>
    ensures { IfOk result (λ owners. owners ≡ top_owner ∷ owners_inside (map item_owning items.now) 0) }
{
    let mut owners = Vec::new(alloc);
    owners.push(PlanOwner {
        parent: None,
        cleanups: Numbers::new(alloc),
    })?;
    put_owners(alloc, items, 0, &mut owners)?;
    Ok(Sequence::from_vec(owners))
}

/// The areas of the items, where this owner is around them.
#[cycle(owners)]
fn put_owners(
    alloc: Global,
    items: &[Item],
    around: u32,
    owners: &mut Vec<PlanOwner>,
) -> Result<(), NoMemory>
    ensures { OnOk result (owners.new.items ≡ owners.old.items ++ owners_inside (map item_owning items.now) around) }
{
    for item in items {
        put_item_owners(alloc, item, around, owners)?;
    }
    Ok(())
}

#[cycle(owners)]
fn put_item_owners(
    alloc: Global,
    item: &Item,
    around: u32,
    owners: &mut Vec<PlanOwner>,
) -> Result<(), NoMemory>
    ensures { OnOk result (owners.new.items ≡ owners.old.items ++ (item_owning item.now).owners around) }
{
    match item {
        Item::Area { owner, items, .. } => {
            let cleanups = cleanups_of(alloc, items.as_slice())?;
            owners.push(PlanOwner {
                parent: Some(around),
                cleanups,
            })?;
            put_owners(alloc, items.as_slice(), *owner, owners)
        }
        Item::If { items, .. } | Item::Each { items, .. } | Item::Element { items, .. } => {
            put_owners(alloc, items.as_slice(), around, owners)
        }
        _ => Ok(()),
    }
}

/// The cleanups that stand among the items.
fn cleanups_of(alloc: Global, items: &[Item]) -> Result<Numbers, NoMemory>
    ensures { IfOk result (λ cleanups. cleanups ≡ cleanups_in items.now) }
{
    let mut cleanups = Numbers::new(alloc);
    for item in items {
        put_cleanup(item, &mut cleanups)?;
    }
    Ok(cleanups)
}

fn put_cleanup(item: &Item, cleanups: &mut Numbers) -> Result<(), NoMemory>
    ensures { OnOk result (cleanups.new ≡ cleanups.old ++ (item_owning item.now).cleanups) }
{
    match item {
        Item::Cleanup { text } => cleanups.push(*text),
        _ => Ok(()),
    }
}
