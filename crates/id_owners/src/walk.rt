//! The owner of each id, item by item, in text order.
ghost use Rattle.std.specs.Prelude.{◌≡◌, ◌++◌, ◌∷◌, [], map, OnOk};
ghost use Rattle.std.specs.List.{flat_map};
ghost use Rattle.plain_evaluation.specs.Origins.{tell_attr};
ghost use Rattle.id_owners.specs.Table.{in_owner, owners_told, item_owned, items_owned};

use component_items::{Attr, Item};
use values::{NoMemory, Numbers};

/// An owner for each id that the items take, where `owner` is the innermost area around them.
#[cycle(owners)]
pub(crate) fn put_owners(items: &[Item], owner: u32, owners: &mut Numbers) -> Result<(), NoMemory>
    ensures { OnOk result (owners.new ≡ owners.old ++ items_owned items.now owner) }
{
    for item in items {
        put_item_owners(item, owner, owners)?;
    }
    Ok(())
}

#[cycle(owners)]
fn put_item_owners(item: &Item, owner: u32, owners: &mut Numbers) -> Result<(), NoMemory>
    ensures { OnOk result (owners.new ≡ owners.old ++ item_owned item.now owner) }
{
    match item {
        Item::Signal { .. }
        | Item::Memo { .. }
        | Item::Effect { .. }
        | Item::Resource { .. }
        | Item::Shown { .. } => put_owner(owner, owners),
        Item::Load { .. } => put_two_owners(owner, owners),
        Item::Store { fields, .. } => {
            put_two_owners(owner, owners)?;
            put_field_owners(fields.as_slice(), owner, owners)
        }
        Item::Area {
            owner: inner,
            items,
            ..
        } => put_block(items.as_slice(), owner, *inner, owners),
        Item::If { items, .. } | Item::Each { items, .. } => {
            put_block(items.as_slice(), owner, owner, owners)
        }
        Item::Element { attrs, items, .. } => {
            put_attr_owners(attrs.as_slice(), owner, owners)?;
            put_owners(items.as_slice(), owner, owners)
        }
        Item::Cleanup { .. } | Item::Text { .. } => Ok(()),
    }
}

/// An id with the owner around it, and what stands inside it, with the owner there.
#[cycle(owners)]
fn put_block(items: &[Item], around: u32, inside: u32, owners: &mut Numbers) -> Result<(), NoMemory>
    ensures { OnOk result (owners.new ≡ owners.old ++ around ∷ items_owned items.now inside) }
{
    put_owner(around, owners)?;
    put_owners(items, inside, owners)
}

fn put_owner(owner: u32, owners: &mut Numbers) -> Result<(), NoMemory>
    ensures { OnOk result (owners.new ≡ owners.old ++ owner ∷ []) }
{
    owners.push(owner)
}

fn put_two_owners(owner: u32, owners: &mut Numbers) -> Result<(), NoMemory>
    ensures { OnOk result (owners.new ≡ owners.old ++ owner ∷ owner ∷ []) }
{
    put_owner(owner, owners)?;
    put_owner(owner, owners)
}

fn put_field_owners(fields: &[u32], owner: u32, owners: &mut Numbers) -> Result<(), NoMemory>
    ensures { OnOk result (owners.new ≡ owners.old ++ map (λ field. owner) fields.now) }
{
    for _ in fields {
        put_owner(owner, owners)?;
    }
    Ok(())
}

fn put_attr_owners(attrs: &[Attr], owner: u32, owners: &mut Numbers) -> Result<(), NoMemory>
    ensures { OnOk result (owners.new ≡ owners.old ++ owners_told (flat_map (tell_attr (in_owner owner)) attrs.now)) }
{
    for attr in attrs {
        if let Attr::Shown { .. } = attr {
            put_owner(owner, owners)?;
        }
    }
    Ok(())
}
