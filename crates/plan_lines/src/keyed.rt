//! Which ids have a place for each row of a store.
ghost use Rattle.std.specs.Prelude.{◌≡◌, ◌++◌, ◌∷◌, [], map, true, IfOk, OnOk};
ghost use Rattle.std.specs.List.{flat_map};
ghost use Rattle.plain_evaluation.specs.Keyed.{is_keyed, item_keyed, items_keyed, keyed_attr};
ghost use Rattle.plan_lines.specs.Flags.{flag_at, flags_of};

use component_items::{Attr, Component, Item};
use std::alloc::Global;
use values::NoMemory;

/// A flag for each id of the component: whether it has a place for each row of a store. Fields have, and what
/// stands inside an `each`.
pub fn keyed_ids(alloc: Global, component: &Component) -> Result<Vec<bool>, NoMemory>
    ensures { IfOk result (λ flags. flag_at flags.items ≡ is_keyed component.now) }
{
    let mut flags = Vec::new(alloc);
    put_flags(component.items(), false, &mut flags)?;
    Ok(flags)
}

/// A flag for each id that the items take, in text order.
#[cycle(flags)]
fn put_flags(items: &[Item], inside: bool, flags: &mut Vec<bool>) -> Result<(), NoMemory>
    ensures { OnOk result (flags.new.items ≡ flags.old.items ++ flags_of (items_keyed items.now inside)) }
{
    for item in items {
        put_item_flags(item, inside, flags)?;
    }
    Ok(())
}

#[cycle(flags)]
fn put_item_flags(item: &Item, inside: bool, flags: &mut Vec<bool>) -> Result<(), NoMemory>
    ensures { OnOk result (flags.new.items ≡ flags.old.items ++ flags_of (item_keyed item.now inside)) }
{
    match item {
        Item::Signal { .. }
        | Item::Memo { .. }
        | Item::Effect { .. }
        | Item::Resource { .. }
        | Item::Shown { .. } => put_flag(inside, flags),
        Item::Load { .. } => put_two_flags(inside, flags),
        Item::Store { fields, .. } => {
            put_two_flags(inside, flags)?;
            put_field_flags(fields.as_slice(), flags)
        }
        Item::Area { items, .. } | Item::If { items, .. } => {
            put_flag(inside, flags)?;
            put_flags(items.as_slice(), inside, flags)
        }
        Item::Each { items, .. } => {
            put_flag(inside, flags)?;
            put_flags(items.as_slice(), true, flags)
        }
        Item::Element { attrs, items, .. } => {
            put_attr_flags(attrs.as_slice(), inside, flags)?;
            put_flags(items.as_slice(), inside, flags)
        }
        Item::Cleanup { .. } | Item::Text { .. } => Ok(()),
    }
}

fn put_flag(flag: bool, flags: &mut Vec<bool>) -> Result<(), NoMemory>
    ensures { OnOk result (flags.new.items ≡ flags.old.items ++ flag ∷ []) }
{
    flags.push(flag)?;
    Ok(())
}

fn put_two_flags(flag: bool, flags: &mut Vec<bool>) -> Result<(), NoMemory>
    ensures { OnOk result (flags.new.items ≡ flags.old.items ++ flag ∷ flag ∷ []) }
{
    put_flag(flag, flags)?;
    put_flag(flag, flags)
}

fn put_field_flags(fields: &[u32], flags: &mut Vec<bool>) -> Result<(), NoMemory>
    ensures { OnOk result (flags.new.items ≡ flags.old.items ++ map (λ field. true) fields.now) }
{
    for _ in fields {
        put_flag(true, flags)?;
    }
    Ok(())
}

fn put_attr_flags(attrs: &[Attr], inside: bool, flags: &mut Vec<bool>) -> Result<(), NoMemory>
    ensures { OnOk result (flags.new.items ≡ flags.old.items ++ flags_of (flat_map (keyed_attr inside) attrs.now)) }
{
    for attr in attrs {
        if let Attr::Shown { .. } = attr {
            put_flag(inside, flags)?;
        }
    }
    Ok(())
}
