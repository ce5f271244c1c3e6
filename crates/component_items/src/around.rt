//! What stands around an id: its owner, and the path by which it is named.
ghost use Rattle.std.specs.Prelude.{◌≡◌, ℕ, suc, ◌+◌, ◌==◌, List, [], ◌∷◌, Bool, true, false, Some, None, if◌then◌else◌, IfOk, OnOk, ◌++◌};
ghost use Rattle.std.specs.List.{find};
ghost use Rattle.std.specs.Option.{option_map};
ghost use Rattle.component_items.specs.Around.{Around, named, nameless, listed_attr, listed_attrs, listed_fields, items_listed, item_listed, owner_of_id, path_of_id};
ghost use Rattle.component_items.specs.Own.{place, inside, listed_as, own_listed, own_path, owner_among as owner_of_listed, path_among as path_of_listed};

use crate::component::{Attr, Component, Item};
use std::alloc::Global;
use values::{NoMemory, Numbers};

impl Component {
    /// The innermost area around the id, as an owner: 0 at the top. `None` exactly where no item takes the
    /// id (`docs/SEMANTICS.md`, "Components").
    pub fn owner_of(&self, id: u32) -> Option<u32>
        ensures { result ≡ owner_of_id self.now id }
    {
        owner_among(self.items(), id, 0)
    }

    /// The path by which the id is named: the names of the areas around it, the outermost first, and then the
    /// name that it is declared with, if it has one. `None` exactly where no item takes the id
    /// (`docs/SEMANTICS.md`, "Components").
    pub fn path_of(&self, alloc: Global, id: u32) -> Result<Option<Numbers>, NoMemory>
        ensures { IfOk result (λ path. path ≡ path_of_id self.now id) }
    {
        let mut path = Vec::new(alloc);
        if path_among(self.items(), id, &mut path)? {
            return Ok(Some(Numbers::from_vec(path)));
        }
        Ok(None)
    }
}

/// The owner of the id, where one of the items takes it. `owner` is the innermost area around them.
#[cycle(owner)]
fn owner_among(items: &[Item], id: u32, owner: u32) -> Option<u32>
    ensures { (areas : List ℕ) → result ≡ owner_of_listed id (items_listed items.now (place owner areas)) }
{
    for item in items {
        if let Some(found) = owner_within(item, id, owner) {
            return Some(found);
        }
    }
    None
}

#[cycle(owner)]
fn owner_within(item: &Item, id: u32, owner: u32) -> Option<u32>
    ensures { (areas : List ℕ) → result ≡ owner_of_listed id (item_listed item.now (place owner areas)) }
{
    if own_name(item, id).is_some() {
        return Some(owner);
    }
    match item {
        Item::Area { items, .. }
        | Item::If { items, .. }
        | Item::Each { items, .. }
        | Item::Element { items, .. } => {
            let area = owner_inside(item, owner);
            owner_among(items.as_slice(), id, area)
        }
        _ => None,
    }
}

/// The innermost area around what the item holds, where `owner` is the one around the item.
fn owner_inside(item: &Item, owner: u32) -> u32
    ensures { (areas : List ℕ) → result ≡ (inside item.now (place owner areas)).owner }
{
    match item {
        Item::Area { owner: area, .. } => *area,
        _ => owner,
    }
}

/// Whether one of the items takes the id. `path` has the names of the areas around them, and then becomes the
/// path of the id; otherwise it stays.
#[cycle(path)]
fn path_among(items: &[Item], id: u32, path: &mut Vec<u32>) -> Result<bool, NoMemory>
    ensures path { IfOk result (λ found. (owner : ℕ) → path_of_listed id (items_listed items.now (place owner path.old.items)) ≡ (if found then Some path.new.items else None)) }
    ensures same { IfOk result (λ found. found ≡ false → path.new.items ≡ path.old.items) }
{
    for item in items {
        if path_within(item, id, path)? {
            return Ok(true);
        }
    }
    Ok(false)
}

#[cycle(path)]
fn path_within(item: &Item, id: u32, path: &mut Vec<u32>) -> Result<bool, NoMemory>
    ensures path { IfOk result (λ found. (owner : ℕ) → path_of_listed id (item_listed item.now (place owner path.old.items)) ≡ (if found then Some path.new.items else None)) }
    ensures same { IfOk result (λ found. found ≡ false → path.new.items ≡ path.old.items) }
{
    if let Some(own) = own_name(item, id) {
        put_name(own, path)?;
        return Ok(true);
    }
    match item {
        Item::Area { name, items, .. } => {
            path.push(*name)?;
            if path_among(items.as_slice(), id, path)? {
                return Ok(true);
            }
            path.pop();
            Ok(false)
        }
        Item::If { items, .. } | Item::Each { items, .. } | Item::Element { items, .. } => {
            path_among(items.as_slice(), id, path)
        }
        _ => Ok(false),
    }
}

/// Adds the name, if there is one.
fn put_name(own: Own, path: &mut Vec<u32>) -> Result<(), NoMemory>
    ensures { OnOk result (path.new.items ≡ path.old.items ++ own_path own) }
{
    if let Own::Named(name) = own {
        path.push(name)?;
    }
    Ok(())
}

/// How an item names an id of its own.
#[derive(Clone, Copy)]
enum Own {
    Named(u32),
    Nameless,
}

/// How the item names the id, where it takes the id itself: not for an item that it holds.
fn own_name(item: &Item, id: u32) -> Option<Own>
    ensures { (around : Around) → find (λ l. l.id == id) (own_listed item.now around) ≡ option_map (listed_as id around) result }
{
    match item {
        Item::Signal { id: own, name, .. }
        | Item::Memo { id: own, name, .. }
        | Item::Effect { id: own, name, .. }
        | Item::Resource { id: own, name, .. }
        | Item::Area { id: own, name, .. } => (*own == id).then_some(Own::Named(*name)),
        Item::If { id: own, .. } | Item::Each { id: own, .. } | Item::Shown { id: own, .. } => {
            (*own == id).then_some(Own::Nameless)
        }
        Item::Load { id: own, name, .. } => own_with_key(*own, *name, id),
        Item::Store {
            id: own,
            name,
            fields,
            ..
        } => own_with_key(*own, *name, id).or_else(|| own_field(*own, fields.as_slice(), id)),
        Item::Element { attrs, .. } => { attrs_take(attrs.as_slice(), id).then_some(Own::Nameless) }
        Item::Cleanup { .. } | Item::Text { .. } => None,
    }
}

/// The same for the id of a load or store and the one behind it, for its key.
fn own_with_key(own: u32, name: u32, id: u32) -> Option<Own>
    ensures { (around : Around) → find (λ l. l.id == id) (named own name around ∷ nameless (suc own) around ∷ []) ≡ option_map (listed_as id around) result }
{
    if own == id {
        Some(Own::Named(name))
    } else if id > 0 && id - 1 == own {
        Some(Own::Nameless)
    } else {
        None
    }
}

/// The same for the fields of the store with the id `own`.
fn own_field(own: u32, fields: &[u32], id: u32) -> Option<Own>
    ensures { (around : Around) → find (λ l. l.id == id) (listed_fields (2 + own) fields.now around) ≡ option_map (listed_as id around) result }
{
    let behind = id.checked_sub(own)?;
    let field = behind.checked_sub(2)?;
    let name = fields.get(field as usize)?;
    Some(Own::Named(*name))
}

/// Whether the value of one of the attributes takes the id.
fn attrs_take(attrs: &[Attr], id: u32) -> bool
    ensures { (around : Around) → find (λ l. l.id == id) (listed_attrs around attrs.now) ≡ (if result then Some (nameless id around) else None) }
{
    for attr in attrs {
        if attr_takes(attr, id) {
            return true;
        }
    }
    false
}

fn attr_takes(attr: &Attr, id: u32) -> bool
    ensures { (around : Around) → find (λ l. l.id == id) (listed_attr around attr.now) ≡ (if result then Some (nameless id around) else None) }
{
    match attr {
        Attr::Bare { .. } | Attr::Fixed { .. } => false,
        Attr::Shown { id: own, .. } => *own == id,
    }
}
