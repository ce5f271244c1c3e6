//! The lines of loads that are pending.
ghost use Rattle.std.specs.Prelude.{◌≡◌, ℕ, ◌++◌, [], ◌∷◌, Some, map, OnOk, IfOk};
ghost use Rattle.std.specs.List.{flat_map, join_with_byte};
ghost use Rattle.html_out.specs.Shown.{text_at};
ghost use Rattle.component_items.specs.Around.{path_of_id, item_listed, items_listed};
ghost use Rattle.component_items.specs.Own.{place};
ghost use Rattle.run_meaning.specs.Ending.{waiting_line};
ghost use Rattle.report_text.specs.Found.{AreFound};
ghost use Rattle.report_text.specs.Lines.{dotted, line_of_path};

use crate::pieces::{put, text_of};
use component_items::{Component, Item};
use values::{NoMemory, Texts};

/// A line for each of these loads of the component, in their order: `waiting` and its path. Loads in order of
/// declaration cost one walk over the items of the component, whatever their count, and each of the others one more.
pub fn put_waiting(out: &mut Vec<u8>, component: &Component, loads: &[u32]) -> Result<(), NoMemory>
    ensures { OnOk result (out.new.items ≡ out.old.items ++ flat_map (waiting_line component.now) loads.now) }
{
    let mut path = Vec::new(*out.allocator());
    let others = put_among(out, component, component.items(), &mut path, loads)?;
    put_others(out, component, others)
}

/// Writes the lines of the first of the loads, as far as they are declared in these items and in this order, and
/// gives the others. `path` has the names of the areas around the items.
#[cycle(walk)]
fn put_among<'a>(
    out: &mut Vec<u8>,
    component: &Component,
    items: &[Item],
    path: &mut Vec<u32>,
    loads: &'a [u32],
) -> Result<&'a [u32], NoMemory>
    ensures path { OnOk result (path.new.items ≡ path.old.items) }
    ensures lines { IfOk result (λ others. (owner : ℕ) → AreFound component.now (items_listed items.now (place owner path.old.items)) → out.new.items ++ flat_map (waiting_line component.now) others.now ≡ out.old.items ++ flat_map (waiting_line component.now) loads.now) }
{
    let mut others = loads;
    for item in items {
        others = put_within(out, component, item, path, others)?;
    }
    Ok(others)
}

#[cycle(walk)]
fn put_within<'a>(
    out: &mut Vec<u8>,
    component: &Component,
    item: &Item,
    path: &mut Vec<u32>,
    loads: &'a [u32],
) -> Result<&'a [u32], NoMemory>
    ensures path { OnOk result (path.new.items ≡ path.old.items) }
    ensures lines { IfOk result (λ others. (owner : ℕ) → AreFound component.now (item_listed item.now (place owner path.old.items)) → out.new.items ++ flat_map (waiting_line component.now) others.now ≡ out.old.items ++ flat_map (waiting_line component.now) loads.now) }
{
    match item {
        Item::Load { id, name, .. } => put_if_next(out, component, *id, *name, path, loads),
        Item::Area { name, items, .. } => {
            path.push(*name)?;
            let others = put_among(out, component, items.as_slice(), path, loads)?;
            path.pop();
            Ok(others)
        }
        Item::Signal { .. }
        | Item::Memo { .. }
        | Item::Effect { .. }
        | Item::Resource { .. }
        | Item::Store { .. }
        | Item::Cleanup { .. }
        | Item::If { .. }
        | Item::Each { .. }
        | Item::Element { .. }
        | Item::Text { .. }
        | Item::Shown { .. } => Ok(loads),
    }
}

/// Writes the line of the load with this id and name, where it is the first of the loads, and gives the others.
fn put_if_next<'a>(
    out: &mut Vec<u8>,
    component: &Component,
    id: u32,
    name: u32,
    path: &mut Vec<u32>,
    loads: &'a [u32],
) -> Result<&'a [u32], NoMemory>
    ensures path { OnOk result (path.new.items ≡ path.old.items) }
    ensures lines { IfOk result (λ others. path_of_id component.now id ≡ Some (path.old.items ++ name ∷ []) → out.new.items ++ flat_map (waiting_line component.now) others.now ≡ out.old.items ++ flat_map (waiting_line component.now) loads.now) }
{
    let Some((next, others)) = loads.split_first() else {
        return Ok(loads);
    };
    if *next != id {
        return Ok(loads);
    }
    path.push(name)?;
    put_path_line(out, component.texts(), path.as_slice())?;
    path.pop();
    Ok(others)
}

/// A line for each of these loads, each looked up by itself.
fn put_others(out: &mut Vec<u8>, component: &Component, loads: &[u32]) -> Result<(), NoMemory>
    ensures { OnOk result (out.new.items ≡ out.old.items ++ flat_map (waiting_line component.now) loads.now) }
{
    for load in loads {
        put_load(out, component, *load)?;
    }
    Ok(())
}

/// The line of a load. What no item takes has the empty path.
fn put_load(out: &mut Vec<u8>, component: &Component, load: u32) -> Result<(), NoMemory>
    ensures { OnOk result (out.new.items ≡ out.old.items ++ waiting_line component.now load) }
{
    let alloc = *out.allocator();
    match component.path_of(alloc, load)? {
        Some(path) => put_path_line(out, component.texts(), path.as_slice()),
        None => put_path_line(out, component.texts(), &[]),
    }
}

/// The line of a load with this path.
fn put_path_line(out: &mut Vec<u8>, texts: &Texts, path: &[u32]) -> Result<(), NoMemory>
    ensures { OnOk result (out.new.items ≡ out.old.items ++ line_of_path texts.now path.now) }
{
    put(out, b"waiting ")?;
    put_path(out, texts, path)?;
    put(out, b"\n")
}

/// Names, joined by dots.
fn put_path(out: &mut Vec<u8>, texts: &Texts, path: &[u32]) -> Result<(), NoMemory>
    ensures { OnOk result (out.new.items ≡ out.old.items ++ join_with_byte 46 (map (text_at texts.now) path.now)) }
{
    let Some((first, inner)) = path.split_first() else {
        return Ok(());
    };
    put(out, text_of(texts, *first).as_bytes())?;
    put_inner(out, texts, inner)
}

/// Names behind another, each with a dot before it.
fn put_inner(out: &mut Vec<u8>, texts: &Texts, inner: &[u32]) -> Result<(), NoMemory>
    ensures { OnOk result (out.new.items ≡ out.old.items ++ flat_map (dotted texts.now) inner.now) }
{
    for name in inner {
        put_dotted(out, texts, *name)?;
    }
    Ok(())
}

fn put_dotted(out: &mut Vec<u8>, texts: &Texts, name: u32) -> Result<(), NoMemory>
    ensures { OnOk result (out.new.items ≡ out.old.items ++ dotted texts.now name) }
{
    put(out, b".")?;
    put(out, text_of(texts, name).as_bytes())
}
