//! The component written out.
ghost use Rattle.std.specs.Prelude.{◌≡◌, ◌≤◌, ◌<◌, ◌+◌, ◌^◌, true, [], ◌++◌, map, length, slice_get, Some, IfOk, OnOk};
ghost use Rattle.std.specs.List.{flat_map, list_all};
ghost use Rattle.component_items.specs.Ids.{item_ids, ids_in};
ghost use Rattle.plain_evaluation.specs.Fits.{item_fits, store_held};
ghost use Rattle.plain_evaluation.specs.Written.{in_row, state_of, write_attr, write_fields, written};
ghost use Rattle.held_state.specs.State.{IsOf};
ghost use Rattle.plan_lines.specs.Scenes.{scene_in};
ghost use Rattle.plan_lines.specs.Lines.{all_below, placed_in, placed_of, item_written, items_written, rows_narrow};

use crate::line::{Line, put};
use crate::scene::Scene;
use component_items::{Attr, Component, Item};
use held_state::Held;
use std::alloc::Global;
use store_fields::{Row, Rows};
use values::limits::MOST_NODES;
use values::{Kind, NoMemory};

/// The component written out in this state: a line for each place, in text order.
pub fn write_out<'c>(
    alloc: Global,
    component: &'c Component,
    held: &'c Held,
) -> Result<Vec<Line<'c>>, NoMemory>
    requires { IsOf component.now held.now }
    ensures { IfOk result (λ lines. map placed_in lines.items ≡ map placed_of (written component.now held.now.held)) }
{
    let mut lines = Vec::with_capacity(alloc, MOST_NODES)?;
    if held.is_live(0) {
        let writer = Writer { component, held };
        writer.put_items(component.items(), Scene::top(), &mut lines)?;
    }
    Ok(lines)
}

/// A component, and the state that it is written out in.
#[derive(Drop)]
struct Writer<'c> {
    component: &'c Component,
    held: &'c Held,
}

impl<'c> Writer<'c> {
    #[cycle(items)]
    fn put_items(
        &self,
        items: &'c [Item],
        scene: Scene,
        lines: &mut Vec<Line<'c>>,
    ) -> Result<(), NoMemory>
        requires ids { all_below (ids_in items.now) ≡ true }
        requires fits { list_all (item_fits (store_held self.now.held.now.held)) items.now ≡ true }
        ensures { OnOk result (map placed_in lines.new.items ≡ map placed_in lines.old.items ++ map placed_of (items_written self.now.component.now self.now.held.now.held items.now (scene_in scene))) }
    {
        for item in items {
            self.put_item(item, scene, lines)?;
        }
        Ok(())
    }

    #[cycle(items)]
    fn put_item(
        &self,
        item: &'c Item,
        scene: Scene,
        lines: &mut Vec<Line<'c>>,
    ) -> Result<(), NoMemory>
        requires ids { all_below (item_ids item.now) ≡ true }
        requires fits { item_fits (store_held self.now.held.now.held) item.now ≡ true }
        ensures { OnOk result (map placed_in lines.new.items ≡ map placed_in lines.old.items ++ map placed_of (item_written self.now.component.now self.now.held.now.held item.now (scene_in scene))) }
    {
        match item {
            Item::Signal { id, .. } => put(lines, Line::source(*id, scene, Kind::Signal)),
            Item::Memo { id, expr, .. } => {
                put(lines, Line::computed(*id, scene, Kind::Memo, expr))
            }
            Item::Effect { id, expr, .. } => {
                put(lines, Line::computed(*id, scene, Kind::Effect, expr))
            }
            Item::Load { id, key, .. } => {
                put(lines, Line::computed(*id + 1, scene, Kind::Memo, key))?;
                put(lines, Line::source(*id, scene, Kind::Load))
            }
            Item::Store { id, .. } => match self.held.rows(*id) {
                None => Ok(()),
                Some(rows) => put_rows(rows, *id, scene, lines),
            },
            Item::Area { owner, items, .. } => {
                if !self.held.is_live(*owner) {
                    return Ok(());
                }
                self.put_items(items.as_slice(), scene.in_area(*owner), lines)
            }
            Item::If { id, cond, items } => {
                put(lines, Line::computed(*id, scene, Kind::Memo, cond))?;
                self.put_items(items.as_slice(), scene, lines)
            }
            Item::Each { store, items, .. } => {
                let Some(rows) = self.held.rows(*store) else {
                    return Ok(());
                };
                for place in 0..rows.count() {
                    let there = scene.in_row(*store, row_at(rows, place).key);
                    self.put_items(items.as_slice(), there, lines)?;
                }
                Ok(())
            }
            Item::Element { attrs, items, .. } => {
                put_attrs(attrs.as_slice(), scene, lines)?;
                self.put_items(items.as_slice(), scene, lines)
            }
            Item::Shown { id, expr } => put(lines, Line::computed(*id, scene, Kind::Memo, expr)),
            Item::Resource { .. } | Item::Cleanup { .. } | Item::Text { .. } => Ok(()),
        }
    }
}

/// The row at a place.
fn row_at(rows: &Rows, place: u32) -> &Row
    requires { place < length rows.now.rows }
    ensures { slice_get rows.now.rows place ≡ Some result.now }
{
    rows.row(place).unwrap()
}

/// The fields of each row of the store.
fn put_rows(
    rows: &Rows,
    store: u32,
    scene: Scene,
    lines: &mut Vec<Line<'_>>,
) -> Result<(), NoMemory>
    requires { rows_narrow store rows.now.rows ≡ true }
    ensures { OnOk result (map placed_in lines.new.items ≡ map placed_in lines.old.items ++ map placed_of (flat_map (λ row. write_fields (2 + store) row.fields (in_row store row.key (scene_in scene))) rows.now.rows)) }
{
    for place in 0..rows.count() {
        put_fields(row_at(rows, place), store, scene, lines)?;
    }
    Ok(())
}

/// The fields of a row of the store.
fn put_fields(
    row: &Row,
    store: u32,
    scene: Scene,
    lines: &mut Vec<Line<'_>>,
) -> Result<(), NoMemory>
    requires { 2 + store + length row.now.fields ≤ 2 ^ 31 }
    ensures { OnOk result (map placed_in lines.new.items ≡ map placed_in lines.old.items ++ map placed_of (write_fields (2 + store) row.now.fields (in_row store row.now.key (scene_in scene)))) }
{
    let there = scene.in_row(store, row.key);
    let first = 2 + store;
    for field in 0..row.fields.len() {
        put(
            lines,
            Line::source(first + field as u32, there, Kind::Field),
        )?;
    }
    Ok(())
}

/// The shown attributes.
fn put_attrs<'c>(attrs: &'c [Attr], scene: Scene, lines: &mut Vec<Line<'c>>) -> Result<(), NoMemory>
    ensures { OnOk result (map placed_in lines.new.items ≡ map placed_in lines.old.items ++ map placed_of (flat_map (write_attr (scene_in scene)) attrs.now)) }
{
    for attr in attrs {
        put_attr(attr, scene, lines)?;
    }
    Ok(())
}

fn put_attr<'c>(attr: &'c Attr, scene: Scene, lines: &mut Vec<Line<'c>>) -> Result<(), NoMemory>
    ensures { OnOk result (map placed_in lines.new.items ≡ map placed_in lines.old.items ++ map placed_of (write_attr (scene_in scene) attr.now)) }
{
    match attr {
        Attr::Bare { .. } | Attr::Fixed { .. } => Ok(()),
        Attr::Shown { id, expr, .. } => { put(lines, Line::computed(*id, scene, Kind::Memo, expr)) }
    }
}
