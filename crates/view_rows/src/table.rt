//! The map from key to row, and how it follows the keys of a store. It stands apart from `MountedRows`, whose contracts
//! forget that it is a map.
ghost use Rattle.std.specs.Prelude.{◌≡◌, ◌<◌, ℕ, true, false, [], Some, IfOk, OnOk, length, map, slice_get, slice_set, unwrap_or};
ghost use Rattle.std.specs.Map.{lookup};
ghost use Rattle.std.specs.Option.{option_map, option_map_or};
ghost use Rattle.values.specs.declared.code.Code.{Code as CodeValue};
ghost use Rattle.values.specs.Evaluation.{is_same};
ghost use Rattle.store_fields.specs.Edits.{keys};
ghost use Rattle.view_slots.specs.Home.{blank_home};
ghost use Rattle.view_slots.specs.Seen.{seen_by};
ghost use Rattle.view_rows.specs.Listed.{Row, arranged, planned, counted, count_after, row_again};
ghost use Rattle.view_rows.specs.Parts.{row_of, with_row, rows_in};

use component_items::Item;
use indexmap::IndexMap;
use std::alloc::Global;
use std::marker::Model;
use store_fields::Rows;
use values::{Code, NoMemory};
use view_slots::{Near, Sight, Slots};

/// A mounted row: its serial, and what it has mounted.
#[derive(Drop)]
pub(crate) struct RowPart {
    pub serial: u64,
    pub slots: Slots,
}

/// Each mounted row at its key, in order.
pub(crate) type Table = IndexMap<Code, RowPart>;

/// Rows that are to be mounted: the fresh ones, and an empty place for each that is there. No memory is wanted any
/// more to mount them.
#[derive(Drop)]
pub struct Plan {
    pub(crate) rows: Table,
    pub(crate) next: u64,
}

impl Model for Plan {
    ghost use Rattle.view_rows.specs.Listed.{Listed};
    ghost use Rattle.view_rows.specs.Parts.{rows_in};

    ghost Value = { Listed };

    ghost view = { λ m. record { rows = rows_in m.rows; next = m.next } };
}

/// The key of the row at a place.
pub(crate) fn key_at(rows: &Rows, place: u32) -> Code
    requires { place < length rows.now.rows }
    ensures { slice_get (keys rows.now.rows) place ≡ Some result }
{
    rows.row(place).unwrap().key
}

/// Whether the mounted rows are those of the store, in its order.
pub(crate) fn stands(table: &Table, rows: &Rows) -> bool
    ensures { result ≡ true → (base width next : ℕ) → (arranged base width (rows_in table.now) (keys rows.now.rows) next ≡ rows_in table.now) × (counted (rows_in table.now) (keys rows.now.rows) next ≡ next) }
{
    if table.len() != rows.count() as usize {
        return false;
    }
    for i in 0..rows.count() {
        if !is_at(table, i as usize, key_at(rows, i)) {
            return false;
        }
    }
    true
}

/// Whether the mounted row at the place has this key.
fn is_at(table: &Table, place: usize, key: Code) -> bool
    ensures { result ≡ true → (row : Row) × ((slice_get (rows_in table.now) place ≡ Some (key, row)) × (lookup (is_same key) (rows_in table.now) ≡ Some row)) }
{
    match table.get_index(place) {
        Some((found, _)) => *found == key,
        None => false,
    }
}

/// Room for the rows of the store, with the fresh ones in it. They take serials from `next` on.
pub(crate) fn plan_for(
    alloc: Global,
    table: &Table,
    next: u64,
    rows: &Rows,
    base: u32,
    width: usize,
) -> Result<Plan, NoMemory>
    ensures rows { IfOk result (λ plan. plan.rows ≡ planned base width (rows_in table.now) (keys rows.now.rows) next) }
    ensures next { IfOk result (λ plan. plan.next ≡ counted (rows_in table.now) (keys rows.now.rows) next) }
{
    let mut planned = IndexMap::with_capacity(alloc, rows.count() as usize)?;
    let mut count = next;
    for i in 0..rows.count() {
        let key = key_at(rows, i);
        let part = part_for(alloc, table, key, base, width, &mut count)?;
        planned.insert(key, part)?;
    }
    Ok(Plan {
        rows: planned,
        next: count,
    })
}

/// A fresh row with the next serial, or an empty place for a row that is there.
fn part_for(
    alloc: Global,
    table: &Table,
    key: Code,
    base: u32,
    width: usize,
    next: &mut u64,
) -> Result<RowPart, NoMemory>
    ensures row { IfOk result (λ part. row_of part ≡ option_map_or (λ known. (0, blank_home 0 0)) (lookup (is_same key) (rows_in table.now)) (next.old, blank_home base width)) }
    ensures next { OnOk result (next.new ≡ count_after (lookup (is_same key) (rows_in table.now)) next.old) }
{
    if table.contains_key(&key) {
        return Ok(RowPart {
            serial: 0,
            slots: Slots::none(alloc),
        });
    }
    let slots = Slots::new(alloc, base, width)?;
    let serial = *next;
    *next = serial.saturating_add(1);
    Ok(RowPart { serial, slots })
}

/// Takes the planned rows, and moves those that are there into their places.
pub(crate) fn adopt(table: &mut Table, rows: &Rows, plan: Table)
    ensures { (base width next : ℕ) → rows_in plan ≡ planned base width (rows_in table.old) (keys rows.now.rows) next → rows_in table.new ≡ arranged base width (rows_in table.old) (keys rows.now.rows) next }
{
    let mut arranged = plan;
    for i in 0..rows.count() {
        move_row(table, key_at(rows, i), i as usize, &mut arranged);
    }
    *table = arranged;
}

/// Moves the row with the key to its place, if it is there.
fn move_row(table: &mut Table, key: Code, place: usize, arranged: &mut Table)
    ensures moved { (row : Row) → slice_get (rows_in arranged.old) place ≡ Some (key, row) → rows_in arranged.new ≡ slice_set (rows_in arranged.old) place (key, unwrap_or (lookup (is_same key) (rows_in table.old)) row) }
    ensures others { (q : CodeValue) → is_same key q ≡ false → lookup (is_same q) (rows_in table.new) ≡ lookup (is_same q) (rows_in table.old) }
{
    if place >= arranged.len() {
        return;
    }
    if let Some(part) = table.swap_remove(&key) {
        arranged[place] = part;
    }
}

/// Mounts these items again in each row.
pub(crate) fn remount_all(table: &mut Table, sight: &Sight, items: &[Item], near: &mut Near)
    ensures { rows_in table.new ≡ map (row_again (seen_by sight.now) items.now) (rows_in table.old) }
{
    for i in 0..table.len() {
        remount_at(table, i, sight, items, near);
    }
}

/// Mounts them again in the row at the place.
fn remount_at(table: &mut Table, place: usize, sight: &Sight, items: &[Item], near: &mut Near)
    ensures { (e : CodeValue × Row) → slice_get (rows_in table.old) place ≡ Some e → rows_in table.new ≡ slice_set (rows_in table.old) place (row_again (seen_by sight.now) items.now e) }
{
    let Some((key, _)) = table.get_index(place) else {
        return;
    };
    let key = *key;
    let part = &mut table[place];
    part.slots.remount_row(sight, items, key, near);
}
