//! The map from key to row, and its edits. They stand apart from `Rows` since they speak of the room that
//! the map has, of which the contracts of `Rows` say nothing.
ghost use Rattle.std.specs.Prelude.{◌≡◌, ◌+◌, ◌<◌, ◌≤◌, Some, None, [], length, IfOk, IfSome, IsOk, OnErr, vec_len, vec_capacity};
ghost use Rattle.std.specs.List.{All};
ghost use Rattle.indexmap.specs.IndexMap.{values, spare};
ghost use Rattle.store_fields.specs.Edits.{place_of, edited, inserted, removed, moved, field_set, edit, rows_after, verdicts_of};
ghost use Rattle.store_fields.specs.Table.{IsPaired};

use crate::edit::{EditOp, Verdict};
use crate::row::Row;
use indexmap::IndexMap;
use std::alloc::Global;
use values::{Code, NoMemory};

/// Each row at its key, in the store's order.
pub(crate) type Table = IndexMap<Code, Row>;

/// The same rows in the same order, in memory of their own.
pub(crate) fn copy(alloc: Global, table: &Table) -> Result<Table, NoMemory>
    requires { IsPaired table.now.entries }
    ensures { IfOk result (λ copied. copied.entries ≡ table.now.entries) }
{
    let mut copied = IndexMap::with_capacity(alloc, table.len())?;
    for i in 0..table.len() {
        let row = &table[i];
        copied.insert(row.key, row.copy(alloc)?)?;
    }
    Ok(copied)
}

/// The place of the row with the key.
pub(crate) fn find(table: &Table, key: Code) -> Option<usize>
    requires { IsPaired table.now.entries }
    ensures place { result ≡ place_of key (values table.now) }
    ensures within { IfSome result (λ i. i < length (values table.now)) }
{
    table.get_index_of(&key)
}

/// Puts a row at a place, where its key is not there and there are fewer than `max` rows.
pub(crate) fn insert(table: &mut Table, max: u32, row: Row, place: u32) -> Result<Verdict, NoMemory>
    requires { IsPaired table.old.entries }
    ensures edit { IfOk result (λ verdict. edited (values table.new) verdict ≡ inserted max (values table.old) row place) }
    ensures paired { IsPaired table.new.entries }
    ensures err { OnErr result (table.new.entries ≡ table.old.entries) }
    ensures succeeds { 0 < spare table.old → IsOk result }
    ensures room { spare table.old ≤ spare table.new + 1 }
{
    if find(table, row.key).is_some() {
        return Ok(Verdict::Present);
    }
    let len = table.len();
    if max as usize <= len {
        return Ok(Verdict::AtMax);
    }
    table.insert_before((place as usize).min(len), row.key, row)?;
    Ok(Verdict::Done)
}

/// Takes the row with the key out.
pub(crate) fn remove(table: &mut Table, key: Code) -> Verdict
    requires { IsPaired table.old.entries }
    ensures edit { edited (values table.new) result ≡ removed (values table.old) key }
    ensures paired { IsPaired table.new.entries }
    ensures room { spare table.old ≤ spare table.new }
{
    match find(table, key) {
        Some(i) => {
            table.shift_remove_index(i);
            Verdict::Done
        }
        None => Verdict::Absent,
    }
}

/// Moves the row with the key to a place in the list of the others.
pub(crate) fn place(table: &mut Table, key: Code, place: u32) -> Verdict
    requires { IsPaired table.old.entries }
    ensures edit { edited (values table.new) result ≡ moved (values table.old) key place }
    ensures paired { IsPaired table.new.entries }
    ensures room { spare table.old ≤ spare table.new }
{
    match find(table, key) {
        Some(from) => {
            let last = table.len() - 1;
            table.move_index(from, (place as usize).min(last));
            Verdict::Done
        }
        None => Verdict::Absent,
    }
}

/// Changes one field of the row with the key.
pub(crate) fn set_field(table: &mut Table, width: u32, key: Code, field: u32, code: Code) -> Verdict
    requires pairs { IsPaired table.old.entries }
    requires wide { All (λ row. length row.fields ≡ width) (values table.old) }
    requires within { field < width }
    ensures edit { edited (values table.new) result ≡ field_set (values table.old) key field code }
    ensures paired { IsPaired table.new.entries }
{
    match find(table, key) {
        Some(i) => {
            let row = &mut table[i];
            row.fields.set(field as usize, code);
            Verdict::Done
        }
        None => Verdict::Absent,
    }
}

/// Makes one edit. Memory can be wanting only where there is no room for one more row.
pub(crate) fn edit(table: &mut Table, max: u32, width: u32, op: EditOp) -> Result<Verdict, NoMemory>
    requires { IsPaired table.old.entries }
    ensures edit { IfOk result (λ verdict. edited (values table.new) verdict ≡ edit max width (values table.old) op) }
    ensures paired { IsPaired table.new.entries }
    ensures err { OnErr result (table.new.entries ≡ table.old.entries) }
    ensures succeeds { 0 < spare table.old → IsOk result }
    ensures room { spare table.old ≤ spare table.new + 1 }
{
    match op {
        EditOp::Insert { key, fields, place } => {
            if fields.len() != width as usize {
                return Ok(Verdict::Absent);
            }
            insert(table, max, Row { key, fields }, place)
        }
        EditOp::Remove { key } => Ok(remove(table, key)),
        EditOp::Move { key, place: to } => Ok(place(table, key, to)),
    }
}

/// Makes one edit where there is room for one more row, so that memory can't be wanting.
fn edit_with_room(table: &mut Table, max: u32, width: u32, op: EditOp) -> Verdict
    requires paired { IsPaired table.old.entries }
    requires room { 0 < spare table.old }
    ensures edit { edited (values table.new) result ≡ edit max width (values table.old) op }
    ensures paired { IsPaired table.new.entries }
    ensures room { spare table.old ≤ spare table.new + 1 }
{
    edit(table, max, width, op).unwrap()
}

/// Makes the edits in order, and tells what comes of each. There is room for a row and a verdict of each.
pub(crate) fn edit_all(
    table: &mut Table,
    max: u32,
    width: u32,
    ops: Vec<EditOp>,
    verdicts: &mut Vec<Verdict>,
)
    requires paired { IsPaired table.old.entries }
    requires room { vec_len ops ≤ spare table.old }
    requires empty { verdicts.old.items ≡ [] }
    requires space { vec_len ops ≤ vec_capacity verdicts.old }
    ensures rows { values table.new ≡ rows_after max width (values table.old) ops.items }
    ensures verdicts { verdicts.new.items ≡ verdicts_of max width (values table.old) ops.items }
    ensures paired { IsPaired table.new.entries }
{
    for op in ops {
        verdicts.push_reserved(edit_with_room(table, max, width, op));
    }
}
