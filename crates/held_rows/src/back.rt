//! Held state takes what the rows show.
ghost use Rattle.std.specs.Prelude.{◌≡◌, ◌<◌, ◌+◌, ℕ, map, slice_get, slice_set, Some, IsSome};
ghost use Rattle.std.specs.Option.{option_copied};
ghost use Rattle.values.specs.Packing.{IsPacked};
ghost use Rattle.store_fields.specs.declared.row.Row.{Row as RowValue};
ghost use Rattle.store_fields.specs.Edits.{with_rows};
ghost use Rattle.sources.specs.declared.opening.Opened.{Opened as OpenedValue};
ghost use Rattle.sources.specs.Rows.{code_in, value_in};
ghost use Rattle.plain_evaluation.specs.Changed.{signal_of, store_of, with_holding};
ghost use Rattle.plain_evaluation.specs.Held.{holding_of};
ghost use Rattle.held_state.specs.State.{IsOf, with_held};
ghost use Rattle.held_rows.specs.Shown.{row_shown, holding_shown, held_shown};
ghost use Rattle.held_rows.specs.Writing.{ArePacked, HasIds, with_field_shown};

use component_items::Component;
use held_state::Held;
use node_names::{Names, NodePlace};
use sources::Opened;
use store_fields::Rows;
use values::Code;

/// Gives each signal and each field of held state the value of its row. It takes the time of what is held, and no
/// memory.
pub fn write_back(held: &mut Held, component: &Component, names: &Names, rows: &[Opened])
    requires fits { IsOf component.now held.old }
    requires packed { (n : ℕ) (row : OpenedValue) → slice_get rows.now n ≡ Some row → IsPacked row.code }
    ensures shown { held.new ≡ with_held held.old (held_shown names.now (value_in rows.now) held.old.held) }
    ensures fits_still { IsOf component.now held.new }
{
    let _items = component.items();
    let mut near = 0;
    for id in 0..held.count() {
        write_holding(held, names, rows, id as u32, &mut near);
    }
}

/// The same of one id. The rows of sources follow one another in the order of their ids, so that each is looked for
/// first at `near`, behind the one before it.
fn write_holding(held: &mut Held, names: &Names, rows: &[Opened], id: u32, near: &mut u32)
    requires packed { ArePacked rows.now }
    requires ids { HasIds id (store_of held.old.held id) }
    ensures { held.new ≡ with_held held.old (with_holding held.old.held id (holding_shown names.now (value_in rows.now) id (holding_of held.old.held id))) }
{
    if held.value(id).is_some() {
        write_signal(held, names, rows, id, near);
    } else if let Some(store) = held.store(id) {
        write_store(store, names, rows, id, near);
    }
}

/// Gives the live signal with the id the value of its row, where it has one.
fn write_signal(held: &mut Held, names: &Names, rows: &[Opened], id: u32, near: &mut u32)
    requires packed { ArePacked rows.now }
    requires signal { IsSome (signal_of held.old.held id) }
    ensures { held.new ≡ with_held held.old (with_holding held.old.held id (holding_shown names.now (value_in rows.now) id (holding_of held.old.held id))) }
{
    if let Some(row) = names.row_near(NodePlace::outside(id), *near) {
        *near = row.wrapping_add(1);
        held.put(id, row_value(rows, row));
    }
}

/// Gives each field of each row of the store with the id the value of its row of the plan.
fn write_store(store: &mut Rows, names: &Names, rows: &[Opened], id: u32, near: &mut u32)
    requires packed { ArePacked rows.now }
    requires ids { HasIds id (Some store.old) }
    ensures { store.new ≡ with_rows store.old (map (row_shown names.now (value_in rows.now) id) store.old.rows) }
{
    for place in 0..store.count() {
        write_row(store, names, rows, id, place, near);
    }
}

/// The same of the row at one place.
fn write_row(store: &mut Rows, names: &Names, rows: &[Opened], id: u32, place: u32, near: &mut u32)
    requires packed { ArePacked rows.now }
    requires ids { HasIds id (Some store.old) }
    ensures { (row : RowValue) → slice_get store.old.rows place ≡ Some row → store.new ≡ with_rows store.old (slice_set store.old.rows place (row_shown names.now (value_in rows.now) id row)) }
{
    let _count = store.count();
    let Some(row) = store.row(place) else {
        return;
    };
    let key = row.key;
    let count = row.fields.len();
    write_fields(store, names, rows, id, key, count, near);
}

/// The same of all fields of the row with the key. Each row has so many.
fn write_fields(
    store: &mut Rows,
    names: &Names,
    rows: &[Opened],
    id: u32,
    key: Code,
    count: usize,
    near: &mut u32,
)
    requires packed { ArePacked rows.now }
    requires ids { HasIds id (Some store.old) }
    requires count { count ≡ store.old.width }
    ensures { (place : ℕ) (row : RowValue) → slice_get store.old.rows place ≡ Some row → row.key ≡ key → store.new ≡ with_rows store.old (slice_set store.old.rows place (row_shown names.now (value_in rows.now) id row)) }
{
    let _count = store.count();
    for field in 0..count {
        write_field(store, names, rows, id, key, field as u32, near);
    }
}

/// The same of one field of the row with the key. Its row of the plan is looked for first at `near`, and the field
/// behind it stands in the row behind that.
fn write_field(
    store: &mut Rows,
    names: &Names,
    rows: &[Opened],
    id: u32,
    key: Code,
    field: u32,
    near: &mut u32,
)
    requires packed { ArePacked rows.now }
    requires ids { HasIds id (Some store.old) }
    requires within { field < store.old.width }
    ensures { store.new ≡ with_rows store.old (with_field_shown names.now (value_in rows.now) (2 + id + field) key field store.old.rows) }
{
    if let Some(row) = names.row_near(NodePlace::of_row(2 + id + field, key), *near) {
        *near = row.wrapping_add(1);
        store.set_field(key, field, row_value(rows, row));
    }
}

/// The value of a row of the plan, and nothing past the end.
fn row_value(rows: &[Opened], row: u32) -> Code
    requires { ArePacked rows.now }
    ensures { result ≡ value_in rows.now row }
{
    Code::from_packed(row_word(rows, row))
}

/// The same, packed.
fn row_word(rows: &[Opened], row: u32) -> u64
    requires { ArePacked rows.now }
    ensures word { result ≡ code_in rows.now row }
    ensures is_packed { IsPacked result }
{
    match row_at(rows, row) {
        Some(kept) => kept.code,
        None => 0,
    }
}

fn row_at(rows: &[Opened], row: u32) -> Option<&Opened>
    ensures { option_copied result ≡ slice_get rows.now row }
{
    rows.get(row as usize)
}
