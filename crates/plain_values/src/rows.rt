//! Rows of stores.
ghost use Rattle.std.specs.Prelude.{◌≡◌, ◌+◌, ◌<◌, ◌^◌, ◌≤◌, Some, length, slice_get, OnOk};
ghost use Rattle.plain_values.specs.Evaluated.{after_fields, after_rows};
ghost use Rattle.plain_values.specs.Seen.{values_seen};

use crate::place_values::{PlaceValues, ValuePlace};
use store_fields::{Row, Rows};
use values::NoMemory;

/// The row at a place.
pub fn row_at(rows: &Rows, place: u32) -> &Row
    requires { place < length rows.now.rows }
    ensures { slice_get rows.now.rows place ≡ Some result.now }
{
    rows.row(place).unwrap()
}

/// Gives each field of each row of the store its value.
pub(crate) fn put_rows(rows: &Rows, store: usize, values: &mut PlaceValues) -> Result<(), NoMemory>
    requires { store < 2 ^ 32 }
    ensures { OnOk result (values_seen values.new ≡ after_rows store rows.now.rows (values_seen values.old)) }
{
    for place in 0..rows.count() {
        put_fields(row_at(rows, place), store + 2, values)?;
    }
    Ok(())
}

/// Gives each field of the row its value. The first has this id.
fn put_fields(row: &Row, first: usize, values: &mut PlaceValues) -> Result<(), NoMemory>
    requires { first ≤ 2 ^ 32 + 2 }
    ensures { OnOk result (values_seen values.new ≡ after_fields first row.now.fields row.now.key (values_seen values.old)) }
{
    let mut id = first;
    for code in row.fields.as_slice() {
        values.set(ValuePlace::new(id, Some(row.key)), *code)?;
        id += 1;
    }
    Ok(())
}
