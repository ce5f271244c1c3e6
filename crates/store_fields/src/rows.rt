//! The rows of a store.
ghost use Rattle.std.specs.Prelude.{◌≡◌, ◌<◌, ◌≤◌, ◌↔◌, [], IfOk, OnOk, OnErr, IsSome, length, slice_get};
ghost use Rattle.std.specs.List.{All, IsDistinct};
ghost use Rattle.std.specs.Option.{option_copied};
ghost use Rattle.values.specs.Evaluation.{is_same};
ghost use Rattle.store_fields.specs.Edits.{keys, place_of, edited, inserted, removed, moved, field_set, edit, with_rows, rows_after, verdicts_of};

use crate::edit::{EditOp, Verdict, Verdicts};
use crate::row::Row;
use crate::table::{self, Table};
use indexmap::IndexMap;
use std::alloc::Global;
use std::marker::Model;
use values::{Code, NoMemory, Sequence};

/// The rows of a store, in order, each with a key of its own. Contracts see the list of the rows, with how
/// many there may be at most and how many fields each has. Places are counted from 0, and one at or past the
/// end means the end. A look-up takes the same time however many rows there are, and an edit takes at most
/// the time of the rows that it shifts.
#[derive(Drop)]
pub struct Rows {
    rows: Table,
    max: u32,
    width: u32,
}

impl Model for Rows {
    ghost use Rattle.indexmap.specs.IndexMap.{values};
    ghost use Rattle.store_fields.specs.Edits.{KeyedRows, IsStore};
    ghost use Rattle.store_fields.specs.Table.{IsPaired};

    ghost Value = { KeyedRows };

    ghost view = { λ r. record { rows = values r.rows; max = r.max; width = r.width } };

    ghost invariant = { λ r. IsPaired r.rows.entries × IsStore r.max r.width (values r.rows) };
}

impl Rows {
    /// No rows yet, of at most `max`, each of `width` fields.
    pub fn new(alloc: Global, max: u32, width: u32) -> Result<Rows, NoMemory>
        ensures { IfOk result (λ rows. rows ≡ record { rows = []; max = max; width = width }) }
    {
        Ok(Rows {
            rows: IndexMap::new(alloc),
            max,
            width,
        })
    }

    /// The same rows, in memory of their own.
    pub fn copy(&self, alloc: Global) -> Result<Rows, NoMemory>
        ensures { IfOk result (λ rows. rows ≡ self.now) }
    {
        Ok(Rows {
            rows: table::copy(alloc, &self.rows)?,
            max: self.max,
            width: self.width,
        })
    }

    /// Puts a new row at a place. `Present` where its key is there, else `AtMax` where as many rows are there
    /// as may be; neither changes a row. The others keep their order.
    pub fn insert(&mut self, row: Row, place: u32) -> Result<Verdict, NoMemory>
        requires { length row.fields ≡ self.old.width }
        ensures edit { IfOk result (λ verdict. edited self.new.rows verdict ≡ inserted self.old.max self.old.rows row place) }
        ensures same { self.new ≡ with_rows self.old self.new.rows }
        ensures unchanged { OnErr result (self.new ≡ self.old) }
    {
        table::insert(&mut self.rows, self.max, row, place)
    }

    /// Takes the row with the key out, or tells that it is absent.
    pub fn remove(&mut self, key: Code) -> Verdict
        ensures edit { edited self.new.rows result ≡ removed self.old.rows key }
        ensures same { self.new ≡ with_rows self.old self.new.rows }
    {
        table::remove(&mut self.rows, key)
    }

    /// Takes the row with the key out and puts it at the place in the list of the others, or tells that it is
    /// absent.
    pub fn place(&mut self, key: Code, place: u32) -> Verdict
        ensures edit { edited self.new.rows result ≡ moved self.old.rows key place }
        ensures same { self.new ≡ with_rows self.old self.new.rows }
    {
        table::place(&mut self.rows, key, place)
    }

    /// Changes one field of the row with the key, and nothing else, or tells that the row is absent.
    pub fn set_field(&mut self, key: Code, field: u32, code: Code) -> Verdict
        requires { field < self.old.width }
        ensures edit { edited self.new.rows result ≡ field_set self.old.rows key field code }
        ensures same { self.new ≡ with_rows self.old self.new.rows }
    {
        table::set_field(&mut self.rows, self.width, key, field, code)
    }

    /// Makes one edit. An insert whose fields are not as many as the store's is absent.
    pub fn edit(&mut self, op: EditOp) -> Result<Verdict, NoMemory>
        ensures edit { IfOk result (λ verdict. edited self.new.rows verdict ≡ edit self.old.max self.old.width self.old.rows op) }
        ensures same { self.new ≡ with_rows self.old self.new.rows }
        ensures unchanged { OnErr result (self.new ≡ self.old) }
    {
        table::edit(&mut self.rows, self.max, self.width, op)
    }

    /// Makes the edits in order, and tells what comes of each. A refused edit changes nothing, and those
    /// behind it are made all the same. An insert whose fields are not as many as the store's is absent. All
    /// memory is taken before the first edit.
    pub fn fold(&mut self, alloc: Global, edits: &[EditOp]) -> Result<Verdicts, NoMemory>
        ensures rows { OnOk result (self.new.rows ≡ rows_after self.old.max self.old.width self.old.rows edits.now) }
        ensures verdicts { IfOk result (λ verdicts. verdicts ≡ verdicts_of self.old.max self.old.width self.old.rows edits.now) }
        ensures same { self.new ≡ with_rows self.old self.new.rows }
        ensures unchanged { OnErr result (self.new ≡ self.old) }
    {
        let ops = copies(alloc, edits)?;
        let mut verdicts = Vec::with_capacity(alloc, edits.len())?;
        self.rows.reserve(edits.len())?;
        table::edit_all(&mut self.rows, self.max, self.width, ops, &mut verdicts);
        Ok(Sequence::from_vec(verdicts))
    }

    /// The place of the row with the key.
    pub fn find(&self, key: Code) -> Option<u32>
        ensures { result ≡ place_of key self.now.rows }
    {
        let _max = self.max;
        let place = table::find(&self.rows, key)?;
        Some(place as u32)
    }

    /// The row at a place.
    pub fn row(&self, place: u32) -> Option<&Row>
        ensures row { option_copied result ≡ slice_get self.now.rows place }
        ensures within { IsSome result ↔ (place < length self.now.rows) }
    {
        let (_, row) = self.rows.get_index(place as usize)?;
        Some(row)
    }

    /// How many rows there are.
    pub fn count(&self) -> u32
        ensures count { result ≡ length self.now.rows }
        ensures few { length self.now.rows ≤ self.now.max }
        ensures wide { All (λ row. length row.fields ≡ self.now.width) self.now.rows }
        ensures distinct { IsDistinct is_same (keys self.now.rows) }
    {
        let _max = self.max;
        self.rows.len() as u32
    }
}

/// The edits, in memory of their own.
fn copies(alloc: Global, edits: &[EditOp]) -> Result<Vec<EditOp>, NoMemory>
    ensures { IfOk result (λ ops. ops.items ≡ edits.now) }
{
    let mut ops = Vec::with_capacity(alloc, edits.len())?;
    for op in edits {
        ops.push(op.copy(alloc)?)?;
    }
    Ok(ops)
}
