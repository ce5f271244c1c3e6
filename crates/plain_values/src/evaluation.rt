//! The value of each place, from the items in text order.
ghost use Rattle.std.specs.Prelude.{◌≡◌, OnOk, IfOk};
ghost use Rattle.values.specs.Evaluation.{value_of};
ghost use Rattle.plain_evaluation.specs.Held.{value_held, rows_held, arrived_held};
ghost use Rattle.plain_evaluation.specs.Place.{of_row};
ghost use Rattle.plain_evaluation.specs.Scratch.{scratch};
ghost use Rattle.plan_lines.specs.Flags.{flag_at};
ghost use Rattle.plain_values.specs.Evaluated.{place_in, seen_in, evaluated, arrived_value, loaded_by, after_attr, after_attrs, after_item, after_items, after_rows, for_each};
ghost use Rattle.plain_values.specs.Seen.{values_seen, row_seen, given_in};

use crate::pairs::resource_pairs;
use crate::place_values::{PlaceValues, ValuePlace};
use crate::rows::{put_rows, row_at};
use component_items::{Attr, Component, Item};
use held_state::Held;
use plan_lines::keyed_ids;
use std::alloc::Global;
use store_fields::Rows;
use values::{Code, Expr, NoMemory};

/// A row of a store.
#[derive(Clone, Copy)]
pub(crate) struct RowAround {
    pub store: u32,
    pub key: Code,
}

/// The value of each place of the component in the state (`docs/SEMANTICS.md`, "Plain evaluation").
pub fn values_of(alloc: Global, component: &Component, held: &Held) -> Result<PlaceValues, NoMemory>
    ensures { IfOk result (λ values. values_seen values ≡ scratch component.now held.now.held) }
{
    let keyed = keyed_ids(alloc, component)?;
    let items = component.items();
    let pairs = resource_pairs(alloc, items)?;
    let evaluation = Evaluation {
        held,
        keyed: keyed.as_slice(),
        pairs: &pairs,
    };
    let mut values = PlaceValues::with_room(alloc, keyed.len())?;
    if held.is_live(0) {
        evaluation.items(items, None, &mut values)?;
    }
    Ok(values)
}

/// What an evaluation looks at: the state, which ids have a place for each row, and the pairs of resources.
#[derive(Drop)]
pub(crate) struct Evaluation<'a> {
    held: &'a Held,
    keyed: &'a [bool],
    pairs: &'a PlaceValues,
}

impl Evaluation<'_> {
    #[cycle(evaluation)]
    fn items(
        &self,
        items: &[Item],
        row: Option<RowAround>,
        values: &mut PlaceValues,
    ) -> Result<(), NoMemory>
        ensures { OnOk result (values_seen values.new ≡ after_items (given_in self.now) items.now (row_seen row) (values_seen values.old)) }
    {
        for item in items {
            self.item(item, row, values)?;
        }
        Ok(())
    }

    #[cycle(evaluation)]
    fn item(
        &self,
        item: &Item,
        row: Option<RowAround>,
        values: &mut PlaceValues,
    ) -> Result<(), NoMemory>
        ensures { OnOk result (values_seen values.new ≡ after_item (given_in self.now) item.now (row_seen row) (values_seen values.old)) }
    {
        match item {
            Item::Signal { id, .. } => values.set(place(*id as usize, row), self.signal(*id)),
            Item::Memo { id, expr, .. } => self.evaluate(*id as usize, expr, row, values),
            Item::Effect { id, expr, .. } => self.evaluate(*id as usize, expr, row, values),
            Item::Resource { .. } => Ok(()),
            Item::Load {
                id,
                resource,
                key,
                ..
            } => {
                self.evaluate(*id as usize + 1, key, row, values)?;
                self.load(*id, *resource, row, values)
            }
            Item::Store { id, .. } => self.store(*id, values),
            Item::Cleanup { .. } => Ok(()),
            Item::Area { owner, items, .. } => {
                if !self.held.is_live(*owner) {
                    return Ok(());
                }
                self.items(items.as_slice(), row, values)
            }
            Item::If { id, cond, items } => {
                self.evaluate(*id as usize, cond, row, values)?;
                self.items(items.as_slice(), row, values)
            }
            Item::Each { store, items, .. } => match self.held.rows(*store) {
                None => Ok(()),
                Some(rows) => self.each(rows, *store, items.as_slice(), values),
            },
            Item::Element { attrs, items, .. } => {
                self.attrs(attrs.as_slice(), row, values)?;
                self.items(items.as_slice(), row, values)
            }
            Item::Text { .. } => Ok(()),
            Item::Shown { id, expr } => self.evaluate(*id as usize, expr, row, values),
        }
    }

    /// The items once for each row of the store.
    #[cycle(evaluation)]
    fn each(
        &self,
        rows: &Rows,
        store: u32,
        items: &[Item],
        values: &mut PlaceValues,
    ) -> Result<(), NoMemory>
        ensures { OnOk result (values_seen values.new ≡ for_each (after_items (given_in self.now) items.now) store rows.now.rows (values_seen values.old)) }
    {
        for at in 0..rows.count() {
            let key = row_at(rows, at).key;
            self.items(items, Some(RowAround { store, key }), values)?;
        }
        Ok(())
    }

    fn attrs(
        &self,
        attrs: &[Attr],
        row: Option<RowAround>,
        values: &mut PlaceValues,
    ) -> Result<(), NoMemory>
        ensures { OnOk result (values_seen values.new ≡ after_attrs (given_in self.now) attrs.now (row_seen row) (values_seen values.old)) }
    {
        for attr in attrs {
            self.attr(attr, row, values)?;
        }
        Ok(())
    }

    fn attr(
        &self,
        attr: &Attr,
        row: Option<RowAround>,
        values: &mut PlaceValues,
    ) -> Result<(), NoMemory>
        ensures { OnOk result (values_seen values.new ≡ after_attr (given_in self.now) attr.now (row_seen row) (values_seen values.old)) }
    {
        match attr {
            Attr::Bare { .. } | Attr::Fixed { .. } => Ok(()),
            Attr::Shown { id, expr, .. } => self.evaluate(*id as usize, expr, row, values),
        }
    }

    /// Gives each field of each row of the store its value.
    fn store(&self, id: u32, values: &mut PlaceValues) -> Result<(), NoMemory>
        ensures { OnOk result (values_seen values.new ≡ after_rows id (rows_held self.now.held.now.held id) (values_seen values.old)) }
    {
        match self.held.rows(id) {
            None => Ok(()),
            Some(rows) => put_rows(rows, id as usize, values),
        }
    }

    /// The value of the signal with the id.
    fn signal(&self, id: u32) -> Code
        ensures { result ≡ value_held self.now.held.now.held id }
    {
        self.held.value(id).unwrap_or(Code::Empty)
    }

    /// Gives the id the value of the expression over the values so far.
    fn evaluate(
        &self,
        id: usize,
        expr: &Expr,
        row: Option<RowAround>,
        values: &mut PlaceValues,
    ) -> Result<(), NoMemory>
        ensures { OnOk result (values_seen values.new ≡ evaluated (given_in self.now) id expr.now (row_seen row) (values_seen values.old)) }
    {
        let code = self.value(expr, row, values);
        values.set(place(id, row), code)
    }

    /// Gives the load the value of its resource for the key that arrived, where that is the value of its key.
    fn load(
        &self,
        id: u32,
        resource: u32,
        row: Option<RowAround>,
        values: &mut PlaceValues,
    ) -> Result<(), NoMemory>
        ensures { OnOk result (values_seen values.new ≡ loaded_by (given_in self.now) id resource (row_seen row) (values_seen values.old)) }
    {
        let key = self.read(id as usize + 1, row, values);
        let code = self.value_arrived(resource, self.arrived(id), key);
        values.set(place(id as usize, row), code)
    }

    /// The value of the resource for the key that arrived, where that is this one.
    fn value_arrived(&self, resource: u32, arrived: Option<Code>, key: Code) -> Code
        ensures { result ≡ arrived_value (λ code. values_seen self.now.pairs.now (of_row resource code)) arrived key }
    {
        match arrived {
            None => Code::Empty,
            Some(code) if code == key => {
                self.pairs
                    .get(ValuePlace::new(resource as usize, Some(code)))
            }
            Some(_) => Code::Empty,
        }
    }

    /// The key that arrived for the load with the id, if one did.
    fn arrived(&self, id: u32) -> Option<Code>
        ensures { result ≡ arrived_held self.now.held.now.held id }
    {
        self.held.arrived(id).unwrap_or(None)
    }

    /// The value of the expression over these values.
    fn value(&self, expr: &Expr, row: Option<RowAround>, values: &PlaceValues) -> Code
        ensures { result ≡ value_of expr.now (seen_in (flag_at self.now.keyed.now) (values_seen values.now) (row_seen row)) }
    {
        match expr {
            Expr::Lit(code) => *code,
            Expr::Read(id) => self.read(*id as usize, row, values),
            Expr::Binary(op, left, right) => {
                let left = self.value(left.get(), row, values);
                let right = self.value(right.get(), row, values);
                op.combine(left, right)
            }
            Expr::If(test, first, second) => {
                if self.value(test.get(), row, values).truth() {
                    self.value(first.get(), row, values)
                } else {
                    self.value(second.get(), row, values)
                }
            }
        }
    }

    /// The value of what the id stands for.
    fn read(&self, id: usize, row: Option<RowAround>, values: &PlaceValues) -> Code
        ensures { result ≡ seen_in (flag_at self.now.keyed.now) (values_seen values.now) (row_seen row) id }
    {
        match row {
            None => values.get(ValuePlace::new(id, None)),
            Some(row) if id == row.store as usize + 1 => row.key,
            Some(row) => values.get(ValuePlace::new(id, self.is_keyed(id).then_some(row.key))),
        }
    }

    /// Whether the id has a place for each row of a store.
    fn is_keyed(&self, id: usize) -> bool
        ensures { result ≡ flag_at self.now.keyed.now id }
    {
        self.keyed.get(id).copied().unwrap_or(false)
    }
}

/// The place of the id in the row, or in none.
pub(crate) fn place(id: usize, row: Option<RowAround>) -> ValuePlace
    ensures { result ≡ place_in (row_seen row) id }
{
    ValuePlace::new(id, row.map(|row| row.key))
}
