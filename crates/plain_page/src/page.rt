//! The page of a component.
ghost use Rattle.std.specs.Prelude.{◌≡◌, ◌++◌, codes, Some, IfOk, OnOk};
ghost use Rattle.std.specs.List.{flat_map};
ghost use Rattle.html_out.specs.Shown.{text_at, shown};
ghost use Rattle.plain_evaluation.specs.Held.{first_held};
ghost use Rattle.plain_evaluation.specs.Page.{attr_bytes, opening, closing, item_bytes, items_bytes, page_of};
ghost use Rattle.plain_evaluation.specs.Place.{place_at};
ghost use Rattle.plain_page.specs.Buffer.{bytes_of};
ghost use Rattle.plain_values.specs.Seen.{values_seen};
ghost use Rattle.plain_page.specs.Seen.{view_in};

use crate::buffer::Buffer;
use component_items::{Attr, Component, Item};
use held_state::Held;
use plain_values::{PlaceValues, ValuePlace, row_at, values_of};
use std::alloc::Global;
use store_fields::Rows;
use values::{Code, NoMemory, Texts};

/// The bytes of the component's page at the start: signals have their starts, stores no rows, nothing has
/// arrived for a load, and all areas are live (`docs/SEMANTICS.md`, "The page").
pub fn page_bytes(alloc: Global, component: &Component) -> Result<Vec<u8>, NoMemory>
    ensures { IfOk result (λ page. page.items ≡ page_of component.now (first_held component.now)) }
{
    let held = Held::first(alloc, component)?;
    held_page_bytes(alloc, component, &held)
}

/// The bytes of the component's page in this state: each value is that of plain evaluation, dead areas are left
/// out, and what is in an `each` stands there once for each row (`docs/SEMANTICS.md`, "The page").
pub fn held_page_bytes(
    alloc: Global,
    component: &Component,
    held: &Held,
) -> Result<Vec<u8>, NoMemory>
    ensures { IfOk result (λ page. page.items ≡ page_of component.now held.now.held) }
{
    let values = values_of(alloc, component, held)?;
    let writer = Writer {
        texts: component.texts(),
        values: &values,
        held,
    };
    let mut page = Buffer::new(alloc);
    if held.is_live(0) {
        writer.items(&mut page, component.items(), None)?;
    }
    Ok(page.into_bytes())
}

/// What a page shows: the texts of the component, the value of each place, and the state.
#[derive(Drop)]
pub(crate) struct Writer<'a> {
    texts: &'a Texts,
    values: &'a PlaceValues,
    held: &'a Held,
}

impl Writer<'_> {
    /// Items in the row with the key, or in none.
    #[cycle(writing)]
    fn items(&self, page: &mut Buffer, items: &[Item], key: Option<Code>) -> Result<(), NoMemory>
        ensures { OnOk result (bytes_of page.new ≡ bytes_of page.old ++ items_bytes (view_in self.now) items.now key) }
    {
        for item in items {
            self.item(page, item, key)?;
        }
        Ok(())
    }

    #[cycle(writing)]
    fn item(&self, page: &mut Buffer, item: &Item, key: Option<Code>) -> Result<(), NoMemory>
        ensures { OnOk result (bytes_of page.new ≡ bytes_of page.old ++ item_bytes (view_in self.now) item.now key) }
    {
        match item {
            Item::Signal { .. } => Ok(()),
            Item::Memo { .. } => Ok(()),
            Item::Effect { .. } => Ok(()),
            Item::Resource { .. } => Ok(()),
            Item::Load { .. } => Ok(()),
            Item::Store { .. } => Ok(()),
            Item::Cleanup { .. } => Ok(()),
            Item::Area { owner, items, .. } => {
                if !self.held.is_live(*owner) {
                    return Ok(());
                }
                self.items(page, items.as_slice(), key)
            }
            Item::If { id, items, .. } => {
                if !self.value(*id, key).truth() {
                    return Ok(());
                }
                self.items(page, items.as_slice(), key)
            }
            Item::Each { store, items, .. } => match self.held.rows(*store) {
                None => Ok(()),
                Some(rows) => self.each(page, rows, items.as_slice()),
            },
            Item::Element {
                tag,
                closed,
                attrs,
                items,
            } => {
                self.opening(page, *tag, attrs.as_slice(), key)?;
                self.items(page, items.as_slice(), key)?;
                self.closing(page, *tag, *closed)
            }
            Item::Text { text } => page.put_text(self.text(*text)),
            Item::Shown { id, .. } => self.shown(page, *id, key, false),
        }
    }

    /// The items once for each row of the store.
    #[cycle(writing)]
    fn each(&self, page: &mut Buffer, rows: &Rows, items: &[Item]) -> Result<(), NoMemory>
        ensures { OnOk result (bytes_of page.new ≡ bytes_of page.old ++ flat_map (λ row. items_bytes (view_in self.now) items.now (Some row.key)) rows.now.rows) }
    {
        for at in 0..rows.count() {
            let key = row_at(rows, at).key;
            self.items(page, items, Some(key))?;
        }
        Ok(())
    }

    /// What begins an element.
    fn opening(
        &self,
        page: &mut Buffer,
        tag: u32,
        attrs: &[Attr],
        key: Option<Code>,
    ) -> Result<(), NoMemory>
        ensures { OnOk result (bytes_of page.new ≡ bytes_of page.old ++ opening (view_in self.now) key tag attrs.now) }
    {
        page.put(b"<")?;
        page.put(self.text(tag).as_bytes())?;
        self.attrs(page, attrs, key)?;
        page.put(b">")
    }

    /// What ends an element, where it has an end tag.
    fn closing(&self, page: &mut Buffer, tag: u32, closed: bool) -> Result<(), NoMemory>
        ensures { OnOk result (bytes_of page.new ≡ bytes_of page.old ++ closing (view_in self.now) tag closed) }
    {
        if !closed {
            return Ok(());
        }
        page.put(b"</")?;
        page.put(self.text(tag).as_bytes())?;
        page.put(b">")
    }

    fn attrs(&self, page: &mut Buffer, attrs: &[Attr], key: Option<Code>) -> Result<(), NoMemory>
        ensures { OnOk result (bytes_of page.new ≡ bytes_of page.old ++ flat_map (attr_bytes (view_in self.now) key) attrs.now) }
    {
        for attr in attrs {
            self.attr(page, attr, key)?;
        }
        Ok(())
    }

    fn attr(&self, page: &mut Buffer, attr: &Attr, key: Option<Code>) -> Result<(), NoMemory>
        ensures { OnOk result (bytes_of page.new ≡ bytes_of page.old ++ attr_bytes (view_in self.now) key attr.now) }
    {
        match attr {
            Attr::Bare { name } => {
                page.put(b" ")?;
                page.put(self.text(*name).as_bytes())
            }
            Attr::Fixed { name, text } => {
                self.name(page, *name)?;
                page.put_value(self.text(*text))?;
                page.put(b"\"")
            }
            Attr::Shown { name, id, .. } => {
                self.name(page, *name)?;
                self.shown(page, *id, key, true)?;
                page.put(b"\"")
            }
        }
    }

    /// The name of an attribute up to its value.
    fn name(&self, page: &mut Buffer, name: u32) -> Result<(), NoMemory>
        ensures { OnOk result (bytes_of page.new ≡ bytes_of page.old ++ codes " " ++ text_at self.now.texts.now name ++ codes "=\"") }
    {
        page.put(b" ")?;
        page.put(self.text(name).as_bytes())?;
        page.put(b"=\"")
    }

    /// The value of an id, in an attribute's value or as a text.
    fn shown(
        &self,
        page: &mut Buffer,
        id: u32,
        key: Option<Code>,
        in_value: bool,
    ) -> Result<(), NoMemory>
        ensures { OnOk result (bytes_of page.new ≡ bytes_of page.old ++ shown self.now.texts.now in_value (values_seen self.now.values.now (place_at id key))) }
    {
        page.put_code(self.value(id, key), self.texts, in_value)
    }

    /// The value of an id in the row with the key, or in none.
    fn value(&self, id: u32, key: Option<Code>) -> Code
        ensures { result ≡ values_seen self.now.values.now (place_at id key) }
    {
        self.values.get(ValuePlace::new(id as usize, key))
    }

    /// The text of this number. What is not in the table is the empty text.
    fn text(&self, index: u32) -> &str
        ensures { result.now ≡ text_at self.now.texts.now index }
    {
        match self.texts.get(index) {
            Some(text) => text,
            None => "",
        }
    }
}
