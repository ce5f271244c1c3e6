//! A worked page, with ample memory.
ghost use Rattle.std.specs.Prelude.{◌≡◌, ◌∷◌, [], true, IfOk};
ghost use Rattle.plain_evaluation.specs.Rows.{titles};

use crate::{held_page_bytes, page_bytes};
use component_items::{Attrs, Component, Item, Items};
use held_state::Held;
use std::alloc::Global;
use std::test::Fail;
use store_fields::{EditOp, Verdict};
use values::{Code, Codes, Expr, NoMemory, Numbers, Texts};

/// A table with seven texts, the empty one among them.
fn texts(alloc: Global) -> Result<Texts, Fail> {
    let mut texts = Texts::new(alloc)?;
    for text in ["items", "title", "ul", "li", "c", "b"] {
        texts.add(text)?;
    }
    Ok(texts)
}

fn one(alloc: Global, item: Item) -> Result<Items, NoMemory>
    ensures { IfOk result (λ items. items ≡ item ∷ []) }
{
    let mut items = Items::new(alloc);
    items.push(item)?;
    Ok(items)
}

fn code(alloc: Global, code: Code) -> Result<Codes, NoMemory>
    ensures { IfOk result (λ codes. codes ≡ code ∷ []) }
{
    let mut codes = Codes::new(alloc);
    codes.push(code)?;
    Ok(codes)
}

/// `store items max 4 { title = "" }`
fn store(alloc: Global) -> Result<Item, NoMemory>
    ensures { IfOk result (λ item. item ≡ Item.Store 0 1 4 (2 ∷ []) (Code.Word 0 ∷ [])) }
{
    let mut fields = Numbers::new(alloc);
    fields.push(2)?;
    Ok(Item::Store {
        id: 0,
        name: 1,
        max: 4,
        fields,
        starts: code(alloc, Code::Word(0))?,
    })
}

/// `<li>{row.title}</li>`
fn row(alloc: Global) -> Result<Item, NoMemory>
    ensures { IfOk result (λ item. item ≡ Item.Element 4 true [] (Item.Shown 4 (Expr.Read 2) ∷ [])) }
{
    let shown = Item::Shown {
        id: 4,
        expr: Expr::Read(2),
    };
    Ok(Item::Element {
        tag: 4,
        closed: true,
        attrs: Attrs::new(alloc),
        items: one(alloc, shown)?,
    })
}

/// `<ul>each items { .. }</ul>`
fn list(alloc: Global) -> Result<Item, NoMemory>
    ensures { IfOk result (λ item. item ≡ Item.Element 3 true [] (Item.Each 3 0 (Item.Element 4 true [] (Item.Shown 4 (Expr.Read 2) ∷ []) ∷ []) ∷ [])) }
{
    let each = Item::Each {
        id: 3,
        store: 0,
        items: one(alloc, row(alloc)?)?,
    };
    Ok(Item::Element {
        tag: 3,
        closed: true,
        attrs: Attrs::new(alloc),
        items: one(alloc, each)?,
    })
}

fn items(alloc: Global) -> Result<Items, NoMemory>
    ensures { IfOk result (λ items. items ≡ titles.items) }
{
    let mut items = one(alloc, store(alloc)?)?;
    items.push(list(alloc)?)?;
    Ok(items)
}

/// The component of these, which has all its texts.
fn component(alloc: Global) -> Result<Option<Component>, Fail> {
    let items = items(alloc)?;
    let texts = texts(alloc)?;
    if texts.len() != 7 {
        return Ok(None);
    }
    Ok(Some(Component::new(texts, items)))
}

fn insert(alloc: Global, held: &mut Held, key: i32, title: u32) -> Result<bool, NoMemory> {
    let op = EditOp::Insert {
        key: Code::Number(key),
        fields: code(alloc, Code::Word(title))?,
        place: u32::MAX,
    };
    match held.store(0) {
        None => Ok(false),
        Some(rows) => Ok(rows.edit(op)? == Verdict::Done),
    }
}

#[test]
fn an_each_stands_there_for_each_row(rt: HostRuntime) -> Result<(), Fail> {
    let alloc = rt.alloc();
    let component = component(alloc)?.expect(&rt, "all seven texts");
    let mut held = Held::first(alloc, &component)?;
    let page = page_bytes(alloc, &component)?;
    assert_eq!(rt; page.as_slice(), b"<ul></ul>".as_slice());
    assert!(rt; insert(alloc, &mut held, 3, 5)?);
    assert!(rt; insert(alloc, &mut held, 2, 6)?);
    let page = held_page_bytes(alloc, &component, &held)?;
    assert_eq!(rt;
        page.as_slice(),
        b"<ul><li>c</li><li>b</li></ul>".as_slice()
    );
    held.kill(0);
    let page = held_page_bytes(alloc, &component, &held)?;
    assert!(rt; page.is_empty());
    Ok(())
}
