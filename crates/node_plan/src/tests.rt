//! A worked layout, with ample memory.
ghost use Rattle.std.specs.Prelude.{◌≡◌, [], ◌∷◌, true, IfOk, OnOk};
ghost use Rattle.plain_evaluation.specs.Rows.{titles};
ghost use Rattle.held_state.specs.State.{IsOf};

use crate::{Laid, lay_out};
use component_items::{Attrs, Component, Item, Items};
use held_state::Held;
use std::alloc::Global;
use std::test::Fail;
use store_fields::EditOp;
use values::{Code, Codes, Expr, NoMemory, Numbers, Texts};

fn texts(alloc: Global) -> Result<Texts, Fail> {
    let mut texts = Texts::new(alloc)?;
    for text in ["items", "title", "ul", "li", "c", "b"] {
        texts.add(text)?;
    }
    Ok(texts)
}

fn code(alloc: Global, code: Code) -> Result<Codes, NoMemory>
    ensures { IfOk result (λ codes. codes ≡ code ∷ []) }
{
    let mut codes = Codes::new(alloc);
    codes.push(code)?;
    Ok(codes)
}

/// A store of one field, with the id 0.
fn store(alloc: Global) -> Result<Item, NoMemory>
    ensures { IfOk result (λ item. item ≡ Item.Store 0 1 4 (2 ∷ []) (Code.Word 0 ∷ [])) }
{
    let mut fields = Numbers::new(alloc);
    fields.push(2)?;
    Ok(Item::Store {
        id: 0,
        name: 1,
        max: 4,
        fields,
        starts: code(alloc, Code::Word(0))?,
    })
}

/// An element around items.
fn element(alloc: Global, tag: u32, items: Items) -> Item
    ensures { result ≡ Item.Element tag true [] items }
{
    Item::Element {
        tag,
        closed: true,
        attrs: Attrs::new(alloc),
        items,
    }
}

/// One item.
fn one(alloc: Global, item: Item) -> Result<Items, NoMemory>
    ensures { IfOk result (λ items. items ≡ item ∷ []) }
{
    let mut items = Items::new(alloc);
    items.push(item)?;
    Ok(items)
}

/// The store, and a list that shows the field of each of its rows.
fn items(alloc: Global) -> Result<Items, NoMemory>
    ensures { IfOk result (λ items. items ≡ titles.items) }
{
    let shown = Item::Shown {
        id: 4,
        expr: Expr::Read(2),
    };
    let inner = element(alloc, 4, one(alloc, shown)?);
    let each = Item::Each {
        id: 3,
        store: 0,
        items: one(alloc, inner)?,
    };
    let list = element(alloc, 3, one(alloc, each)?);
    let mut items = one(alloc, store(alloc)?)?;
    items.push(list)?;
    Ok(items)
}

/// The component of these, which has all its texts.
fn component(alloc: Global) -> Result<Option<Component>, Fail> {
    let items = items(alloc)?;
    let texts = texts(alloc)?;
    if texts.len() != 7 {
        return Ok(None);
    }
    Ok(Some(Component::new(texts, items)))
}

/// The state at the start.
fn first(alloc: Global, component: &Component) -> Result<Held, NoMemory>
    ensures { IfOk result (λ held. IsOf component.now held) }
{
    let _items = component.items();
    Held::first(alloc, component)
}

/// Puts a row with the key at the end of the store.
fn insert(alloc: Global, _component: &Component, held: &mut Held, key: i32) -> Result<(), NoMemory>
    requires { IsOf _component.now held.old }
    ensures { OnOk result (IsOf _component.now held.new) }
{
    let Some(rows) = held.store(0) else {
        return Ok(());
    };
    rows.edit(EditOp::Insert {
        key: Code::Number(key),
        fields: code(alloc, Code::Word(5))?,
        place: 9,
    })?;
    rows.count();
    Ok(())
}

/// The layout with two rows.
fn laid(alloc: Global, component: &Component) -> Result<Laid, NoMemory> {
    let mut held = first(alloc, component)?;
    insert(alloc, component, &mut held, 3)?;
    insert(alloc, component, &mut held, 2)?;
    lay_out(alloc, component, &held)
}

#[test]
fn two_rows_are_laid_out(rt: HostRuntime) -> Result<(), Fail> {
    let alloc = rt.alloc();
    let component = component(alloc)?.expect(&rt, "all seven texts");
    let Laid { plan, names } = laid(alloc, &component)?;
    assert_eq!(rt; [plan.nodes.len(), plan.owners.len()], [4, 1]);
    let found = [
        names.find_field(2, Code::Number(2)),
        names.find_field(4, Code::Number(3)),
        names.find_field(4, Code::Number(5)),
        names.find(4),
    ];
    assert_eq!(rt; found, [Some(1), Some(2), None, None]);
    assert_eq!(rt; names.len(), 4);
    Ok(())
}
