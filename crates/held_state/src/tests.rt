//! A worked state, with ample memory.
ghost use Rattle.std.specs.Prelude.{◌≡◌, ◌∷◌, [], IfOk, pos};
ghost use Rattle.component_items.specs.Worked.{in_area, element as worked_element, items as worked_items};

use crate::Held;
use component_items::{Attr, Attrs, Component, Item, Items};
use std::alloc::Global;
use std::test::Fail;
use store_fields::{EditOp, Verdict};
use values::{Code, Codes, Expr, NoMemory, Numbers, Texts};

/// A table with twelve texts, the empty one among them.
fn texts(alloc: Global) -> Result<Texts, Fail> {
    let mut texts = Texts::new(alloc)?;
    for text in ["a", "b", "c", "d", "e", "f", "g", "h", "i", "j", "k"] {
        texts.add(text)?;
    }
    Ok(texts)
}

fn numbers(alloc: Global, first: u32, second: u32) -> Result<Numbers, NoMemory>
    ensures { IfOk result (λ numbers. numbers ≡ first ∷ second ∷ []) }
{
    let mut numbers = Numbers::new(alloc);
    numbers.push(first)?;
    numbers.push(second)?;
    Ok(numbers)
}

fn codes(alloc: Global, first: Code, second: Code) -> Result<Codes, NoMemory>
    ensures { IfOk result (λ codes. codes ≡ first ∷ second ∷ []) }
{
    let mut codes = Codes::new(alloc);
    codes.push(first)?;
    codes.push(second)?;
    Ok(codes)
}

/// A store of two fields, with the id 4.
fn store(alloc: Global) -> Result<Item, NoMemory>
    ensures { IfOk result (λ item. item ≡ Item.Store 4 7 3 (8 ∷ 9 ∷ []) (Code.Empty ∷ Code.Number (pos 1) ∷ [])) }
{
    Ok(Item::Store {
        id: 4,
        name: 7,
        max: 3,
        fields: numbers(alloc, 8, 9)?,
        starts: codes(alloc, Code::Empty, Code::Number(1))?,
    })
}

/// That store, and the area 2 with a load, with the id 9.
fn inner_items(alloc: Global) -> Result<Items, NoMemory>
    ensures { IfOk result (λ items. items ≡ in_area) }
{
    let mut innermost = Items::new(alloc);
    innermost.push(Item::Load {
        id: 9,
        name: 11,
        resource: 1,
        key: Expr::Read(0),
    })?;
    let mut items = Items::new(alloc);
    items.push(store(alloc)?)?;
    items.push(Item::Area {
        id: 8,
        name: 10,
        owner: 2,
        items: innermost,
    })?;
    Ok(items)
}

/// An element with a shown attribute, around the area 1 with those.
fn element(alloc: Global) -> Result<Item, NoMemory>
    ensures { IfOk result (λ item. item ≡ worked_element) }
{
    let mut items = Items::new(alloc);
    items.push(Item::Area {
        id: 3,
        name: 6,
        owner: 1,
        items: inner_items(alloc)?,
    })?;
    items.push(Item::Text { text: 0 })?;
    let mut attrs = Attrs::new(alloc);
    attrs.push(Attr::Bare { name: 4 })?;
    attrs.push(Attr::Shown {
        name: 5,
        id: 2,
        expr: Expr::Read(0),
    })?;
    Ok(Item::Element {
        tag: 3,
        closed: true,
        attrs,
        items,
    })
}

/// A signal, with the id 0, a resource, and that element.
fn items(alloc: Global) -> Result<Items, NoMemory>
    ensures { IfOk result (λ items. items ≡ worked_items) }
{
    let mut items = Items::new(alloc);
    items.push(Item::Signal {
        id: 0,
        name: 1,
        start: Code::Empty,
    })?;
    items.push(Item::Resource {
        id: 1,
        name: 2,
        after: 0,
        keys: Codes::new(alloc),
        values: Codes::new(alloc),
    })?;
    items.push(element(alloc)?)?;
    Ok(items)
}

/// The component of these, which has all its texts.
fn component(alloc: Global) -> Result<Option<Component>, Fail> {
    let items = items(alloc)?;
    let texts = texts(alloc)?;
    if texts.len() != 12 {
        return Ok(None);
    }
    Ok(Some(Component::new(texts, items)))
}

#[test]
fn values_rows_and_keys_change(rt: HostRuntime) -> Result<(), Fail> {
    let alloc = rt.alloc();
    let component = component(alloc)?.expect(&rt, "all twelve texts");
    let mut held = Held::first(alloc, &component)?;
    assert_eq!(rt; held.value(0), Some(Code::Empty));
    held.put(0, Code::Number(7));
    assert_eq!(rt; held.value(0), Some(Code::Number(7)));
    assert_eq!(rt; held.arrived(9), Some(None));
    held.arrive(9, Some(Code::Number(1)));
    assert_eq!(rt; held.arrived(9), Some(Some(Code::Number(1))));
    let rows = held.store(4).expect(&rt, "a live store");
    let verdict = rows.edit(EditOp::Insert {
        key: Code::Number(5),
        fields: codes(alloc, Code::Empty, Code::Empty)?,
        place: 0,
    })?;
    assert_eq!(rt; verdict, Verdict::Done);
    assert_eq!(rt; held.rows(4).map(|rows| rows.count()), Some(1));
    assert!(rt; held.store(0).is_none());
    assert!(rt; held.rows(9).is_none());
    assert_eq!(rt; held.value(9), None);
    assert_eq!(rt; held.arrived(4), None);
    Ok(())
}

#[test]
fn a_disposal_takes_what_is_inside(rt: HostRuntime) -> Result<(), Fail> {
    let alloc = rt.alloc();
    let component = component(alloc)?.expect(&rt, "all twelve texts");
    let mut held = Held::first(alloc, &component)?;
    let whole = held.copy(alloc)?;
    held.kill(2);
    assert_eq!(rt;
        [held.is_live(0), held.is_live(1), held.is_live(2)],
        [true, true, false]
    );
    assert_eq!(rt; held.arrived(9), None);
    assert!(rt; held.rows(4).is_some());
    held.kill(1);
    held.kill(3);
    assert_eq!(rt;
        [held.is_live(0), held.is_live(1), held.is_live(2)],
        [true, false, false]
    );
    assert!(rt; held.rows(4).is_none());
    assert_eq!(rt; held.value(0), Some(Code::Empty));
    assert_eq!(rt;
        [whole.is_live(0), whole.is_live(1), whole.is_live(2)],
        [true, true, true]
    );
    assert_eq!(rt; whole.arrived(9), Some(None));
    Ok(())
}
