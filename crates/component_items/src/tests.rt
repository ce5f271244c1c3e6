//! Worked rows, with ample memory.
ghost use Rattle.std.specs.Prelude.{◌≡◌, ◌∷◌, [], IfOk, pos};
ghost use Rattle.component_items.specs.Worked.{in_area, element as worked_element, items as worked_items};

use crate::{Attr, Attrs, Component, Item, Items};
use std::alloc::Global;
use std::test::Fail;
use values::{Code, Codes, Expr, NoMemory, Numbers, Texts};

/// A table with twelve texts, the empty one among them.
fn texts(alloc: Global) -> Result<Texts, Fail> {
    let mut texts = Texts::new(alloc)?;
    for text in ["a", "b", "c", "d", "e", "f", "g", "h", "i", "j", "k"] {
        texts.add(text)?;
    }
    Ok(texts)
}

/// A store with two fields.
fn store(alloc: Global) -> Result<Item, NoMemory>
    ensures { IfOk result (λ item. item ≡ Item.Store 4 7 3 (8 ∷ 9 ∷ []) (Code.Empty ∷ Code.Number (pos 1) ∷ [])) }
{
    let mut fields = Numbers::new(alloc);
    fields.push(8)?;
    fields.push(9)?;
    let mut starts = Codes::new(alloc);
    starts.push(Code::Empty)?;
    starts.push(Code::Number(1))?;
    Ok(Item::Store {
        id: 4,
        name: 7,
        max: 3,
        fields,
        starts,
    })
}

/// A store, and an area with a load.
fn inner_items(alloc: Global) -> Result<Items, NoMemory>
    ensures { IfOk result (λ items. items ≡ in_area) }
{
    let mut innermost = Items::new(alloc);
    innermost.push(Item::Load {
        id: 9,
        name: 11,
        resource: 1,
        key: Expr::Read(0),
    })?;
    let mut items = Items::new(alloc);
    items.push(store(alloc)?)?;
    items.push(Item::Area {
        id: 8,
        name: 10,
        owner: 2,
        items: innermost,
    })?;
    Ok(items)
}

/// An element with a shown attribute, around an area with those.
fn element(alloc: Global) -> Result<Item, NoMemory>
    ensures { IfOk result (λ item. item ≡ worked_element) }
{
    let mut items = Items::new(alloc);
    items.push(Item::Area {
        id: 3,
        name: 6,
        owner: 1,
        items: inner_items(alloc)?,
    })?;
    items.push(Item::Text { text: 0 })?;
    let mut attrs = Attrs::new(alloc);
    attrs.push(Attr::Bare { name: 4 })?;
    attrs.push(Attr::Shown {
        name: 5,
        id: 2,
        expr: Expr::Read(0),
    })?;
    Ok(Item::Element {
        tag: 3,
        closed: true,
        attrs,
        items,
    })
}

/// A signal, a resource, and that element.
fn items(alloc: Global) -> Result<Items, NoMemory>
    ensures { IfOk result (λ items. items ≡ worked_items) }
{
    let mut items = Items::new(alloc);
    items.push(Item::Signal {
        id: 0,
        name: 1,
        start: Code::Empty,
    })?;
    items.push(Item::Resource {
        id: 1,
        name: 2,
        after: 0,
        keys: Codes::new(alloc),
        values: Codes::new(alloc),
    })?;
    items.push(element(alloc)?)?;
    Ok(items)
}

/// The component of these, which has all its texts.
fn component(alloc: Global) -> Result<Option<Component>, Fail> {
    let items = items(alloc)?;
    let texts = texts(alloc)?;
    if texts.len() != 12 {
        return Ok(None);
    }
    Ok(Some(Component::new(texts, items)))
}

#[test]
fn an_id_has_its_owner_and_its_path(rt: HostRuntime) -> Result<(), Fail> {
    let alloc = rt.alloc();
    let mut component = component(alloc)?.expect(&rt, "all twelve texts");
    assert_eq!(rt; component.items().len(), 3);
    let rows: [(u32, u32, &[u32]); 11] = [
        (0, 0, &[1]),
        (1, 0, &[2]),
        (2, 0, &[]),
        (3, 0, &[6]),
        (4, 1, &[6, 7]),
        (5, 1, &[6]),
        (6, 1, &[6, 8]),
        (7, 1, &[6, 9]),
        (8, 1, &[6, 10]),
        (9, 2, &[6, 10, 11]),
        (10, 2, &[6, 10]),
    ];
    for (id, owner, path) in rows {
        assert_eq!(rt; component.owner_of(id), Some(owner));
        let found = component.path_of(alloc, id)?;
        assert_eq!(rt; found.as_ref().map(|found| found.as_slice()), Some(path));
    }
    for id in [11, u32::MAX] {
        assert_eq!(rt; component.owner_of(id), None);
        assert!(rt; component.path_of(alloc, id)?.is_none());
    }
    assert_eq!(rt; component.add_text("l")?, 12);
    assert_eq!(rt; component.add_text("k")?, 11);
    assert_eq!(rt; component.texts().len(), 13);
    Ok(())
}
