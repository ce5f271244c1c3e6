//! The loads of a worked component, with ample memory.
ghost use Rattle.std.specs.Prelude.{◌≡◌, ◌∷◌, [], IfOk};
ghost use Rattle.load_polls.specs.Worked.{two_loads};

use crate::Loads;
use component_items::{Component, Item, Items};
use std::alloc::Global;
use std::test::Fail;
use values::{Code, Codes, Expr, NoMemory, Texts};

/// A table with five texts, the empty one among them.
fn texts(alloc: Global) -> Result<Texts, Fail> {
    let mut texts = Texts::new(alloc)?;
    for text in ["id", "user", "u", "m"] {
        texts.add(text)?;
    }
    Ok(texts)
}

fn one_code(alloc: Global, code: Code) -> Result<Codes, NoMemory>
    ensures { IfOk result (λ codes. codes ≡ code ∷ []) }
{
    let mut codes = Codes::new(alloc);
    codes.push(code)?;
    Ok(codes)
}

/// A load of the resource 1, whose key reads this id.
fn load(id: u32, name: u32, read: u32) -> Item
    ensures { result ≡ Item.Load id name 1 (Expr.Read read) }
{
    Item::Load {
        id,
        name,
        resource: 1,
        key: Expr::Read(read),
    }
}

/// A signal, a resource, and two loads of it. The key of the second reads the first.
fn items(alloc: Global) -> Result<Items, NoMemory>
    ensures { IfOk result (λ items. items ≡ two_loads) }
{
    let mut items = Items::new(alloc);
    items.push(Item::Signal {
        id: 0,
        name: 1,
        start: Code::Number(1),
    })?;
    items.push(Item::Resource {
        id: 1,
        name: 2,
        after: 1,
        keys: one_code(alloc, Code::Number(1))?,
        values: one_code(alloc, Code::Number(7))?,
    })?;
    items.push(load(2, 3, 0))?;
    items.push(load(4, 4, 2))?;
    Ok(items)
}

/// The component of these, which has all its texts.
fn component(alloc: Global) -> Result<Option<Component>, Fail> {
    let items = items(alloc)?;
    let texts = texts(alloc)?;
    if texts.len() != 5 {
        return Ok(None);
    }
    Ok(Some(Component::new(texts, items)))
}

#[test]
fn a_component_has_its_loads(rt: HostRuntime) -> Result<(), Fail> {
    let alloc = rt.alloc();
    let component = component(alloc)?.expect(&rt, "all five texts");
    let loads = Loads::new(alloc, &component)?;
    assert_eq!(rt; loads.len(), 2);
    Ok(())
}
