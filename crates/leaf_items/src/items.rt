//! Items that have no items of their own.

ghost use Rattle.std.specs.Prelude.{◌≡◌, ◌+◌, ◌<◌, ◌^◌, [], ◌∷◌, ◌++◌, OnOk, length};
ghost use Rattle.text_grammar.specs.declared.component.Action.TheVariants as action;
ghost use Rattle.component_meaning.specs.Actions as spec;
ghost use Rattle.component_meaning.specs.Names.{fields_of, id_of};
ghost use Rattle.component_meaning.specs.Size.{size};
ghost use Rattle.component_scope.specs.Scope.{what_of};

use component_draft::{Draft, Keys};
use component_expressions::take_whole;
use component_items::Item;
use component_scope::{Declaration, Fields, Kind, SharedFields};
use std::alloc::{AllocError, Global};
use std::mem;
use values::{Codes, Numbers};

/// Adds the item to the innermost block or element that is open, or else outside of them.
fn with_item(draft: &mut Draft, item: Item) -> Result<(), AllocError>
    ensures { OnOk result (draft.new ≡ spec.with_item item draft.old) }
{
    draft.blocks.add_item(item)
}

/// Adds an item that takes so many ids, from the next one on.
fn with_numbered(draft: &mut Draft, item: Item, count: u32) -> Result<(), AllocError>
    requires { draft.old.next_id + count < 2 ^ 32 }
    ensures { OnOk result (draft.new ≡ spec.with_numbered (λ id. item) count draft.old) }
{
    draft.next_id += count;
    with_item(draft, item)
}

/// The item that is read is seen from here on, with the id that comes next.
pub fn known_as(draft: &mut Draft, kind: Kind) -> Result<(), AllocError>
    requires { draft.old.next_id + 2 + length (fields_of (what_of kind)) < 2 ^ 32 }
    ensures { OnOk result (draft.new ≡ spec.known_as (what_of kind) draft.old) }
{
    let declaration = Declaration::new(draft.name, draft.next_id, kind);
    draft.blocks.declare(declaration)
}

/// The signal that is read is an item.
pub fn make_signal(draft: &mut Draft) -> Result<(), AllocError>
    requires { size draft.old < 2 ^ 31 }
    ensures { OnOk result (draft.new ≡ spec.perform action.MakeSignal draft.old) }
{
    known_as(draft, Kind::Signal)?;
    let signal = Item::Signal {
        id: draft.next_id,
        name: draft.name,
        start: draft.literal,
    };
    with_numbered(draft, signal, 1)
}

/// The memo that is read is an item.
pub fn make_memo(draft: &mut Draft) -> Result<(), AllocError>
    requires { size draft.old < 2 ^ 31 }
    ensures { OnOk result (draft.new ≡ spec.perform action.MakeMemo draft.old) }
{
    known_as(draft, Kind::Memo)?;
    let expr = take_whole(draft);
    let memo = Item::Memo {
        id: draft.next_id,
        name: draft.name,
        expr,
    };
    with_numbered(draft, memo, 1)
}

/// The effect that is read is an item.
pub fn make_effect(draft: &mut Draft) -> Result<(), AllocError>
    requires { size draft.old < 2 ^ 31 }
    ensures { OnOk result (draft.new ≡ spec.perform action.MakeEffect draft.old) }
{
    known_as(draft, Kind::Effect)?;
    let expr = take_whole(draft);
    let effect = Item::Effect {
        id: draft.next_id,
        name: draft.name,
        expr,
    };
    with_numbered(draft, effect, 1)
}

/// The entries of a resource or a store begin.
pub fn begin_entries(draft: &mut Draft, alloc: Global)
    ensures { draft.new ≡ spec.perform action.BeginEntries draft.old }
{
    draft.keys = Keys::new(alloc);
    draft.fields = Fields::new(alloc);
    draft.values = Codes::new(alloc);
}

/// The last literal is the value of the last key, or the start of the last field.
pub fn add_value(draft: &mut Draft) -> Result<(), AllocError>
    ensures { OnOk result (draft.new ≡ spec.perform action.AddValue draft.old) }
{
    if draft.values.push(draft.literal).is_err() {
        return Err(AllocError);
    }
    Ok(())
}

/// The resource that is read is an item, which takes its keys and values.
pub fn make_resource(draft: &mut Draft, alloc: Global) -> Result<(), AllocError>
    requires { size draft.old < 2 ^ 31 }
    ensures { OnOk result (draft.new ≡ spec.perform action.MakeResource draft.old) }
{
    known_as(draft, Kind::Resource)?;
    let keys = mem::replace(&mut draft.keys, Keys::new(alloc));
    let values = mem::replace(&mut draft.values, Codes::new(alloc));
    let resource = Item::Resource {
        id: draft.next_id,
        name: draft.name,
        after: draft.number,
        keys: keys.into_codes(),
        values,
    };
    with_numbered(draft, resource, 1)
}

/// The load that is read is an item.
pub fn make_load(draft: &mut Draft) -> Result<(), AllocError>
    requires { size draft.old < 2 ^ 31 }
    ensures { OnOk result (draft.new ≡ spec.perform action.MakeLoad draft.old) }
{
    known_as(draft, Kind::Load)?;
    let key = take_whole(draft);
    let load = Item::Load {
        id: draft.next_id,
        name: draft.name,
        resource: used_id(draft),
        key,
    };
    with_numbered(draft, load, 2)
}

/// The id of what the item that is read uses.
fn used_id(draft: &Draft) -> u32
    ensures { result ≡ id_of draft.now.used }
{
    match &draft.used {
        None => 0,
        Some(declaration) => declaration.id(),
    }
}

/// The store that is read is an item, which takes its fields and their starts.
pub fn make_store(draft: &mut Draft, alloc: Global) -> Result<(), AllocError>
    requires { size draft.old < 2 ^ 31 }
    ensures { OnOk result (draft.new ≡ spec.perform action.MakeStore draft.old) }
{
    let fields = mem::replace(&mut draft.fields, Fields::new(alloc));
    let listed = fields.listed(alloc)?;
    let count = 2 + listed.len() as u32;
    let fields = SharedFields::new(alloc, fields)?;
    known_as(draft, Kind::Store(fields))?;
    let starts = mem::replace(&mut draft.values, Codes::new(alloc));
    let store = Item::Store {
        id: draft.next_id,
        name: draft.name,
        max: draft.number,
        fields: listed,
        starts,
    };
    with_numbered(draft, store, count)
}

/// The cleanup that is read is an item.
pub fn make_cleanup(draft: &mut Draft) -> Result<(), AllocError>
    ensures { OnOk result (draft.new ≡ spec.perform action.MakeCleanup draft.old) }
{
    with_item(
        draft,
        Item::Cleanup {
            text: draft.written,
        },
    )
}

/// The text that is read is an item.
pub fn make_text(draft: &mut Draft) -> Result<(), AllocError>
    ensures { OnOk result (draft.new ≡ spec.perform action.MakeText draft.old) }
{
    with_item(
        draft,
        Item::Text {
            text: draft.written,
        },
    )
}

/// The value that is shown is an item.
pub fn make_shown(draft: &mut Draft) -> Result<(), AllocError>
    requires { size draft.old < 2 ^ 31 }
    ensures { OnOk result (draft.new ≡ spec.perform action.MakeShown draft.old) }
{
    let expr = take_whole(draft);
    let shown = Item::Shown {
        id: draft.next_id,
        expr,
    };
    with_numbered(draft, shown, 1)
}
