//! Blocks and elements.

ghost use Rattle.std.specs.Prelude.{◌≡◌, ◌<◌, ◌^◌, IfOk, OnOk};
ghost use Rattle.text_grammar.specs.declared.component.Action.TheVariants as action;
ghost use Rattle.component_meaning.specs.Actions as spec;
ghost use Rattle.component_meaning.specs.Names.{rows_from, number_with};
ghost use Rattle.component_meaning.specs.Size.{size};
ghost use Rattle.values.specs.Texts.{with_text};

use component_draft::Draft;
use component_expressions::take_whole;
use component_scope::{Kind, Rows};
use leaf_items::known_as;
use std::alloc::{AllocError, Global};

/// The area that is read is open from here on.
pub(crate) fn open_area(draft: &mut Draft, alloc: Global) -> Result<(), AllocError>
    requires { size draft.old < 2 ^ 31 }
    ensures { OnOk result (draft.new ≡ spec.perform action.OpenArea draft.old) }
{
    known_as(draft, Kind::Area)?;
    draft
        .blocks
        .open_area(alloc, draft.next_id, draft.name, draft.next_owner)?;
    draft.next_id += 1;
    draft.next_owner += 1;
    Ok(())
}

/// The `if` that is read is open from here on.
pub(crate) fn open_if(draft: &mut Draft, alloc: Global) -> Result<(), AllocError>
    requires { size draft.old < 2 ^ 31 }
    ensures { OnOk result (draft.new ≡ spec.perform action.OpenIf draft.old) }
{
    let cond = take_whole(draft);
    draft.blocks.open_if(alloc, draft.next_id, cond)?;
    draft.next_id += 1;
    Ok(())
}

/// The `each` that is read is open from here on.
pub(crate) fn open_each(draft: &mut Draft, alloc: Global) -> Result<(), AllocError>
    requires { size draft.old < 2 ^ 31 }
    ensures { OnOk result (draft.new ≡ spec.perform action.OpenEach draft.old) }
{
    let rows = used_rows(draft, alloc)?;
    draft.blocks.open_each(alloc, draft.next_id, rows)?;
    draft.next_id += 1;
    Ok(())
}

/// The store that the item that is read uses.
fn used_rows(draft: &Draft, alloc: Global) -> Result<Rows, AllocError>
    ensures { IfOk result (λ rows. rows ≡ rows_from draft.now.used) }
{
    match &draft.used {
        None => Rows::none(alloc),
        Some(declaration) => declaration.rows(alloc),
    }
}

/// The name of a tag or attribute is a text of the table from here on. Gives its number there.
pub(crate) fn add_spelled(draft: &mut Draft) -> Result<u32, AllocError>
    ensures texts { OnOk result (draft.new ≡ record draft.old { texts = with_text draft.old.spelling.bytes draft.old.texts }) }
    ensures number { IfOk result (λ number. number ≡ number_with draft.old.spelling.bytes draft.old.texts) }
{
    match draft.texts.add(draft.spelling.as_str()) {
        Ok(number) => Ok(number),
        Err(_) => Err(AllocError),
    }
}

/// The element that is read is open from here on. `closed` is whether it has an end tag.
pub(crate) fn open_element(draft: &mut Draft, alloc: Global, closed: bool) -> Result<(), AllocError>
    ensures { OnOk result (draft.new ≡ spec.with_element closed draft.old) }
{
    let tag = add_spelled(draft)?;
    draft.blocks.open_element(alloc, tag, closed)
}
