//! Attributes.

ghost use Rattle.std.specs.Prelude.{◌≡◌, ◌+◌, ◌<◌, ◌^◌, OnOk};
ghost use Rattle.text_grammar.specs.declared.component.Action.TheVariants as action;
ghost use Rattle.component_meaning.specs.Actions as spec;
ghost use Rattle.component_meaning.specs.Size.{size};
ghost use Rattle.component_frames.specs.Nest.{taking_numbered};

use crate::blocks::add_spelled;
use component_draft::Draft;
use component_expressions::take_whole;
use component_items::Attr;
use std::alloc::AllocError;

/// Adds the attribute, which takes so many ids, where one may come.
fn with_attr(draft: &mut Draft, attr: Attr, count: u32) -> Result<(), AllocError>
    requires { draft.old.next_id + count < 2 ^ 32 }
    ensures { OnOk result (draft.new ≡ taking_numbered attr count draft.old) }
{
    if !draft.blocks.may_take_attribute() {
        return Ok(());
    }
    draft.blocks.add_attribute(attr)?;
    draft.next_id += count;
    Ok(())
}

/// The name of the attribute that is read is whole.
pub(crate) fn name_attribute(draft: &mut Draft) -> Result<(), AllocError>
    ensures { OnOk result (draft.new ≡ spec.perform action.NameAttribute draft.old) }
{
    draft.name = add_spelled(draft)?;
    Ok(())
}

/// The attribute is its name alone.
pub(crate) fn make_bare(draft: &mut Draft) -> Result<(), AllocError>
    requires { size draft.old < 2 ^ 31 }
    ensures { OnOk result (draft.new ≡ spec.perform action.MakeBare draft.old) }
{
    with_attr(draft, Attr::Bare { name: draft.name }, 0)
}

/// The attribute has the text that was read.
pub(crate) fn make_fixed(draft: &mut Draft) -> Result<(), AllocError>
    requires { size draft.old < 2 ^ 31 }
    ensures { OnOk result (draft.new ≡ spec.perform action.MakeFixed draft.old) }
{
    let attr = Attr::Fixed {
        name: draft.name,
        text: draft.written,
    };
    with_attr(draft, attr, 0)
}

/// The attribute has the value of the expression that was read.
pub(crate) fn make_shown_attribute(draft: &mut Draft) -> Result<(), AllocError>
    requires { size draft.old < 2 ^ 31 }
    ensures { OnOk result (draft.new ≡ spec.perform action.MakeShownAttribute draft.old) }
{
    let expr = take_whole(draft);
    let attr = Attr::Shown {
        name: draft.name,
        id: draft.next_id,
        expr,
    };
    with_attr(draft, attr, 1)
}
