//! What each action does.

ghost use Rattle.std.specs.Prelude.{◌≡◌, ◌<◌, ◌^◌, OnOk};
ghost use Rattle.component_meaning.specs.Actions as spec;
ghost use Rattle.component_meaning.specs.Size.{size};

use crate::attributes::{make_bare, make_fixed, make_shown_attribute, name_attribute};
use crate::blocks::{open_area, open_each, open_element, open_if};
use component_draft::Draft;
use component_expressions::{make_binary, make_if, make_literal};
use leaf_items::{
    add_value, begin_entries, make_cleanup, make_effect, make_load, make_memo, make_resource,
    make_shown, make_signal, make_store, make_text,
};
use std::alloc::{AllocError, Global};
use text_grammar::component::Action;

/// Does what an action says.
pub fn perform(draft: &mut Draft, alloc: Global, action: Action) -> Result<(), AllocError>
    requires { size draft.old < 2 ^ 31 }
    ensures { OnOk result (draft.new ≡ spec.perform action draft.old) }
{
    match action {
        Action::BeginExpression => {
            draft.tokens = 0;
            Ok(())
        }
        Action::MakeSignal => make_signal(draft),
        Action::MakeMemo => make_memo(draft),
        Action::MakeEffect => make_effect(draft),
        Action::BeginEntries => {
            begin_entries(draft, alloc);
            Ok(())
        }
        Action::AddValue => add_value(draft),
        Action::MakeResource => make_resource(draft, alloc),
        Action::MakeLoad => make_load(draft),
        Action::MakeStore => make_store(draft, alloc),
        Action::MakeCleanup => make_cleanup(draft),
        Action::MakeText => make_text(draft),
        Action::MakeShown => make_shown(draft),
        Action::OpenArea => open_area(draft, alloc),
        Action::OpenIf => open_if(draft, alloc),
        Action::OpenEach => open_each(draft, alloc),
        Action::OpenElement => open_element(draft, alloc, true),
        Action::OpenVoid => open_element(draft, alloc, false),
        Action::Close => draft.blocks.close(),
        Action::NameAttribute => name_attribute(draft),
        Action::MakeBare => make_bare(draft),
        Action::MakeFixed => make_fixed(draft),
        Action::MakeShownAttribute => make_shown_attribute(draft),
        Action::MakeLiteral => make_literal(draft),
        Action::MakeBinary(op) => make_binary(draft, alloc, op),
        Action::MakeIf => make_if(draft, alloc),
    }
}
