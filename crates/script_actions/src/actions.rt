//! What each action does.

ghost use Rattle.std.specs.Prelude.{◌≡◌, map, false, slice_set, OnOk, IfOk};
ghost use Rattle.values.specs.declared.code.Code.{Code as CodeValue};
ghost use Rattle.store_fields.specs.declared.edit.EditOp.{EditOp as EditValue};
ghost use Rattle.script_meaning.specs.Effects as spec;

use script_draft::{Named, ScriptDraft, add_op};
use script_items::{END_OF_ROWS, ScriptOp};
use std::alloc::{AllocError, Global};
use std::mem;
use store_fields::{Edit, EditOp};
use text_grammar::script::Action;
use values::{Code, Codes};

/// Sets the value at a place, where there is one.
fn set_value(values: &mut [Code], place: usize, value: Code)
    ensures { values.new ≡ slice_set values.old place value }
{
    if place < values.len() {
        values[place] = value;
    }
}

/// A flag for each field, none of them set.
fn no_flags(alloc: Global, fields: &[u32]) -> Result<Vec<bool>, AllocError>
    ensures { IfOk result (λ flags. flags.items ≡ map (λ f. false) fields.now) }
{
    fields.iter().map(|_| false).collect(alloc)
}

/// The operation is at the end of the lane.
fn done(draft: &mut ScriptDraft<'_>, op: ScriptOp) -> Result<(), AllocError>
    ensures { OnOk result (draft.new ≡ spec.done op draft.old) }
{
    add_op(&mut draft.script, op).map_err(|_| AllocError)
}

/// The edit of the store that the path names is at the end of the lane.
fn edited(draft: &mut ScriptDraft<'_>, op: EditOp) -> Result<(), AllocError>
    ensures { OnOk result (draft.new ≡ spec.edited op draft.old) }
{
    let store = draft.named.id();
    done(draft, ScriptOp::Change(Edit { store, op }))
}

/// The key of the row of an edit.
fn row_key(draft: &ScriptDraft<'_>) -> Code
    ensures { result ≡ spec.key_of draft.now }
{
    draft.key.unwrap_or(Code::Empty)
}

/// The fields of an insert begin: each has its start, and none was given.
fn begin_entries(draft: &mut ScriptDraft<'_>, alloc: Global) -> Result<(), AllocError>
    ensures { OnOk result (draft.new ≡ spec.perform Action.BeginEntries draft.old) }
{
    let values = draft.named.starts().to_vec(alloc)?;
    let given = no_flags(alloc, draft.named.fields())?;
    draft.values = values;
    draft.given = given;
    draft.place = END_OF_ROWS;
    Ok(())
}

/// The insert takes the values of its fields.
fn make_insert(draft: &mut ScriptDraft<'_>, alloc: Global) -> Result<(), AllocError>
    ensures { OnOk result (draft.new ≡ spec.perform Action.MakeInsert draft.old) }
{
    let values = mem::replace(&mut draft.values, Vec::new(alloc));
    let key = row_key(draft);
    let place = draft.place;
    edited(
        draft,
        EditOp::Insert {
            key,
            fields: Codes::from_vec(values),
            place,
        },
    )
}

/// Does what an action says.
pub fn perform(draft: &mut ScriptDraft<'_>, alloc: Global, action: Action) -> Result<(), AllocError>
    ensures { OnOk result (draft.new ≡ spec.perform action draft.old) }
{
    match action {
        Action::BeginPath => {
            draft.named = Named::Nothing;
            draft.key = None;
            Ok(())
        }
        Action::BeginEntries => begin_entries(draft, alloc),
        Action::AddValue => {
            set_value(draft.values.as_mut_slice(), draft.field, draft.literal);
            Ok(())
        }
        Action::MakeSet => {
            let id = draft.named.id();
            let key = draft.key;
            let code = draft.literal;
            done(draft, ScriptOp::Set { id, key, code })
        }
        Action::MakeGet => {
            let id = draft.named.id();
            let key = draft.key;
            done(draft, ScriptOp::Get { id, key })
        }
        Action::MakePump => done(draft, ScriptOp::Pump),
        Action::MakeDispose => {
            let owner = draft.named.owner();
            done(draft, ScriptOp::Dispose { owner })
        }
        Action::MakeInsert => make_insert(draft, alloc),
        Action::MakeRemove => {
            let key = row_key(draft);
            edited(draft, EditOp::Remove { key })
        }
        Action::MakeMove => {
            let key = row_key(draft);
            let place = draft.place;
            edited(draft, EditOp::Move { key, place })
        }
    }
}
