//! One edit.
ghost use Rattle.std.specs.Prelude.{◌≡◌, ◌≤◌, length, IfOk, OnOk};
ghost use Rattle.std.specs.List.{All, IsDistinct};
ghost use Rattle.values.specs.Evaluation.{is_same};
ghost use Rattle.component_items.specs.declared.component.Component.{Component as ComponentValue};
ghost use Rattle.store_fields.specs.Edits.{edit, edited, keys, with_rows};
ghost use Rattle.held_state.specs.State.{IsOf, with_held};
ghost use Rattle.run_meaning.specs.Edits.{change, held_changed};

use held_state::Held;
use std::alloc::Global;
use store_fields::{Edit, EditOp, Rows, Verdict};
use values::NoMemory;

/// Makes an edit. One of what is no live store is absent, and changes nothing.
pub(crate) fn make_edit(alloc: Global, held: &mut Held, edit: &Edit) -> Result<Verdict, NoMemory>
    ensures held { OnOk result (held.new ≡ with_held held.old (held_changed edit.now held.old.held)) }
    ensures fits { OnOk result ((component : ComponentValue) → IsOf component held.old → IsOf component held.new) }
    ensures told { IfOk result (λ verdict. verdict ≡ (change edit.now held.old.held).verdict) }
{
    match held.store(edit.store) {
        Some(rows) => edit_rows(alloc, rows, &edit.op),
        None => Ok(Verdict::Absent),
    }
}

/// Makes an edit of these rows.
fn edit_rows(alloc: Global, rows: &mut Rows, op: &EditOp) -> Result<Verdict, NoMemory>
    ensures edit { IfOk result (λ verdict. edited rows.new.rows verdict ≡ edit rows.old.max rows.old.width rows.old.rows op.now) }
    ensures same { rows.new ≡ with_rows rows.old rows.new.rows }
    ensures few { OnOk result (length rows.new.rows ≤ rows.old.max) }
    ensures wide { OnOk result (All (λ row. length row.fields ≡ rows.old.width) rows.new.rows) }
    ensures distinct { OnOk result (IsDistinct is_same (keys rows.new.rows)) }
{
    let copied = op.copy(alloc)?;
    let verdict = rows.edit(copied)?;
    let _count = rows.count();
    Ok(verdict)
}
