//! Laws of what rows show. Each is the contract of a function that does nothing.
ghost use Rattle.std.specs.Prelude.{◌≡◌, ◌⊎◌, ℕ, List, slice_get, Some, unwrap_or};
ghost use Rattle.values.specs.declared.code.Code.{Code as CodeValue};
ghost use Rattle.values.specs.declared.plan.Kind.{Kind as KindValue};
ghost use Rattle.values.specs.declared.plan.Kind.TheVariants as kind;
ghost use Rattle.values.specs.declared.plan.Noted.{Noted as NotedValue};
ghost use Rattle.values.specs.declared.plan.PlanNode.{PlanNode as NodeValue};
ghost use Rattle.component_items.specs.declared.component.Component.{Component as ComponentValue};
ghost use Rattle.component_items.specs.Kept.{IsKept};
ghost use Rattle.plain_evaluation.specs.Written.{state_of, given, Written, written, written_in};
ghost use Rattle.plan_meaning.specs.Layout.{rows_of, places_of};
ghost use Rattle.held_state.specs.State.{HeldState, IsOf};
ghost use Rattle.run_meaning.specs.Edits.{held_written};
ghost use Rattle.run_meaning.specs.Entries.{last_write};
ghost use Rattle.run_meaning.specs.Opened.{opened_of, opening_code};
ghost use Rattle.held_rows.specs.Shown.{held_shown};

/// Where each row of a signal and of a field has its last write, or the value that the phase opened with, the rows show
/// what the writes of the phase leave of held state.
pub fn rows_show_what_was_written()
    ensures { (component : ComponentValue) (state : HeldState) (es : List NotedValue) (values : ℕ → CodeValue) → IsKept component → IsOf component state
        → ((n : ℕ) (node : NodeValue) → slice_get (opened_of component state.held).plan.nodes n ≡ Some node → (node.kind ≡ kind.Signal) ⊎ (node.kind ≡ kind.Field) → values n ≡ unwrap_or (last_write es n) (opening_code (opened_of component state.held) n))
        → held_shown (places_of (written component state.held)) values state.held ≡ held_written (opened_of component state.held) es }
{}

/// Where the rows show just what is held, each row of a signal and of a field has the value that the text written out in
/// this state gives it.
pub fn rows_show_what_is_held()
    ensures { (component : ComponentValue) (state : HeldState) (values : ℕ → CodeValue) → IsKept component → IsOf component state
        → held_shown (places_of (written component state.held)) values state.held ≡ state.held
        → (row : ℕ) (w : Written) (k : KindValue) (code : CodeValue) → slice_get (rows_of (written_in component (state_of state.held))) row ≡ Some w → w.says ≡ given k code → values row ≡ code }
{}
