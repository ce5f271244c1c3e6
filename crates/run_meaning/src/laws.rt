//! Laws of the definitions. Each is the contract of a function that does nothing.
ghost use Rattle.std.specs.Prelude.{◌≡◌, ◌⊎◌, ◌↔◌, ◌≤◌, ℕ, true, false, Some, None, is_some, Option as OptionOf, List, length, sum_by};
ghost use Rattle.values.specs.declared.code.Code.{Code as CodeValue};
ghost use Rattle.values.specs.declared.plan.Noted.{Noted as NotedValue};
ghost use Rattle.values.specs.declared.plan.Pumped.{Pumped as PumpedValue};
ghost use Rattle.values.specs.Plan.{IsLawful};
ghost use Rattle.component_items.specs.declared.component.Component.{Component as ComponentValue};
ghost use Rattle.script_items.specs.declared.operation.ScriptOp.{ScriptOp as OpValue};
ghost use Rattle.run_items.specs.declared.answer.Reply.TheVariants as reply;
ghost use Rattle.component_items.specs.Kept.{IsKept};
ghost use Rattle.plain_evaluation.specs.Changed.{StoresFit};
ghost use Rattle.plain_evaluation.specs.Fits.{Fits};
ghost use Rattle.plain_evaluation.specs.Held.{Held, first_held, is_live, rows_held};
ghost use Rattle.plain_evaluation.specs.Killed.{going_with, OwnersFit};
ghost use Rattle.plan_meaning.specs.There.{has_key};
ghost use Rattle.plan_meaning.specs.Told.{kind_of_id, owner_of_id, store_of_id};
ghost use Rattle.run_meaning.specs.Causes.{Caused, IsSpent, PumpedBy};
ghost use Rattle.run_meaning.specs.Explained.{Explained};
ghost use Rattle.run_meaning.specs.Lane.{Done, numbers};
ghost use Rattle.run_meaning.specs.Merge.{NotedOnce};
ghost use Rattle.run_meaning.specs.Opened.{Opened, at_row, at_none, at_dead, area_of, dead_owners, opened_of};
ghost use Rattle.run_meaning.specs.Phase.{Phase, IsJournal, disposed_before};
ghost use Rattle.run_meaning.specs.Run.{Runs, Settled, phases_of, held_arrived};
ghost use Rattle.run_meaning.specs.Words.{In, times};
ghost use Rattle.run_items.specs.declared.limits.TheConstants.{LAST_NUMBER};

/// In a phase of one lane nothing is busy, nothing is marked meanwhile, and no effect is left, unless all numbers
/// are spent.
pub fn one_lane_is_not_disturbed()
    ensures busy { (past : List Phase) (p : Phase) (before : List Done) (x : OpValue) (n : ℕ) → length p.lanes ≤ 1 → Caused past p 1 before x (reply.Busy n) → ⊥ }
    ensures again { (past : List Phase) (p : Phase) (before : List Done) (x : OpValue) (n : ℕ) → length p.lanes ≤ 1 → Caused past p 1 before x (reply.Again n) → ⊥ }
    ensures left { (p : Phase) (before : List Done) (x : PumpedValue) → length p.lanes ≤ 1 → PumpedBy p 1 before x → ((k : ℕ) × IsSpent p k) ⊎ (x.left ≡ 0) }
{}

/// All numbers are spent only where the journal has that many entries.
pub fn spent_phases_are_full()
    ensures { (p : Phase) (k : ℕ) → IsJournal p.opened p.drawn p.entries → IsSpent p k → LAST_NUMBER ≤ length p.entries }
{}

/// No two replies have one number.
pub fn numbers_are_told_once()
    ensures { (p : Phase) → IsJournal p.opened p.drawn p.entries → NotedOnce p → (n : ℕ) → sum_by (λ lane. times n (numbers lane)) p.lanes ≤ 1 }
{}

/// What explains a value within bounds explains it within wider ones.
pub fn wider_bounds_explain()
    ensures { (o : Opened) (es : List NotedValue) (low wider : ℕ → ℕ) (high : OptionOf ℕ) (n : ℕ) (v : CodeValue) → ((row : ℕ) → wider row ≤ low row) → Explained o es low high n v → Explained o es wider None n v }
{}

/// The owners of an area, by the parents that the plan gives them, are those that a disposal takes by the text.
pub fn areas_are_what_disposals_take()
    ensures { (component : ComponentValue) (held : Held) (area n : ℕ) → IsKept component → In n (area_of (opened_of component held) area) ↔ In n (going_with component area).owners }
{}

/// Behind each phase of a run the owners that are dead are those that were disposed so far, each once.
pub fn the_dead_were_disposed()
    ensures was { (component : ComponentValue) (keys : ℕ → OptionOf CodeValue) (steps : List Settled) (last : Held) (n : ℕ) → IsKept component → Runs component (held_arrived keys (first_held component)) steps last → In n (dead_owners last) ↔ In n (disposed_before (phases_of steps)) }
    ensures once { (component : ComponentValue) (keys : ℕ → OptionOf CodeValue) (steps : List Settled) (last : Held) (n : ℕ) → IsKept component → Runs component (held_arrived keys (first_held component)) steps last → times n (disposed_before (phases_of steps)) ≤ 1 }
{}

/// What a dead owner owned stands for that. Of a live owner, what has a value for each row of a store stands for no
/// row exactly where the store has no row with the key, and all else that has a value stands for a row of the plan.
pub fn ids_stand_for_what_is_there()
    ensures dead { (component : ComponentValue) (held : Held) (id : ℕ) (key : OptionOf CodeValue) → is_live held (owner_of_id component id) ≡ false → (opened_of component held).target id key ≡ at_dead (owner_of_id component id) }
    ensures no_row { (component : ComponentValue) (held : Held) (id store : ℕ) (key : CodeValue) → IsKept component → Fits component held → OwnersFit component held → is_some (kind_of_id component id) ≡ true → is_live held (owner_of_id component id) ≡ true → store_of_id component id ≡ Some store → ((opened_of component held).target id (Some key) ≡ at_none) ↔ (has_key (rows_held held store) key ≡ false) }
    ensures row { (component : ComponentValue) (held : Held) (id : ℕ) → IsKept component → Fits component held → OwnersFit component held → is_some (kind_of_id component id) ≡ true → is_live held (owner_of_id component id) ≡ true → store_of_id component id ≡ None → (row : ℕ) × ((opened_of component held).target id None ≡ at_row row) }
{}

/// Each state of a run fits its component: its stores, and an owner is live only where the one around it is.
pub fn states_of_a_run_fit()
    ensures stores { (component : ComponentValue) (keys : ℕ → OptionOf CodeValue) (steps : List Settled) (last : Held) → IsKept component → Runs component (held_arrived keys (first_held component)) steps last → Fits component last }
    ensures most { (component : ComponentValue) (keys : ℕ → OptionOf CodeValue) (steps : List Settled) (last : Held) → IsKept component → Runs component (held_arrived keys (first_held component)) steps last → StoresFit component last }
    ensures owners { (component : ComponentValue) (keys : ℕ → OptionOf CodeValue) (steps : List Settled) (last : Held) → IsKept component → Runs component (held_arrived keys (first_held component)) steps last → OwnersFit component last }
{}

/// So each phase opens with a lawful plan.
pub fn phases_open_with_lawful_plans()
    ensures { (component : ComponentValue) (keys : ℕ → OptionOf CodeValue) (steps : List Settled) (last : Held) → IsKept component → Runs component (held_arrived keys (first_held component)) steps last → IsLawful (opened_of component last).plan }
{}
