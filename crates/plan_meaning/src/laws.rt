//! Laws of the definitions. Each is the contract of a function that does nothing.
ghost use Rattle.std.specs.Prelude.{◌≡◌, ◌≢◌, ◌↔◌, ◌<◌, ◌≤◌, ℕ, suc, true, false, List, map, length, slice_get, Some, None, IsSomeAnd};
ghost use Rattle.values.specs.declared.code.Code.{Code as CodeValue};
ghost use Rattle.values.specs.declared.expr.Expr.{Expr as ExprValue};
ghost use Rattle.values.specs.declared.limits.TheConstants.{MOST_NODES};
ghost use Rattle.values.specs.declared.plan.PlanNode.{PlanNode as NodeValue};
ghost use Rattle.values.specs.declared.plan.Kind.TheVariants as kind;
ghost use Rattle.values.specs.Evaluation.{value_of};
ghost use Rattle.values.specs.Plan.{IsLawful, rows_in};
ghost use Rattle.values.specs.PlanValues.{is_derived, value_at, plan_values};
ghost use Rattle.component_items.specs.declared.component.Component.{Component as ComponentValue};
ghost use Rattle.component_items.specs.Kept.{IsKept};
ghost use Rattle.plain_evaluation.specs.Fits.{RowsFit};
ghost use Rattle.plain_evaluation.specs.Place.{Place, outside};
ghost use Rattle.plain_evaluation.specs.Scratch.{scratch_in};
ghost use Rattle.plain_evaluation.specs.Sound.{Among, has_place};
ghost use Rattle.plain_evaluation.specs.Written.{State, Written, place_of, written_in};
ghost use Rattle.plan_meaning.specs.Carried.{AreApart, IsCarried, rows_to};
ghost use Rattle.plan_meaning.specs.Layout.{is_computed, rows_of, places_of, row_of, plan_of};
ghost use Rattle.plan_meaning.specs.Renamed.{renumbered};
ghost use Rattle.plan_meaning.specs.Settled.{AreSettled};
ghost use Rattle.plan_meaning.specs.There.{is_there, AreNested};
ghost use Rattle.plan_meaning.specs.Told.{kind_of_id, owner_of_id};
ghost use Rattle.plan_meaning.specs.Values.{row_values};

/// The plan of a component is lawful, in each state that fits it.
pub fn plans_are_lawful()
    ensures { (component : ComponentValue) (state : State) → IsKept component → RowsFit component state → IsLawful (plan_of component state) }
{}

/// There is one place for each node of the plan, and they are no more than a plan may have.
pub fn nodes_have_places()
    ensures each { (component : ComponentValue) (state : State) → length (places_of (written_in component state)) ≡ length (plan_of component state).nodes }
    ensures few { (component : ComponentValue) (state : State) → IsKept component → RowsFit component state → length (places_of (written_in component state)) ≤ MOST_NODES }
{}

/// The rows are the lines of the text that is written out, and sources come before what is derived.
pub fn rows_are_what_is_written()
    ensures as_many { (ws : List Written) → length (rows_of ws) ≡ length ws }
    ensures there { (ws : List Written) (w : Written) → Among ws w → (row : ℕ) × (slice_get (rows_of ws) row ≡ Some w) }
    ensures no_others { (ws : List Written) (row : ℕ) (w : Written) → slice_get (rows_of ws) row ≡ Some w → Among ws w }
    ensures sources_first { (ws : List Written) (row later : ℕ) (v w : Written) → slice_get (rows_of ws) row ≡ Some v → slice_get (rows_of ws) later ≡ Some w → is_computed v.says ≡ false → is_computed w.says ≡ true → row < later }
{}

/// A place has one row, where it is written out at all, and none exactly where it is not.
pub fn rows_read_back()
    ensures row { (component : ComponentValue) (state : State) → IsKept component → RowsFit component state → AreApart (places_of (written_in component state)) }
    ensures place { (places : List Place) (p : Place) (row : ℕ) → row_of places p ≡ Some row → slice_get places row ≡ Some p }
    ensures there { (ws : List Written) (w : Written) → Among ws w → (row : ℕ) × (row_of (places_of ws) (place_of w) ≡ Some row) }
    ensures none { (ws : List Written) (p : Place) → (row_of (places_of ws) p ≡ None) ↔ (has_place ws p ≡ false) }
{}

/// A place is written out, and so has a row, exactly where the text gives its id a value, its owner is live, and
/// its key is that of a row of the store around it, or there is neither.
pub fn places_are_where_they_are_due()
    ensures written { (component : ComponentValue) (state : State) → IsKept component → RowsFit component state → AreNested component state → (p : Place) → has_place (written_in component state) p ≡ is_there component state p }
    ensures none { (component : ComponentValue) (state : State) → IsKept component → RowsFit component state → AreNested component state → (p : Place) → (row_of (places_of (written_in component state)) p ≡ None) ↔ (is_there component state p ≡ false) }
    ensures row { (component : ComponentValue) (state : State) → IsKept component → RowsFit component state → (row : ℕ) (p : Place) → slice_get (places_of (written_in component state)) row ≡ Some p → is_there component state p ≡ true }
{}

/// What a row is and whose it is, is what the text says of the id of its place, whatever the state.
pub fn rows_are_as_the_text_says()
    ensures { (component : ComponentValue) (state : State) → IsKept component → RowsFit component state → (row : ℕ) (p : Place) (node : NodeValue) → slice_get (places_of (written_in component state)) row ≡ Some p → slice_get (plan_of component state).nodes row ≡ Some node → (kind_of_id component p.id ≡ Some node.kind) × (owner_of_id component p.id ≡ node.owner) }
{}

/// A derived row, over the values of the places of the rows before it, has the value of its own place. So the
/// plan, where its sources have the values of their places, evaluates row by row as the component.
pub fn rows_evaluate_as_their_places()
    ensures each { (component : ComponentValue) (state : State) → IsKept component → RowsFit component state → (row : ℕ) (p : Place) (node : NodeValue) → slice_get (places_of (written_in component state)) row ≡ Some p → slice_get (plan_of component state).nodes row ≡ Some node → is_derived node.kind ≡ true → (values : ℕ → CodeValue) → ((source : ℕ) → source < row → values source ≡ value_at (row_values component state) source) → value_of node.expr values ≡ scratch_in component state p }
    ensures all { (component : ComponentValue) (state : State) → IsKept component → RowsFit component state → plan_values (plan_of component state).nodes (value_at (row_values component state)) ≡ row_values component state }
{}

/// Values of the rows that are settled are those of plain evaluation, at each row but an effect's, and over them
/// each expression has the value of its own place. Those of plain evaluation are settled.
pub fn settled_values_are_plain_evaluation()
    ensures rows { (component : ComponentValue) (state : State) → IsKept component → RowsFit component state → (values : ℕ → CodeValue) → AreSettled component state values → (row : ℕ) (p : Place) (node : NodeValue) → slice_get (places_of (written_in component state)) row ≡ Some p → slice_get (plan_of component state).nodes row ≡ Some node → node.kind ≢ kind.Effect → values row ≡ scratch_in component state p }
    ensures expressions { (component : ComponentValue) (state : State) → IsKept component → RowsFit component state → (values : ℕ → CodeValue) → AreSettled component state values → (row : ℕ) (p : Place) (node : NodeValue) → slice_get (places_of (written_in component state)) row ≡ Some p → slice_get (plan_of component state).nodes row ≡ Some node → is_derived node.kind ≡ true → value_of node.expr values ≡ scratch_in component state p }
    ensures settled { (component : ComponentValue) (state : State) → IsKept component → RowsFit component state → AreSettled component state (value_at (row_values component state)) }
{}

/// A load stands in no row of a store, and behind its row comes that of its key, whose id is the next.
pub fn loads_have_their_keys()
    ensures { (component : ComponentValue) (state : State) → IsKept component → RowsFit component state → (row : ℕ) (p : Place) (node : NodeValue) → slice_get (places_of (written_in component state)) row ≡ Some p → slice_get (plan_of component state).nodes row ≡ Some node → node.kind ≡ kind.Load → (p ≡ outside p.id) × ((key : ℕ) × (row_of (places_of (written_in component state)) (outside (suc p.id)) ≡ Some key) × (row < key) × IsSomeAnd (slice_get (plan_of component state).nodes key) (λ n. n.kind ≡ kind.Memo)) }
{}

/// An effect stands in no row of a store, as a load does. What stands in none was there before, where no area came
/// back to life: so no effect and no load is new in a later layout.
pub fn effects_and_loads_are_not_new()
    ensures effect { (component : ComponentValue) (state : State) → IsKept component → RowsFit component state → (row : ℕ) (p : Place) (node : NodeValue) → slice_get (places_of (written_in component state)) row ≡ Some p → slice_get (plan_of component state).nodes row ≡ Some node → node.kind ≡ kind.Effect → p ≡ outside p.id }
    ensures before { (component : ComponentValue) (state later : State) → IsKept component → RowsFit component state → RowsFit component later → AreNested component state → ((owner : ℕ) → later.live owner ≡ true → state.live owner ≡ true) → (row : ℕ) (p : Place) → slice_get (places_of (written_in component later)) row ≡ Some p → p ≡ outside p.id → (old : ℕ) × (row_of (places_of (written_in component state)) p ≡ Some old) }
{}

/// Of a place in two layouts of one component the node is the same but for the numbers of rows, and what it
/// names is in both.
pub fn layouts_carry_over()
    ensures { (component : ComponentValue) (state later : State) → IsKept component → RowsFit component state → RowsFit component later → IsCarried (places_of (written_in component state)) (places_of (written_in component later)) (plan_of component state).nodes (plan_of component later).nodes }
{}

/// Which row goes to which, by places: a row goes to that of its place, and no two go to one.
pub fn rows_go_to_their_places()
    ensures there { (old new : List Place) (row later : ℕ) (p : Place) → AreApart new → slice_get old row ≡ Some p → slice_get new later ≡ Some p → slice_get (rows_to old new) row ≡ Some (Some later) }
    ensures back { (old new : List Place) (row later : ℕ) → slice_get (rows_to old new) row ≡ Some (Some later) → (p : Place) × (slice_get old row ≡ Some p) × (slice_get new later ≡ Some p) }
    ensures apart { (old new : List Place) (row other later : ℕ) → AreApart old → slice_get (rows_to old new) row ≡ Some (Some later) → slice_get (rows_to old new) other ≡ Some (Some later) → row ≡ other }
{}

/// An expression with new numbers has, over values by the new numbers, the value that it had, and names the rows
/// that it named.
pub fn renumbered_expressions_are_alike()
    ensures value { (number : ℕ → ℕ) (expr : ExprValue) (values : ℕ → CodeValue) → value_of (renumbered number expr) values ≡ value_of expr (λ row. values (number row)) }
    ensures rows { (number : ℕ → ℕ) (expr : ExprValue) → rows_in (renumbered number expr) ≡ map number (rows_in expr) }
{}
