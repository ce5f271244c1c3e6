//! Laws of the definitions. Each is the contract of a function that does nothing.
ghost use Rattle.std.specs.Prelude.{◌≡◌, ◌<◌, ℕ, suc, true, slice_get, Some, Contains};
ghost use Rattle.values.specs.declared.plan.Kind.TheVariants as kind;
ghost use Rattle.values.specs.declared.plan.PlanNode.{PlanNode as NodeValue};
ghost use Rattle.values.specs.Plan.{rows_in};
ghost use Rattle.component_items.specs.declared.component.Component.{Component as ComponentValue};
ghost use Rattle.component_items.specs.Kept.{IsKept};
ghost use Rattle.plain_evaluation.specs.Fits.{RowsFit};
ghost use Rattle.plain_evaluation.specs.Place.{Place, outside};
ghost use Rattle.plain_evaluation.specs.Scratch.{pending_in};
ghost use Rattle.plain_evaluation.specs.Written.{State, Written, loaded, written_in};
ghost use Rattle.plan_meaning.specs.Layout.{rows_of, places_of, row_of, plan_of};
ghost use Rattle.plan_meaning.specs.There.{AreNested};
ghost use Rattle.load_table.specs.Loads.{LoadOf, loads_in, is_live_load, pending_among};

/// A row whose expression names the row of a load comes behind the row of that load's key.
pub fn what_names_a_load_stands_behind_its_key()
    ensures { (component : ComponentValue) (state : State) → IsKept component → RowsFit component state → (row : ℕ) (node : NodeValue) → slice_get (plan_of component state).nodes row ≡ Some node → (named : ℕ) → Contains (rows_in node.expr) named → (p : Place) (load : NodeValue) → slice_get (places_of (written_in component state)) named ≡ Some p → slice_get (plan_of component state).nodes named ≡ Some load → load.kind ≡ kind.Load → (key : ℕ) → row_of (places_of (written_in component state)) (outside (suc p.id)) ≡ Some key → key < row }
{}

/// The pending loads are those of the table that are live and whose key has not arrived, in order.
pub fn pending_loads_are_those_of_the_table()
    ensures { (component : ComponentValue) (state : State) → IsKept component → AreNested component state → pending_in component state ≡ pending_among component state (loads_in component) }
{}

/// Each live load of the table has its row, where its pairs and the key that arrived are written; and each row of a
/// load is that of a live one of the table.
pub fn loads_have_rows()
    ensures row { (component : ComponentValue) (state : State) → IsKept component → AreNested component state → (place : ℕ) (load : LoadOf) → slice_get (loads_in component) place ≡ Some load → is_live_load component state load ≡ true → (row : ℕ) × (slice_get (places_of (written_in component state)) row ≡ Some (outside load.id)) × ((w : Written) × (slice_get (rows_of (written_in component state)) row ≡ Some w) × (w.says ≡ loaded load.pairs (state.arrived load.id))) }
    ensures load { (component : ComponentValue) (state : State) → IsKept component → AreNested component state → (row : ℕ) (p : Place) (node : NodeValue) → slice_get (places_of (written_in component state)) row ≡ Some p → slice_get (plan_of component state).nodes row ≡ Some node → node.kind ≡ kind.Load → (place : ℕ) × (load : LoadOf) × (slice_get (loads_in component) place ≡ Some load) × (is_live_load component state load ≡ true) × (p ≡ outside load.id) }
{}
