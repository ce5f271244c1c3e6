//! Laws of rows that go over. Each is the contract of a function that does nothing.
ghost use Rattle.std.specs.Prelude.{◌≡◌, ℕ, List, length, slice_get, Some};
ghost use Rattle.values.specs.declared.plan.PlanNode.{PlanNode as NodeValue};
ghost use Rattle.values.specs.PlanValues.{ReadsBack};
ghost use Rattle.sources.specs.declared.opening.Opened.{Opened as OpenedValue};
ghost use Rattle.sources.specs.Rows.{value_in, IsGood, IsDated, IsRoomy};
ghost use Rattle.component_items.specs.declared.component.Component.{Component as ComponentValue};
ghost use Rattle.component_items.specs.Kept.{IsKept};
ghost use Rattle.plain_evaluation.specs.Fits.{RowsFit};
ghost use Rattle.plain_evaluation.specs.Place.{Place};
ghost use Rattle.plain_evaluation.specs.Written.{State, written_in};
ghost use Rattle.plan_meaning.specs.Carried.{AreApart, IsCarried, rows_to, moved_row};
ghost use Rattle.plan_meaning.specs.Layout.{places_of, plan_of};
ghost use Rattle.carried_rows.specs.Moved.{HasMoved, GoOver, ArePaired};
ghost use Rattle.carried_rows.specs.Named.{AreNamed, AreFresh};

/// Rows that go over by the number of the row that they go to, go over by their places.
pub fn rows_go_over()
    ensures { (old new : List Place) (rows first after : List OpenedValue) → AreApart old → AreApart new → length after ≡ length new →
        ((row later : ℕ) (one two : OpenedValue) → slice_get (rows_to old new) row ≡ Some (Some later) → slice_get rows row ≡ Some one → slice_get after later ≡ Some two → HasMoved (moved_row old new) one two) →
        ((later : ℕ) → ((row : ℕ) → slice_get (rows_to old new) row ≡ Some (Some later) → ⊥) → slice_get after later ≡ slice_get first later) →
        GoOver old new rows first after }
{}

/// A place in both layouts keeps its value.
pub fn values_go_over()
    ensures { (old new : List Place) (nodes : List NodeValue) (rows first after : List OpenedValue) → ArePaired old nodes rows → GoOver old new rows first after → (row later : ℕ) (p : Place) → slice_get old row ≡ Some p → slice_get new later ≡ Some p → value_in after later ≡ value_in rows row }
{}

/// Good rows that go over are good rows of the new plan, and they stay dated and roomy.
pub fn rows_stay_good()
    ensures good { (old new : List Place) (nodes later : List NodeValue) (rows first after : List OpenedValue) → IsCarried old new nodes later → ArePaired old nodes rows → ArePaired new later first → GoOver old new rows first after → ReadsBack later → AreFresh later first → AreNamed nodes rows → IsGood nodes rows → IsGood later after }
    ensures named { (old new : List Place) (nodes later : List NodeValue) (rows first after : List OpenedValue) → IsCarried old new nodes later → ArePaired old nodes rows → GoOver old new rows first after → ReadsBack later → AreFresh later first → AreNamed nodes rows → AreNamed later after }
    ensures dated { (old new : List Place) (nodes : List NodeValue) (rows first after : List OpenedValue) (now : ℕ) → ArePaired old nodes rows → GoOver old new rows first after → IsDated rows now → IsDated first now → IsDated after now }
    ensures roomy { (old new : List Place) (nodes later : List NodeValue) (rows first after : List OpenedValue) → IsCarried old new nodes later → ArePaired old nodes rows → GoOver old new rows first after → IsRoomy later first → IsRoomy nodes rows → IsRoomy later after }
{}

/// Of a component in two states, good rows of the first layout that go over are good rows of the second.
pub fn layouts_keep_rows_good()
    ensures good { (component : ComponentValue) (state later : State) (rows first after : List OpenedValue) → IsKept component → RowsFit component state → RowsFit component later → length first ≡ length (plan_of component later).nodes →
        GoOver (places_of (written_in component state)) (places_of (written_in component later)) rows first after →
        AreFresh (plan_of component later).nodes first → AreNamed (plan_of component state).nodes rows → IsGood (plan_of component state).nodes rows → IsGood (plan_of component later).nodes after }
    ensures named { (component : ComponentValue) (state later : State) (rows first after : List OpenedValue) → IsKept component → RowsFit component state → RowsFit component later → length rows ≡ length (plan_of component state).nodes →
        GoOver (places_of (written_in component state)) (places_of (written_in component later)) rows first after →
        AreFresh (plan_of component later).nodes first → AreNamed (plan_of component state).nodes rows → AreNamed (plan_of component later).nodes after }
    ensures roomy { (component : ComponentValue) (state later : State) (rows first after : List OpenedValue) → IsKept component → RowsFit component state → RowsFit component later → length rows ≡ length (plan_of component state).nodes →
        GoOver (places_of (written_in component state)) (places_of (written_in component later)) rows first after →
        IsRoomy (plan_of component later).nodes first → IsRoomy (plan_of component state).nodes rows → IsRoomy (plan_of component later).nodes after }
{}
