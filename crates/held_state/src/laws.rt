//! Laws of held state. Each is the contract of a function that does nothing.
ghost use Rattle.std.specs.Prelude.{◌≡◌, ℕ, true, Some, IsSome, Option as OptionOf};
ghost use Rattle.values.specs.declared.code.Code.{Code as CodeValue};
ghost use Rattle.store_fields.specs.Edits.{KeyedRows};
ghost use Rattle.component_items.specs.declared.component.Component.{Component as ComponentValue};
ghost use Rattle.component_items.specs.Kept.{IsKept};
ghost use Rattle.plain_evaluation.specs.Changed.{signal_of, store_of, load_of, with_code, with_arrived, with_store};
ghost use Rattle.plain_evaluation.specs.Fits.{keys_differ, rows_fit};
ghost use Rattle.plain_evaluation.specs.Killed.{without, killed};
ghost use Rattle.held_state.specs.State.{HeldState, IsOf, first_state, going_at, with_held};

/// The state at the start is of its component.
pub fn first_state_is_of_its_component()
    ensures { (component : ComponentValue) → IsKept component → IsOf component (first_state component) }
{}

/// In a state of a component what goes with an owner is what a disposal of that owner takes by the component's
/// text.
pub fn what_goes_is_what_a_disposal_takes()
    ensures { (component : ComponentValue) (state : HeldState) (owner : ℕ) → IsKept component → IsOf component state → without (going_at state.goings owner) state.held ≡ killed component owner state.held }
{}

/// A disposal keeps the state of its component.
pub fn killed_state_is_of_its_component()
    ensures { (component : ComponentValue) (state : HeldState) (owner : ℕ) → IsKept component → IsOf component state → IsOf component (with_held state (killed component owner state.held)) }
{}

/// A code of a live signal, a key of a live load and new rows of a live store keep the state of its component: rows with
/// distinct keys, with the store's count of fields and no more than it may have.
pub fn changed_state_is_of_its_component()
    ensures code { (component : ComponentValue) (state : HeldState) (id : ℕ) (code : CodeValue) → IsSome (signal_of state.held id) → IsOf component state → IsOf component (with_held state (with_code state.held id code)) }
    ensures key { (component : ComponentValue) (state : HeldState) (id : ℕ) (key : OptionOf CodeValue) → IsSome (load_of state.held id) → IsOf component state → IsOf component (with_held state (with_arrived state.held id key)) }
    ensures rows { (component : ComponentValue) (state : HeldState) (id : ℕ) (before store : KeyedRows) → IsOf component state → store_of state.held id ≡ Some before → store.max ≡ before.max → store.width ≡ before.width → rows_fit before.max before.width store.rows ≡ true → keys_differ store.rows ≡ true → IsOf component (with_held state (with_store state.held id store)) }
{}
