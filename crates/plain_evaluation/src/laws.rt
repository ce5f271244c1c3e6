//! Laws of the definitions. Each is the contract of a function that does nothing.
ghost use Rattle.std.specs.Prelude.{◌≡◌, ℕ, ◌≤◌, ◌==◌, if◌then◌else◌, true, false, Some, Option as OptionOf, length};
ghost use Rattle.std.specs.List.{list_any};
ghost use Rattle.values.specs.declared.code.Code.{Code as CodeValue};
ghost use Rattle.values.specs.declared.limits.TheConstants.{MOST_NODES};
ghost use Rattle.component_items.specs.declared.component.Component.{Component as ComponentValue};
ghost use Rattle.component_items.specs.Kept.{IsKept};
ghost use Rattle.store_fields.specs.Edits.{KeyedRows};
ghost use Rattle.plain_evaluation.specs.Begins.{Begins};
ghost use Rattle.plain_evaluation.specs.Changed.{StoresFit, store_of, with_code, with_arrived, with_store};
ghost use Rattle.plain_evaluation.specs.Fits.{keys_differ, rows_fit, Fits, RowsFit};
ghost use Rattle.plain_evaluation.specs.Held.{nothing, Held, first_held, holding_of, is_live};
ghost use Rattle.plain_evaluation.specs.Keyed.{is_keyed};
ghost use Rattle.plain_evaluation.specs.Killed.{going_with, killed, OwnersFit};
ghost use Rattle.plain_evaluation.specs.Origins.{origin_in, origin_of};
ghost use Rattle.plain_evaluation.specs.Sound.{Among, IsSound, SolvesItsEquations, ReadsStandBefore};
ghost use Rattle.plain_evaluation.specs.Written.{State, Written, state_of, written_in};

/// What a component writes out makes sense: no place stands twice, and what is named stands before it in the
/// text and is no effect.
pub fn components_make_sense()
    ensures { (component : ComponentValue) (state : State) → IsKept component → RowsFit component state → IsSound (is_keyed component) (written_in component state) }
{}

/// Plain evaluation solves its equations: each place has the value that the text says of it, over the values
/// of what it names.
pub fn scratch_solves_its_equations()
    ensures { (component : ComponentValue) (state : State) → IsKept component → RowsFit component state → SolvesItsEquations component state }
{}

/// What a value reads stands before it in the text.
pub fn reads_stand_before()
    ensures { (component : ComponentValue) (state : State) → IsKept component → RowsFit component state → ReadsStandBefore component state }
{}

/// A component writes out no more places than a plan has nodes.
pub fn places_are_few()
    ensures { (component : ComponentValue) (state : State) → IsKept component → RowsFit component state → length (written_in component state) ≤ MOST_NODES }
{}

/// The first held state is as the text gives it.
pub fn first_state_begins()
    ensures { (component : ComponentValue) → IsKept component → Begins component (first_held component) }
{}

/// It fits its component.
pub fn first_state_fits()
    ensures { (component : ComponentValue) → IsKept component → Fits component (first_held component) }
{}

/// The rows of held state that fits are as the laws ask.
pub fn fitting_state_has_fitting_rows()
    ensures { (component : ComponentValue) (held : Held) → Fits component held → RowsFit component (state_of held) }
{}

/// What is written out has the origin that the text gives its id: whatever the state, an id has one owner, one
/// store around it, one kind and one expression.
pub fn places_have_origins()
    ensures { (component : ComponentValue) (state : State) → IsKept component → RowsFit component state → (w : Written) → Among (written_in component state) w → origin_in component w.id ≡ origin_of w }
{}

/// A disposal keeps the fit.
pub fn killed_state_fits()
    ensures { (component : ComponentValue) (held : Held) (owner : ℕ) → Fits component held → Fits component (killed component owner held) }
{}

/// After a disposal what goes holds nothing, and its owners are dead; all else is as it was.
pub fn disposals_take_what_goes()
    ensures holdings { (component : ComponentValue) (held : Held) (owner id : ℕ) → holding_of (killed component owner held) id ≡ (if list_any (λ gone. gone == id) (going_with component owner).ids then nothing else holding_of held id) }
    ensures owners { (component : ComponentValue) (held : Held) (owner other : ℕ) → is_live (killed component owner held) other ≡ (if list_any (λ gone. gone == other) (going_with component owner).owners then false else is_live held other) }
{}

/// At the start an owner is live only where the one around it is.
pub fn first_owners_fit()
    ensures { (component : ComponentValue) → IsKept component → OwnersFit component (first_held component) }
{}

/// A disposal keeps this.
pub fn killed_owners_fit()
    ensures { (component : ComponentValue) (held : Held) (owner : ℕ) → IsKept component → OwnersFit component held → OwnersFit component (killed component owner held) }
{}

/// At the start no store has room for more rows than the component says.
pub fn first_stores_fit()
    ensures { (component : ComponentValue) → IsKept component → StoresFit component (first_held component) }
{}

/// A disposal keeps this.
pub fn killed_stores_fit()
    ensures { (component : ComponentValue) (held : Held) (owner : ℕ) → StoresFit component held → StoresFit component (killed component owner held) }
{}

/// A code of a signal, a key of a load and new rows of a store keep the fit: rows with distinct keys, with the
/// store's count of fields and no more than it may have.
pub fn changed_state_fits()
    ensures code { (component : ComponentValue) (held : Held) (id : ℕ) (code : CodeValue) → Fits component held → StoresFit component held → Fits component (with_code held id code) × StoresFit component (with_code held id code) }
    ensures key { (component : ComponentValue) (held : Held) (id : ℕ) (key : OptionOf CodeValue) → Fits component held → StoresFit component held → Fits component (with_arrived held id key) × StoresFit component (with_arrived held id key) }
    ensures rows { (component : ComponentValue) (held : Held) (id : ℕ) (before store : KeyedRows) → Fits component held → StoresFit component held → store_of held id ≡ Some before → store.max ≡ before.max → store.width ≡ before.width → rows_fit before.max before.width store.rows ≡ true → keys_differ store.rows ≡ true → Fits component (with_store held id store) × StoresFit component (with_store held id store) }
{}
