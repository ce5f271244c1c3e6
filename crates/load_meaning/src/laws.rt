//! Laws of the definitions. Each is the contract of a function that does nothing.
ghost use Rattle.std.specs.Prelude.{◌≡◌, ◌⊎◌, ◌<◌, ◌+◌, ℕ, true, List, [], ◌∷◌, map, length, slice_get, Option as OptionOf, Some, None};
ghost use Rattle.values.specs.declared.code.Code.{Code as CodeValue};
ghost use Rattle.component_items.specs.declared.component.Component.{Component as ComponentValue};
ghost use Rattle.component_items.specs.Kept.{IsKept};
ghost use Rattle.async_derived.specs.declared.loading.Loading.{Loading as LoadingValue};
ghost use Rattle.plain_evaluation.specs.Changed.{load_of};
ghost use Rattle.plain_evaluation.specs.Held.{Held, arrived_held};
ghost use Rattle.plain_evaluation.specs.Scratch.{pending};
ghost use Rattle.plain_evaluation.specs.Written.{written, state_of};
ghost use Rattle.plan_meaning.specs.Layout.{rows_of, places_of, plan_of};
ghost use Rattle.load_table.specs.Loads.{LoadOf, loads_in, is_live_load};
ghost use Rattle.held_state.specs.State.{HeldState, IsOf, with_held};
ghost use Rattle.run_meaning.specs.Run.{held_arrived};
ghost use Rattle.load_meaning.specs.declared.late.Late.{Late as LateValue};
ghost use Rattle.load_meaning.specs.Arrivals.{text_arrived};
ghost use Rattle.load_meaning.specs.Polls.{Progress, first_loadings, key_of, AllPolled, IsInStep, AreInStep, AnswersPromptly, promptly_one, all_promptly, some_promptly};

use outside::Loader;

/// Before anything was asked, each load is in step with held state where no key has arrived.
pub fn first_loads_are_in_step()
    ensures { (component : ComponentValue) (held : Held) → ((id : ℕ) → arrived_held held id ≡ None) → AreInStep component (record { held = held; loadings = first_loadings component }) }
{}

/// Behind polls each live load is in step with held state, and what has arrived for it, if anything has, is the
/// value of its key.
pub fn polled_loads_are_in_step<L: Loader>()
    ensures in_step { (component : ComponentValue) (state : HeldState) (old new : Progress) (late : List (ℕ × LateValue)) (before after : L) → IsKept component → IsOf component (with_held state old.held) → AllPolled L.answers component old new late before after → AreInStep component old → AreInStep component new }
    ensures arrived { (component : ComponentValue) (state : HeldState) (old new : Progress) (late : List (ℕ × LateValue)) (before after : L) → IsKept component → IsOf component (with_held state old.held) → AllPolled L.answers component old new late before after → AreInStep component old → (place : ℕ) (load : LoadOf) (loading : LoadingValue) → slice_get (loads_in component) place ≡ Some load → slice_get new.loadings place ≡ Some loading → is_live_load component (state_of new.held) load ≡ true → (loading.arrived ≡ None) ⊎ (loading.arrived ≡ Some (key_of component new.held load)) }
{}

/// The loads that were polled and are late are those that are pending, in order of declaration.
pub fn late_loads_are_pending<L: Loader>()
    ensures { (component : ComponentValue) (state : HeldState) (old new : Progress) (late : List (ℕ × LateValue)) (before after : L) → IsKept component → IsOf component (with_held state old.held) → AllPolled L.answers component old new late before after → map (λ l. l.0) late ≡ pending component new.held }
{}

/// Polls change what has arrived, and nothing else. The state stays one of its component.
pub fn polls_are_arrivals<L: Loader>()
    ensures arrivals { (component : ComponentValue) (state : HeldState) (old new : Progress) (late : List (ℕ × LateValue)) (before after : L) → IsKept component → IsOf component (with_held state old.held) → AllPolled L.answers component old new late before after → new.held ≡ held_arrived (arrived_held new.held) old.held }
    ensures fits { (component : ComponentValue) (state : HeldState) (old new : Progress) (late : List (ℕ × LateValue)) (before after : L) → IsKept component → IsOf component (with_held state old.held) → AllPolled L.answers component old new late before after → IsOf component (with_held state new.held) }
{}

/// Of keys that arrive one after another the last stand.
pub fn last_keys_stand()
    ensures { (first last : ℕ → OptionOf CodeValue) (held : Held) → held_arrived last (held_arrived first held) ≡ held_arrived last held }
{}

/// Where no load is pending, polls ask nothing, and all stays as it is.
pub fn nothing_is_asked<L: Loader>()
    ensures { (component : ComponentValue) (state : HeldState) (old new : Progress) (late : List (ℕ × LateValue)) (before after : L) → IsKept component → IsOf component (with_held state old.held) → AreInStep component old → AllPolled L.answers component old new late before after → pending component old.held ≡ [] → (after ≡ before) × (late ≡ []) × (new ≡ old) }
{}

/// The value of a load's key depends on what has arrived for the live loads before it alone.
pub fn keys_depend_on_earlier_loads()
    ensures { (component : ComponentValue) (state : HeldState) (later : Held) (keys : ℕ → OptionOf CodeValue) → IsKept component → IsOf component state → later ≡ held_arrived keys state.held → (place : ℕ) (load : LoadOf) → slice_get (loads_in component) place ≡ Some load → is_live_load component (state_of state.held) load ≡ true → ((earlier : ℕ) (other : LoadOf) → earlier < place → slice_get (loads_in component) earlier ≡ Some other → is_live_load component (state_of state.held) other ≡ true → arrived_held later other.id ≡ arrived_held state.held other.id) → key_of component later load ≡ key_of component state.held load }
{}

/// A live load holds the key that has arrived for it, if one has, and no two of them have one id.
pub fn live_loads_hold_keys()
    ensures holds { (component : ComponentValue) (state : HeldState) → IsKept component → IsOf component state → (place : ℕ) (load : LoadOf) → slice_get (loads_in component) place ≡ Some load → is_live_load component (state_of state.held) load ≡ true → load_of state.held load.id ≡ Some (arrived_held state.held load.id) }
    ensures apart { (component : ComponentValue) (state : HeldState) → IsKept component → IsOf component state → (place earlier : ℕ) (load other : LoadOf) → earlier < place → slice_get (loads_in component) place ≡ Some load → slice_get (loads_in component) earlier ≡ Some other → is_live_load component (state_of state.held) load ≡ true → is_live_load component (state_of state.held) other ≡ true → other.id ≡ load.id → ⊥ }
{}

/// What arrives changes no layout: rows keep their places, and only the lines of loads say something else.
pub fn arrivals_change_no_layout()
    ensures rows { (component : ComponentValue) (held later : Held) (keys : ℕ → OptionOf CodeValue) → later ≡ held_arrived keys held → rows_of (written component later) ≡ text_arrived (arrived_held later) (rows_of (written component held)) }
    ensures places { (component : ComponentValue) (held later : Held) (keys : ℕ → OptionOf CodeValue) → later ≡ held_arrived keys held → places_of (written component later) ≡ places_of (written component held) }
    ensures plan { (component : ComponentValue) (held later : Held) (keys : ℕ → OptionOf CodeValue) → later ≡ held_arrived keys held → plan_of component (state_of later) ≡ plan_of component (state_of held) }
{}

/// Polls of a prompt loader, load by load; and all of them are polls.
pub fn prompt_polls_go_on()
    ensures none { (component : ComponentValue) (progress : Progress) → some_promptly component progress 0 ≡ record { held = progress.held; loadings = [] } }
    ensures more { (component : ComponentValue) (progress : Progress) (place : ℕ) (load : LoadOf) (loading : LoadingValue) → slice_get (loads_in component) place ≡ Some load → slice_get progress.loadings place ≡ Some loading → some_promptly component progress (place + 1) ≡ promptly_one component (some_promptly component progress place) (load, loading) }
    ensures all { (component : ComponentValue) (progress : Progress) → some_promptly component progress (length (loads_in component)) ≡ all_promptly component progress }
    ensures polled { (component : ComponentValue) (progress : Progress) → length progress.loadings ≡ length (loads_in component) → (late : List (ℕ × LateValue)) × AllPolled AnswersPromptly component progress (all_promptly component progress) late tt tt }
{}
