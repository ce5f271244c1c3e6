//! Laws of the definitions. Each is the contract of a function that does nothing.
ghost use Rattle.std.specs.Prelude.{◌≡◌, ◌≤◌, ◌^◌, ℕ, suc, []};
ghost use Rattle.component_items.specs.declared.component.Component.{Component as ComponentValue};
ghost use Rattle.component_items.specs.Kept.{IsKept};
ghost use Rattle.plain_evaluation.specs.Scratch.{pending};
ghost use Rattle.held_state.specs.State.{HeldState, IsOf, with_held};
ghost use Rattle.load_meaning.specs.Polls.{Progress, AreInStep, all_promptly, rounds_promptly, enough_rounds};

/// A round more is one behind the others.
pub fn a_round_is_the_last()
    ensures { (rounds : ℕ) (component : ComponentValue) (progress : Progress) → rounds_promptly (suc rounds) component progress ≡ all_promptly component (rounds_promptly rounds component progress) }
{}

/// Where the loader is prompt, one round, and for each load as many as its resource wants, bring all loads. A load
/// counts how often it was asked up to 2^32 - 1.
pub fn enough_rounds_bring_all()
    ensures { (component : ComponentValue) (state : HeldState) (progress : Progress) (rounds : ℕ) → IsKept component → IsOf component (with_held state progress.held) → AreInStep component progress → enough_rounds component ≤ 2 ^ 32 → enough_rounds component ≤ rounds → pending component (rounds_promptly rounds component progress).held ≡ [] }
{}

/// Where no load is pending a further round changes nothing.
pub fn rounds_change_nothing_more()
    ensures { (component : ComponentValue) (state : HeldState) (progress : Progress) → IsKept component → IsOf component (with_held state progress.held) → AreInStep component progress → pending component progress.held ≡ [] → all_promptly component progress ≡ progress }
{}
