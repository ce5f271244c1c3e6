//! Calls that no phase makes: what is asked of a call refuses them.
ghost use Rattle.std.specs.Prelude.{[]};
ghost use Rattle.run_history.specs.Going.{start_of, Going, just_opened};
ghost use Rattle.run_history.specs.Calls.{CallsLead};
ghost use Rattle.run_weave.specs.Worked.{copy_opened, stale_calls, misnumbered_calls, forgotten_calls, renumbered_calls};

/// A get that answers the opening value after a write.
pub fn stale_value()
    ensures { (k : Going) → CallsLead (start_of [] copy_opened) just_opened stale_calls k → ⊥ }
{}

/// A get that answers the written value under the number 0.
pub fn number_of_the_opening()
    ensures { (k : Going) → CallsLead (start_of [] copy_opened) just_opened misnumbered_calls k → ⊥ }
{}

/// A pump that leaves an effect as it was that never ran.
pub fn effect_that_never_ran()
    ensures { (k : Going) → CallsLead (start_of [] copy_opened) just_opened forgotten_calls k → ⊥ }
{}

/// A set under the number of another.
pub fn number_of_another_set()
    ensures { (k : Going) → CallsLead (start_of [] copy_opened) just_opened renumbered_calls k → ⊥ }
{}
