//! Phases of two lanes that disturb each other, and an effect over two phases: all that is asked of a phase holds.
ghost use Rattle.std.specs.Prelude.{[], ◌∷◌};
ghost use Rattle.run_meaning.specs.Run.{IsPhase};
ghost use Rattle.run_rows.specs.Lanes.{met, marked, left_effect, first_pump, later_pump};

/// A lane is told that a memo is busy, which the other lane got.
pub fn busy_memo()
    ensures { IsPhase [] met }
{}

/// A lane is told that a memo was marked again, below which the other lane wrote.
pub fn marked_memo()
    ensures { IsPhase [] marked }
{}

/// A pump leaves an effect that the other lane runs.
pub fn effect_left()
    ensures { IsPhase [] left_effect }
{}

/// An effect needs no run in a later phase, by its run in the one before.
pub fn effect_kept()
    ensures { IsPhase (first_pump ∷ []) later_pump }
{}
