//! Worked rows of the definitions. Each is the contract of a function that does nothing.
ghost use Rattle.std.specs.Prelude.{◌≡◌, ◌≢◌, [], ◌∷◌, Some, None};
ghost use Rattle.values.specs.declared.plan.Kind.TheVariants as kind;
ghost use Rattle.values.specs.PlanRows.{reader};
ghost use Rattle.sources.specs.declared.body.Cause.TheVariants as cause;
ghost use Rattle.sources.specs.declared.opening.Opened.{Opened as OpenedValue};
ghost use Rattle.sources.specs.Tried.{five_at};
ghost use Rattle.carried_rows.specs.Moved.{HasMoved};
ghost use Rattle.carried_rows.specs.Named.{IsNamed};
ghost use Rattle.carried_rows.specs.Worked.{to_second};

/// A body that read the second row's field reads it by its new number, and so says its cause; one that keeps the
/// old number has not gone over, nor has a row with another version.
pub fn moved_rows_are_told_apart()
    ensures read { (before after : OpenedValue) → HasMoved to_second before after → before.body.reads.list ≡ five_at 1 ∷ [] → after.body.reads.list ≡ five_at 0 ∷ [] }
    ensures cause { (before after : OpenedValue) → HasMoved to_second before after → before.body.cause ≡ Some (cause.Changed 1 4 9) → after.body.cause ≡ Some (cause.Changed 0 4 9) }
    ensures by_number { (before after : OpenedValue) → before.body.reads.list ≡ five_at 1 ∷ [] → after.body.reads.list ≡ five_at 1 ∷ [] → ¬ HasMoved to_second before after }
    ensures version { (before after : OpenedValue) → after.version ≢ before.version → ¬ HasMoved to_second before after }
{}

/// A row that reads row 0 alone may have run because of that row, not of another one; and a row that never ran has
/// read nothing.
pub fn named_rows_are_told_apart()
    ensures named { (row : OpenedValue) → row.body.cause ≡ Some (cause.Changed 0 4 9) → IsNamed (reader kind.Memo 0) row }
    ensures other { (row : OpenedValue) → row.body.cause ≡ Some (cause.Changed 1 4 9) → ¬ IsNamed (reader kind.Memo 0) row }
    ensures unrun { (row : OpenedValue) → row.body.cause ≡ None → row.body.reads.list ≡ five_at 0 ∷ [] → ¬ IsNamed (reader kind.Memo 0) row }
{}
