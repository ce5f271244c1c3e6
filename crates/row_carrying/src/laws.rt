//! Laws of what goes where. Each is the contract of a function that does nothing.
ghost use Rattle.std.specs.Prelude.{◌≡◌, ℕ, List, length};
ghost use Rattle.plain_evaluation.specs.Place.{Place};
ghost use Rattle.plan_meaning.specs.Carried.{AreApart, rows_to, moved_row};
ghost use Rattle.row_carrying.specs.Target.{number_by, AreTargets};

/// Rows of two layouts go each to a row of its own, and their new numbers are those of their places.
pub fn rows_go_to_targets()
    ensures targets { (old new : List Place) → AreApart old → AreTargets (rows_to old new) (length new) }
    ensures numbers { (old new : List Place) → number_by (rows_to old new) ≡ moved_row old new }
{}
