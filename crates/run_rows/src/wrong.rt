//! Phases that ran wrongly, each in one way, and the fact that refuses it.
ghost use Rattle.std.specs.Prelude.{[]};
ghost use Rattle.run_meaning.specs.Phase.{IsJournal};
ghost use Rattle.run_meaning.specs.Merge.{Answered, NotedInOrder, NotedOnce, DisposedOnce, PumpsFit, ChangesDiffer};
ghost use Rattle.run_meaning.specs.Told.{GotExplained, EntriesExplained, NoRunAfter};
ghost use Rattle.run_meaning.specs.Causes.{RepliesCaused, RefusalsCounted};
ghost use Rattle.run_rows.specs.Wrong as wrong;

/// Writes that are lost, doubled, of another row, or against the lane's order.
pub fn writes()
    ensures lost { ¬ NotedInOrder wrong.write_lost }
    ensures twice { ¬ NotedOnce wrong.write_twice }
    ensures elsewhere { ¬ NotedInOrder wrong.write_elsewhere }
    ensures falling { ¬ NotedInOrder wrong.numbers_fall }
{}

/// Values of another row, older than the lane's own write, newer than its next, or of nobody.
pub fn values()
    ensures another_row { ¬ GotExplained wrong.another_row }
    ensures too_old { ¬ GotExplained wrong.too_old }
    ensures too_old_below { ¬ GotExplained wrong.too_old_below }
    ensures too_new { ¬ GotExplained wrong.too_new }
    ensures invented { ¬ GotExplained wrong.invented }
{}

/// A run after its owner's disposal; two disposals of one owner, one that nobody asked for, too many, and one
/// against the lane's order.
pub fn disposals()
    ensures run { ¬ NoRunAfter [] wrong.runs_when_gone }
    ensures twice { ¬ DisposedOnce [] wrong.disposed_twice }
    ensures by_none { ¬ DisposedOnce [] wrong.disposed_by_none }
    ensures too_many { ¬ DisposedOnce [] wrong.disposed_too_many }
    ensures out_of_order { ¬ DisposedOnce [] wrong.disposed_out_of_order }
{}

/// Changes to the value before, or to one that nobody wrote; a verdict that is turned, and edits in another place.
pub fn changes_and_edits()
    ensures change { ¬ ChangesDiffer wrong.change_to_the_same }
    ensures unexplained { ¬ EntriesExplained wrong.change_unexplained }
    ensures verdict { ¬ NotedInOrder wrong.verdict_turned }
    ensures place { ¬ NotedInOrder wrong.edit_out_of_place }
    ensures pass { ¬ NotedInOrder wrong.edits_of_another }
{}

/// Effects that are told to need no run, runs and numbers that nobody was told of, and one against the lane's
/// order.
pub fn effects()
    ensures never_ran { ¬ PumpsFit [] wrong.never_ran }
    ensures ran_too_early { ¬ PumpsFit [] wrong.ran_too_early }
    ensures untold { ¬ PumpsFit [] wrong.run_untold }
    ensures out_of_order { ¬ PumpsFit [] wrong.ran_out_of_order }
    ensures void { ¬ PumpsFit [] wrong.void_untold }
{}

/// A number with no entry, one past the last, and a write of what is not written.
pub fn numbers()
    ensures lost { ¬ IsJournal wrong.number_lost.opened wrong.number_lost.drawn wrong.number_lost.entries }
    ensures late { ¬ IsJournal wrong.number_late.opened wrong.number_late.drawn wrong.number_late.entries }
    ensures memo { ¬ IsJournal wrong.memo_written.opened wrong.memo_written.drawn wrong.memo_written.entries }
{}

/// Replies of another kind, or without their cause, and one that is owed and not given.
pub fn replies()
    ensures kind { ¬ Answered wrong.wrong_kind }
    ensures row { ¬ RepliesCaused [] wrong.row_denied }
    ensures owner { ¬ RepliesCaused [] wrong.owner_denied }
    ensures forgotten { ¬ RepliesCaused [] wrong.disposal_forgotten }
    ensures busy { ¬ RepliesCaused [] wrong.busy_alone }
    ensures full { ¬ RepliesCaused [] wrong.full_too_early }
{}

/// Lanes that are told to be disturbed, and are not, and effects that are told to be gone or left.
pub fn disturbances()
    ensures again { ¬ RepliesCaused [] wrong.again_unmarked }
    ensures busy { ¬ RepliesCaused [] wrong.busy_unmet }
    ensures uncounted { ¬ RefusalsCounted wrong.busy_uncounted }
    ensures left { ¬ RepliesCaused [] wrong.left_alone }
    ensures unnamed { ¬ RepliesCaused [] wrong.first_unnamed }
    ensures gone { ¬ RepliesCaused [] wrong.gone_alive }
{}
