//! Laws of the edits of a phase. Each is the contract of a function that does nothing.
ghost use Rattle.std.specs.Prelude.{◌≡◌, ◌≤◌, ℕ, List, Some, length};
ghost use Rattle.store_fields.specs.declared.edit.Edit.{Edit as EditValue};
ghost use Rattle.store_fields.specs.declared.edit.Verdict.{Verdict as VerdictValue};
ghost use Rattle.script_items.specs.Script.{numbered};
ghost use Rattle.run_meaning.specs.Edits.{edits_of, held_written};
ghost use Rattle.run_meaning.specs.Phase.{Phase};
ghost use Rattle.run_history.specs.Going.{Numbered};
ghost use Rattle.phase_edits.specs.Posts.{ArePosted, posted_edits, verdicts_by};
ghost use Rattle.phase_edits.specs.Told.{AreTold};

/// The edits of a phase are those that its passes noted.
pub fn posted_edits_are_those_of_the_lanes()
    ensures { (p : Phase) (posts : List (List EditValue)) → ArePosted p.lanes posts → edits_of p.lanes p.entries ≡ posted_edits posts p.entries }
{}

/// What came of the edits of each pass, made one after another from what the writes left, is what they are told.
pub fn verdicts_are_what_edits_are_told()
    ensures { (p : Phase) (posts : List (List EditValue)) (verdicts : List (List VerdictValue)) → ArePosted p.lanes posts → Numbered 0 p.entries p.drawn → length posts ≤ length verdicts
        → ((pass : ℕ) (told : List VerdictValue) → numbered verdicts pass ≡ Some told → told ≡ verdicts_by posts pass p.entries (held_written p.opened p.entries)) → AreTold p verdicts }
{}
