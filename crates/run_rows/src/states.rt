//! What phases leave of the held state, and how runs end.
ghost use Rattle.std.specs.Prelude.{◌≡◌, ◌++◌, [], ◌∷◌, Some, None, true, false, codes};
ghost use Rattle.store_fields.specs.declared.edit.Verdict.TheVariants as verdict;
ghost use Rattle.plain_evaluation.specs.Held.{first_held, value, nothing};
ghost use Rattle.plain_evaluation.specs.Rows.{number, side, side_dead, titles, titles_held, chosen, chosen_dead, who, who_held, inside};
ghost use Rattle.run_meaning.specs.Edits.{edits_of, held_written, verdict_in};
ghost use Rattle.run_meaning.specs.Ending.{path_text, waiting_line, EndsWithPage, EndsWaiting};
ghost use Rattle.run_meaning.specs.Merge.{NotedInOrder};
ghost use Rattle.run_meaning.specs.Run.{after, held_arrived, refusals_of};
ghost use Rattle.run_rows.specs.Parts.{number as small};
ghost use Rattle.run_rows.specs.Rows.{branch, area};
ghost use Rattle.run_rows.specs.States.{titles_of, rows_inserted, three_titles, rows_moved, shared, shared_held, disposed_between};
ghost use Rattle.run_rows.specs.Texts.{branch_text};

/// Writes, edits and disposals.
pub fn states_after()
    ensures written { after branch_text branch (λ load. None) ≡ record { holdings = value (small 1) ∷ value (small 5) ∷ value (small 8) ∷ nothing ∷ nothing ∷ []; live = true ∷ [] } }
    ensures inserted { after titles rows_inserted (λ load. None) ≡ three_titles }
    ensures moved { after titles rows_moved (λ load. None) ≡ titles_held }
    ensures disposed { after side area (λ load. None) ≡ side_dead }
    ensures arrived { held_arrived (λ load. Some (number 1)) (first_held who) ≡ who_held (Some (number 1)) (number 1) }
{}

/// The last of two writes, and then the edits of two lanes by their numbers. An edit that is noted behind the
/// disposal of its area is made before that, and keeps its verdict.
pub fn lanes_share_a_store()
    ensures held { after chosen shared (λ load. None) ≡ shared_held }
    ensures verdicts { NotedInOrder shared }
    ensures disposed { after chosen disposed_between (λ load. None) ≡ chosen_dead }
    ensures kept { NotedInOrder disposed_between }
{}

/// The lines of loads that are pending, and the text that a run ends with.
pub fn endings()
    ensures path { path_text inside 3 ≡ codes "outer.inner.y" }
    ensures line { waiting_line who 2 ≡ codes "waiting who\n" }
    ensures waits { EndsWaiting who [] (first_held who) true (2 ∷ []) (codes "waiting who\n") }
    ensures asked { EndsWithPage side (area ∷ []) side_dead true (codes "1.1.1 dispose now 1 before 0\n1.1.2 dispose now 0 before 1\n1.1.3 disposed 1\njournal 1.1 disposed 1\ncleanup \"bye\"\n<b>end</b>") }
    ensures not_asked { EndsWithPage side (area ∷ []) side_dead false (codes "<b>end</b>") }
    ensures refusals { refusals_of who 3 (first_held who ∷ who_held (Some (number 1)) (number 1) ∷ first_held who ∷ []) ≡ 6 }
{}
