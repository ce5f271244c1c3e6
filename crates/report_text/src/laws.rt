//! What follows of the lines. Each law is the contract of a function that does nothing.
ghost use Rattle.std.specs.Prelude.{◌≡◌, ◌∷◌, [], ◌++◌, ℕ, suc, length, List};
ghost use Rattle.std.specs.List.{flat_map};
ghost use Rattle.run_meaning.specs.Lane.{Done};
ghost use Rattle.run_meaning.specs.Phase.{Phase};
ghost use Rattle.run_meaning.specs.Report.{answer_lines, journal_lines, report};
ghost use Rattle.run_meaning.specs.Run.{answers_of_lanes};
ghost use Rattle.report_text.specs.Lines.{line_of};

/// The lines of the answers of lanes are those of their operations.
pub fn answers_have_the_lines_of_their_lanes()
    ensures { (texts : List (List ℕ)) (phase : ℕ) (lanes : List (List Done)) → flat_map (line_of texts) (answers_of_lanes phase 1 lanes) ≡ answer_lines texts phase 1 lanes }
{}

/// With one phase more a report has the lines of that phase behind it.
pub fn a_phase_stands_behind_those_before_it()
    ensures { (texts : List (List ℕ)) (phases : List Phase) (p : Phase) → let n = suc (length phases) in report texts (phases ++ p ∷ []) ≡ report texts phases ++ (answer_lines texts n 1 p.lanes ++ journal_lines texts p.opened.plan.owners n p.entries) }
{}
