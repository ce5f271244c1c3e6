//! Worked rows of the definitions. Each is the contract of a function that does nothing.
ghost use Rattle.std.specs.Prelude.{◌≡◌, [], ◌∷◌, Some, None, codes};
ghost use Rattle.plain_evaluation.specs.Held.{first_held};
ghost use Rattle.plain_evaluation.specs.Place.{outside, of_row};
ghost use Rattle.plain_evaluation.specs.Rows.{number, escapes, marks as marked, side, side_dead, titles, titles_held, chosen, chosen_held};
ghost use Rattle.view_meaning.specs.Mounted.{written_of, serial_of, page_mounted};
ghost use Rattle.view_meaning.specs.Parts.{plain, shows, begins, bare, fixed, valued, begun, ends, area, branch, each, row, parts_of};
ghost use Rattle.view_meaning.specs.Worked.{seen_of, unmoved, moved, mounted_by, parity, parity_held, titles_with};

/// Parts stand in text order; a void element has no end.
pub fn marks()
    ensures escapes { parts_of escapes (first_held escapes) ≡ begins 3 ∷ valued 4 (outside 1) ∷ begun ∷ shows (outside 2) ∷ plain 2 ∷ ends 3 ∷ [] }
    ensures marks { parts_of marked (first_held marked) ≡ begins 1 ∷ bare 2 ∷ fixed 3 4 ∷ begun ∷ begins 5 ∷ begun ∷ ends 1 ∷ [] }
    ensures page { page_mounted escapes.texts (mounted_by escapes (seen_of escapes (first_held escapes) unmoved ∷ [])) ≡ codes "<p title=\"&lt;&amp;&quot;\">&lt;&amp;\"&lt;&amp;\"</p>" }
{}

/// A text whose node moved was replaced once; one whose node kept its version was not.
pub fn replacements()
    ensures moved { written_of (mounted_by parity (seen_of parity (parity_held 1) unmoved ∷ seen_of parity (parity_held 3) (moved 2) ∷ [])) (outside 2) ≡ Some 1 }
    ensures stayed { written_of (mounted_by parity (seen_of parity (parity_held 1) unmoved ∷ seen_of parity (parity_held 3) (moved 2) ∷ [])) (outside 3) ≡ Some 0 }
{}

/// A live area is mounted with what is in it, and a dead one is not.
pub fn areas()
    ensures live { parts_of side (first_held side) ≡ area (outside 0) ∷ begins 4 ∷ begun ∷ shows (outside 2) ∷ ends 4 ∷ begins 5 ∷ begun ∷ plain 6 ∷ ends 5 ∷ [] }
    ensures dead { parts_of side side_dead ≡ begins 5 ∷ begun ∷ plain 6 ∷ ends 5 ∷ [] }
    ensures mounted { written_of (mounted_by side (seen_of side (first_held side) unmoved ∷ [])) (outside 2) ≡ Some 0 }
    ensures gone { written_of (mounted_by side (seen_of side (first_held side) unmoved ∷ seen_of side side_dead unmoved ∷ [])) (outside 2) ≡ None }
    ensures page { page_mounted side.texts (mounted_by side (seen_of side (first_held side) unmoved ∷ seen_of side side_dead unmoved ∷ [])) ≡ codes "<b>end</b>" }
{}

/// Three rows are numbered in the store's order. Two that stay, moved, keep their serials.
pub fn rows()
    ensures first { (mounted_by titles (seen_of titles (titles_with []) unmoved ∷ seen_of titles (titles_with (1 ∷ 2 ∷ 3 ∷ [])) unmoved ∷ [])).rows 3 ≡ record { rows = (number 1, 0) ∷ (number 2, 1) ∷ (number 3, 2) ∷ []; next = 3 } }
    ensures second { (mounted_by titles (seen_of titles (titles_with []) unmoved ∷ seen_of titles (titles_with (1 ∷ 2 ∷ 3 ∷ [])) unmoved ∷ seen_of titles titles_held unmoved ∷ [])).rows 3 ≡ record { rows = (number 3, 2) ∷ (number 2, 1) ∷ []; next = 3 } }
    ensures serial { serial_of (mounted_by titles (seen_of titles (titles_with []) unmoved ∷ seen_of titles (titles_with (1 ∷ 2 ∷ 3 ∷ [])) unmoved ∷ seen_of titles titles_held unmoved ∷ [])) 3 (number 1) ≡ None }
    ensures page { page_mounted titles.texts (mounted_by titles (seen_of titles (titles_with []) unmoved ∷ seen_of titles (titles_with (1 ∷ 2 ∷ 3 ∷ [])) unmoved ∷ seen_of titles titles_held unmoved ∷ [])) ≡ codes "<ul><li>c</li><li>b</li></ul>" }
    ensures reversed { (mounted_by titles (seen_of titles (titles_with (1 ∷ 2 ∷ 3 ∷ [])) unmoved ∷ seen_of titles (titles_with (3 ∷ 2 ∷ 1 ∷ [])) unmoved ∷ [])).rows 3 ≡ record { rows = (number 3, 2) ∷ (number 2, 1) ∷ (number 1, 0) ∷ []; next = 3 } }
{}

/// A row that was removed and inserted again has a new serial where the view was made between the two, and else the
/// one that it had.
pub fn rows_that_come_back()
    ensures two_updates { (mounted_by titles (seen_of titles (titles_with (1 ∷ 2 ∷ [])) unmoved ∷ seen_of titles (titles_with (2 ∷ [])) unmoved ∷ seen_of titles (titles_with (2 ∷ 1 ∷ [])) unmoved ∷ [])).rows 3 ≡ record { rows = (number 2, 1) ∷ (number 1, 2) ∷ []; next = 3 } }
    ensures one_update { (mounted_by titles (seen_of titles (titles_with (1 ∷ 2 ∷ [])) unmoved ∷ seen_of titles (titles_with (2 ∷ 1 ∷ [])) unmoved ∷ [])).rows 3 ≡ record { rows = (number 2, 1) ∷ (number 1, 0) ∷ []; next = 2 } }
{}

/// A branch that is off and on again is mounted afresh: its texts begin at 0, and its rows take new serials.
pub fn branches()
    ensures on { parts_of chosen (chosen_held 1) ≡ area (outside 0) ∷ branch (outside 5) ∷ each 6 2 ∷ row 6 (number 1) ∷ row 6 (number 2) ∷ branch (of_row 7 (number 2)) ∷ begins 5 ∷ begun ∷ shows (of_row 8 (number 2)) ∷ ends 5 ∷ [] }
    ensures off { parts_of chosen (chosen_held 0) ≡ area (outside 0) ∷ [] }
    ensures replaced { written_of (mounted_by chosen (seen_of chosen (chosen_held 1) unmoved ∷ seen_of chosen (chosen_held 1) (moved 8) ∷ [])) (of_row 8 (number 2)) ≡ Some 1 }
    ensures gone { written_of (mounted_by chosen (seen_of chosen (chosen_held 1) unmoved ∷ seen_of chosen (chosen_held 1) (moved 8) ∷ seen_of chosen (chosen_held 0) (moved 8) ∷ [])) (of_row 8 (number 2)) ≡ None }
    ensures afresh { written_of (mounted_by chosen (seen_of chosen (chosen_held 1) unmoved ∷ seen_of chosen (chosen_held 1) (moved 8) ∷ seen_of chosen (chosen_held 0) (moved 8) ∷ seen_of chosen (chosen_held 1) (moved 8) ∷ [])) (of_row 8 (number 2)) ≡ Some 0 }
    ensures rows { (mounted_by chosen (seen_of chosen (chosen_held 1) unmoved ∷ seen_of chosen (chosen_held 0) unmoved ∷ seen_of chosen (chosen_held 1) unmoved ∷ [])).rows 6 ≡ record { rows = (number 1, 2) ∷ (number 2, 3) ∷ []; next = 4 } }
{}
