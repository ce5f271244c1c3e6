//! Worked rows of the definitions. Each is the contract of a function that does nothing.
ghost use Rattle.std.specs.Prelude.{◌≡◌, ℕ, [], ◌∷◌, ◌++◌, Some, None, codes, pos, map};
ghost use Rattle.std.specs.Fmt.{signed_decimal};
ghost use Rattle.values.specs.declared.code.Code.TheVariants.{Word};
ghost use Rattle.plain_evaluation.specs.Fits.{Fits};
ghost use Rattle.plain_evaluation.specs.Held.{first_held};
ghost use Rattle.plain_evaluation.specs.Killed.{killed};
ghost use Rattle.plain_evaluation.specs.Page.{page_of};
ghost use Rattle.plain_evaluation.specs.Place.{outside, of_row};
ghost use Rattle.plain_evaluation.specs.Rows.{number, product, ends, escapes, marks, side, side_dead, inside, inner_dead, outer_dead, all_dead, titles, titles_held, chosen, chosen_held, chosen_dead, who, who_held, mails, mails_held, todos, todos_held};
ghost use Rattle.plain_evaluation.specs.Scratch.{scratch, pending};
ghost use Rattle.plain_evaluation.specs.Written.{written, place_of};

/// Signals, memos and what is shown.
pub fn values()
    ensures product { scratch product (first_held product) (outside 1) ≡ number 6 }
    ensures product_page { page_of product (first_held product) ≡ codes "<p>6</p>" }
    ensures ends { page_of ends (first_held ends) ≡ codes "<p>" ++ signed_decimal (pos 2147483647) ++ signed_decimal (pos 2147483647) ++ codes "</p>" }
{}

/// Escapes, void elements and attributes.
pub fn marks()
    ensures escapes { page_of escapes (first_held escapes) ≡ codes "<p title=\"&lt;&amp;&quot;\">&lt;&amp;\"&lt;&amp;\"</p>" }
    ensures marks { page_of marks (first_held marks) ≡ codes "<p hidden class=\"a\"><br></p>" }
{}

/// Areas, live and dead; where an outer one is live, an inner one may be dead.
pub fn areas()
    ensures live { page_of side (first_held side) ≡ codes "<i>1</i><b>end</b>" }
    ensures dead { page_of side side_dead ≡ codes "<b>end</b>" }
    ensures no_places { written side side_dead ≡ [] }
    ensures both_live { page_of inside (first_held inside) ≡ codes "<i>2</i><b>1</b>" }
    ensures inner_dead { page_of inside inner_dead ≡ codes "<b>1</b>" }
    ensures inner_has_no_places { map place_of (written inside inner_dead) ≡ outside 1 ∷ outside 5 ∷ [] }
{}

/// Stores: what is in an `each` stands there once for each row.
pub fn stores()
    ensures empty { page_of titles (first_held titles) ≡ codes "<ul></ul>" }
    ensures page { page_of titles titles_held ≡ codes "<ul><li>c</li><li>b</li></ul>" }
    ensures value { scratch titles titles_held (of_row 4 (number 2)) ≡ Word 6 }
    ensures places { map place_of (written titles titles_held) ≡ of_row 2 (number 3) ∷ of_row 2 (number 2) ∷ of_row 4 (number 3) ∷ of_row 4 (number 2) ∷ [] }
{}

/// An `each` in an `if` in an area, and the key of a row in a condition. What is in an `if` has its places
/// whether the condition is true or not.
pub fn conditions()
    ensures hidden { page_of chosen (chosen_held 0) ≡ [] }
    ensures shown { page_of chosen (chosen_held 1) ≡ codes "<b>v</b>" }
    ensures first_row { scratch chosen (chosen_held 0) (of_row 7 (number 1)) ≡ number 0 }
    ensures second_row { scratch chosen (chosen_held 0) (of_row 7 (number 2)) ≡ number 1 }
{}

/// Loads: pending, arrived, arrived with another key, and arrived with a key that the resource has not.
pub fn loads()
    ensures first { pending who (first_held who) ≡ 2 ∷ [] }
    ensures first_page { page_of who (first_held who) ≡ codes "<p></p>" }
    ensures arrived { pending who (who_held (Some (number 1)) (number 1)) ≡ [] }
    ensures arrived_page { page_of who (who_held (Some (number 1)) (number 1)) ≡ codes "<p>Ann</p>" }
    ensures another { pending who (who_held (Some (number 1)) (number 2)) ≡ 2 ∷ [] }
    ensures another_page { page_of who (who_held (Some (number 1)) (number 2)) ≡ codes "<p></p>" }
    ensures unknown { pending who (who_held (Some (number 2)) (number 2)) ≡ [] }
    ensures unknown_page { page_of who (who_held (Some (number 2)) (number 2)) ≡ codes "<p></p>" }
    ensures chain { page_of mails (mails_held (Some (number 1)) (Some (number 7))) ≡ codes "<p>x@y</p>" }
    ensures second { pending mails (mails_held (Some (number 1)) None) ≡ 5 ∷ [] }
{}

/// A page as people write it.
pub fn page_of_todos()
    ensures { page_of todos todos_held ≡ codes "<main class=\"app\"><h1>Todos of Bob</h1><p>1 left</p><ul><li data-id=\"1\">Milk</li><li data-id=\"2\">Bread (done)</li></ul><footer>Press &amp; type</footer></main>" }
{}

/// State fits a component: what the laws ask can be met.
pub fn state_fits()
    ensures { Fits titles titles_held }
{}

/// Disposals: an inner area, the same again, the outer one, all, and one with a store.
pub fn disposals()
    ensures inner { killed inside 2 (first_held inside) ≡ inner_dead }
    ensures again { killed inside 2 inner_dead ≡ inner_dead }
    ensures outer { killed inside 1 (first_held inside) ≡ outer_dead }
    ensures outer_later { killed inside 1 inner_dead ≡ outer_dead }
    ensures top { killed inside 0 (first_held inside) ≡ all_dead }
    ensures store { killed chosen 1 (chosen_held 1) ≡ chosen_dead }
{}
