//! What is printed of a run's answers and journal.
ghost use Rattle.std.specs.Prelude.{◌≡◌, [], ◌∷◌, Some, codes, pos, negsuc};
ghost use Rattle.values.specs.declared.code.Code.TheVariants.{Empty, Number, Word};
ghost use Rattle.values.specs.declared.plan.Fact.TheVariants as fact;
ghost use Rattle.values.specs.declared.plan.Left.TheVariants as left;
ghost use Rattle.store_fields.specs.declared.edit.Verdict.TheVariants as verdict;
ghost use Rattle.run_items.specs.declared.answer.Reply.TheVariants as reply;
ghost use Rattle.run_meaning.specs.Report.{report, reply_text, fact_text, code_text};
ghost use Rattle.run_rows.specs.Rows.{branch, remainder, equal, diamond, edits, area, pumps, gone};

/// The report of a run, asked for by `-a`.
pub fn reports()
    ensures branch { report [] (branch ∷ []) ≡ codes "1.1.1 set 1\n1.1.2 get 5 at 0\njournal 1.1 write 2 8\n" }
    ensures remainder { report [] (remainder ∷ []) ≡ codes "1.1.1 set 1\n1.1.2 get 11 at 0\njournal 1.1 write 0 3\n" }
    ensures equal { report [] (equal ∷ []) ≡ codes "1.1.1 set 1\n1.1.2 set 2\n1.1.3 get 2 at 0\njournal 1.1 write 0 1\njournal 1.2 write 0 1\n" }
    ensures diamond { report [] (diamond ∷ []) ≡ codes "1.1.1 set 1\n1.1.2 get 23 at 4\njournal 1.1 write 0 10\njournal 1.2 change 1 11\njournal 1.3 change 2 12\njournal 1.4 change 3 23\n" }
    ensures edits { report [] (edits ∷ []) ≡ codes "1.1.1 edit 1 done\n1.1.2 edit 2 present\n1.1.3 edit 3 max\njournal 1.1 edit 1 0\njournal 1.2 edit 1 1\njournal 1.3 edit 1 2\n" }
    ensures area { report ([] ∷ codes "side" ∷ codes "x" ∷ codes "bye" ∷ []) (area ∷ []) ≡ codes "1.1.1 dispose now 1 before 0\n1.1.2 dispose now 0 before 1\n1.1.3 disposed 1\njournal 1.1 disposed 1\ncleanup \"bye\"\n" }
    ensures pumps { report [] (pumps ∷ []) ≡ codes "1.1.1 pump ran 1 same 0 gone 0 left 0\n1.1.2 set 2\n1.1.3 pump ran 1 same 0 gone 0 left 0\n1.1.4 pump ran 0 same 1 gone 0 left 0\njournal 1.1 ran 1 10\njournal 1.2 write 0 2\njournal 1.3 ran 1 20\n" }
    ensures gone { report [] (gone ∷ []) ≡ codes "1.1.1 dispose now 1 before 0\n1.1.2 pump ran 0 same 0 gone 1 left 0\njournal 1.1 disposed 1\n" }
{}

/// The phases of a run are numbered, and so are its lanes.
pub fn phases_are_numbered()
    ensures { report [] (branch ∷ record equal { lanes = [] ∷ equal.lanes } ∷ []) ≡ codes "1.1.1 set 1\n1.1.2 get 5 at 0\njournal 1.1 write 2 8\n2.2.1 set 1\n2.2.2 set 2\n2.2.3 get 2 at 0\njournal 2.1 write 0 1\njournal 2.2 write 0 1\n" }
{}

/// The replies, facts and values that stand in no row above.
pub fn further_words()
    ensures no_row { reply_text [] reply.NoRow ≡ codes "norow" }
    ensures busy { reply_text [] (reply.Busy 3) ≡ codes "busy 3" }
    ensures again { reply_text [] (reply.Again 3) ≡ codes "again 3" }
    ensures full { reply_text [] (reply.Full 7) ≡ codes "full 7" }
    ensures absent { reply_text [] (reply.Edited 2 verdict.Absent) ≡ codes "edit 2 absent" }
    ensures void { fact_text [] (fact.Void 4) ≡ codes "void 4" }
    ensures empty { code_text [] Empty ≡ codes "empty" }
    ensures below_zero { code_text [] (Number (negsuc 6)) ≡ codes "-7" }
    ensures quoted { code_text ([] ∷ codes "a\"b\\c\nd\te<" ∷ []) (Word 1) ≡ codes "\"a\\\"b\\\\c\\nd\\te<\"" }
{}
