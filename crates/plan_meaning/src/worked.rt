//! Worked rows of the definitions. Each is the contract of a function that does nothing.
ghost use Rattle.std.specs.Prelude.{◌≡◌, ℕ, [], ◌∷◌, Some, None, true, false};
ghost use Rattle.values.specs.declared.code.Op.TheVariants as op;
ghost use Rattle.values.specs.declared.expr.Expr.TheVariants.{Lit, Read, Binary};
ghost use Rattle.values.specs.declared.plan.Kind.TheVariants as kind;
ghost use Rattle.plain_evaluation.specs.Held.{first_held};
ghost use Rattle.plain_evaluation.specs.Place.{outside, of_row};
ghost use Rattle.plain_evaluation.specs.Rows.{number, side, side_dead, inside, inner_dead, titles, titles_held, chosen, chosen_held, who, who_held, todos, todos_held};
ghost use Rattle.plain_evaluation.specs.Written.{state_of, written};
ghost use Rattle.plan_meaning.specs.Carried.{rows_to};
ghost use Rattle.plan_meaning.specs.Layout.{places_of, row_of, plan_of};
ghost use Rattle.plan_meaning.specs.Owners.{top_owner, plan_owners};
ghost use Rattle.plan_meaning.specs.There.{is_there};
ghost use Rattle.plan_meaning.specs.Worked.{source, memo, effect, owner_in, attributes, areas, titles_fewer};

/// A page as people write it, with two rows in its store.
pub fn rows_of_todos()
    ensures places { places_of (written todos todos_held) ≡ outside 0 ∷ outside 1 ∷ of_row 4 (number 1) ∷ of_row 5 (number 1) ∷ of_row 4 (number 2) ∷ of_row 5 (number 2) ∷ outside 15 ∷ outside 6 ∷ outside 7 ∷ outside 8 ∷ outside 9 ∷ of_row 11 (number 1) ∷ of_row 12 (number 1) ∷ of_row 13 (number 1) ∷ of_row 11 (number 2) ∷ of_row 12 (number 2) ∷ of_row 13 (number 2) ∷ outside 16 ∷ [] }
    ensures nodes { (plan_of todos (state_of todos_held)).nodes ≡ source kind.Signal 0 ∷ source kind.Signal 0 ∷ source kind.Field 0 ∷ source kind.Field 0 ∷ source kind.Field 0 ∷ source kind.Field 0 ∷ source kind.Signal 1 ∷ memo (Binary op.Sub (Lit (number 3)) (Read 1)) 0 ∷ memo (Read 0) 0 ∷ memo (Read 7) 0 ∷ memo (Read 7) 0 ∷ memo (Lit (number 1)) 0 ∷ memo (Read 2) 0 ∷ memo (Read 3) 0 ∷ memo (Lit (number 2)) 0 ∷ memo (Read 4) 0 ∷ memo (Read 5) 0 ∷ memo (Read 6) 1 ∷ [] }
    ensures owners { plan_owners todos ≡ top_owner ∷ owner_in 0 (23 ∷ []) ∷ [] }
{}

/// What is in a dead area has no rows; its owner stays.
pub fn dead_areas()
    ensures places { places_of (written inside inner_dead) ≡ outside 1 ∷ outside 5 ∷ [] }
    ensures nodes { (plan_of inside (state_of inner_dead)).nodes ≡ source kind.Signal 1 ∷ memo (Read 0) 1 ∷ [] }
    ensures owners { (plan_of inside (state_of inner_dead)).owners ≡ top_owner ∷ owner_in 0 [] ∷ owner_in 1 [] ∷ [] }
    ensures alone { (plan_of side (state_of side_dead)).nodes ≡ [] }
    ensures cleanup { (plan_of side (state_of side_dead)).owners ≡ top_owner ∷ owner_in 0 (3 ∷ []) ∷ [] }
{}

/// An `each` in an `if` in an area: conditions have their rows where they are false, what is in an `if` has its
/// rows too, and the key of a row is a literal.
pub fn conditions()
    ensures places { places_of (written chosen (chosen_held 0)) ≡ outside 1 ∷ of_row 4 (number 1) ∷ of_row 4 (number 2) ∷ outside 5 ∷ of_row 7 (number 1) ∷ of_row 8 (number 1) ∷ of_row 7 (number 2) ∷ of_row 8 (number 2) ∷ [] }
    ensures nodes { (plan_of chosen (state_of (chosen_held 0))).nodes ≡ source kind.Signal 1 ∷ source kind.Field 1 ∷ source kind.Field 1 ∷ memo (Read 0) 1 ∷ memo (Binary op.Equal (Lit (number 1)) (Lit (number 2))) 1 ∷ memo (Read 1) 1 ∷ memo (Binary op.Equal (Lit (number 2)) (Lit (number 2))) 1 ∷ memo (Read 2) 1 ∷ [] }
{}

/// A load and its key, pending and arrived.
pub fn loads()
    ensures places { places_of (written who (first_held who)) ≡ outside 1 ∷ outside 2 ∷ outside 3 ∷ outside 4 ∷ [] }
    ensures pending { (plan_of who (state_of (first_held who))).nodes ≡ source kind.Signal 0 ∷ source kind.Load 0 ∷ memo (Read 0) 0 ∷ memo (Read 1) 0 ∷ [] }
    ensures arrived { (plan_of who (state_of (who_held (Some (number 1)) (number 1)))).nodes ≡ source kind.Signal 0 ∷ source kind.Load 0 ∷ memo (Read 0) 0 ∷ memo (Read 1) 0 ∷ [] }
    ensures key { row_of (places_of (written who (first_held who))) (outside 3) ≡ Some 2 }
{}

/// An effect, and attributes, which come before the items of their element.
pub fn attributes_in_order()
    ensures places { places_of (written attributes (first_held attributes)) ≡ outside 0 ∷ outside 2 ∷ outside 1 ∷ outside 3 ∷ outside 4 ∷ outside 5 ∷ outside 6 ∷ [] }
    ensures nodes { (plan_of attributes (state_of (first_held attributes))).nodes ≡ source kind.Signal 0 ∷ source kind.Signal 0 ∷ effect (Read 0) 0 ∷ memo (Read 0) 0 ∷ memo (Read 1) 0 ∷ memo (Read 0) 0 ∷ memo (Read 1) 0 ∷ [] }
{}

/// Areas inside areas, with the cleanups that stand in them directly.
pub fn nested_areas()
    ensures { plan_owners areas ≡ top_owner ∷ owner_in 0 (2 ∷ 5 ∷ []) ∷ owner_in 1 (4 ∷ []) ∷ owner_in 0 [] ∷ [] }
{}

/// When the first row of a store is removed, the second one's places go to smaller rows, and those of the first
/// go nowhere.
pub fn rows_that_go_over()
    ensures fewer { rows_to (places_of (written titles titles_held)) (places_of (written titles titles_fewer)) ≡ None ∷ Some 0 ∷ None ∷ Some 1 ∷ [] }
    ensures more { rows_to (places_of (written titles titles_fewer)) (places_of (written titles titles_held)) ≡ Some 1 ∷ Some 3 ∷ [] }
    ensures nowhere { row_of (places_of (written titles titles_fewer)) (of_row 4 (number 3)) ≡ None }
{}

/// A place is there where its owner is live and its row is in the store; an area and a store have none themselves.
pub fn places_that_are_there()
    ensures live { is_there inside (state_of inner_dead) (outside 1) ≡ true }
    ensures dead { is_there inside (state_of inner_dead) (outside 3) ≡ false }
    ensures area { is_there inside (state_of inner_dead) (outside 0) ≡ false }
    ensures row { is_there titles (state_of titles_held) (of_row 4 (number 3)) ≡ true }
    ensures no_row { is_there titles (state_of titles_fewer) (of_row 4 (number 3)) ≡ false }
    ensures no_key { is_there titles (state_of titles_held) (outside 2) ≡ false }
    ensures store { is_there titles (state_of titles_held) (outside 0) ≡ false }
{}
