//! Worked rows of the definitions: script texts that are refused, each with the reason and its place, and some
//! with what they mean. All are for one component: `signal a = 1 memo m = a store s max 2 { t = 0 u = empty }
//! area side { signal x = 2 <p>area inner { signal y = 3 }</p> } effect e = a if a { memo h = a }`. Columns were
//! counted by hand.

ghost use Rattle.std.specs.Prelude.{◌∷◌, ◌++◌, [], codes, pos, negsuc, Some, None};
ghost use Rattle.values.specs.declared.code.Code.TheVariants.{Empty, Number, Word};
ghost use Rattle.store_fields.specs.declared.edit.EditOp.TheVariants.{Insert, Remove, Move};
ghost use Rattle.script_items.specs.declared.operation.ScriptOp.TheVariants as op;
ghost use Rattle.script_meaning.specs.Worked.{RefusedAt, MeansPhases, worked_texts};

use component_items::{Count, Why};

/// Refused: a name of a path is not known, or stands for something else.
pub fn names_in_paths()
    ensures set_of_a_memo { RefusedAt (codes "phase lane set m = 1") Why.WrongPlace 1 16 }
    ensures through_no_area { RefusedAt (codes "phase lane set a.x = 1") Why.WrongPlace 1 16 }
    ensures rows_of_no_store { RefusedAt (codes "phase lane get a[1].t") Why.WrongPlace 1 16 }
    ensures behind_a_field { RefusedAt (codes "phase lane set s[1].t.x = 1") Why.WrongPlace 1 21 }
    ensures rows_of_an_area { RefusedAt (codes "phase lane dispose side[") Why.WrongPlace 1 20 }
    ensures area_as_a_value { RefusedAt (codes "phase lane get side $") Why.WrongPlace 1 16 }
    ensures effect_as_a_value { RefusedAt (codes "phase lane get e") Why.WrongPlace 1 16 }
    ensures store_as_a_value { RefusedAt (codes "phase lane get s") Why.WrongPlace 1 16 }
    ensures edit_of_no_store { RefusedAt (codes "phase lane remove a 1") Why.WrongPlace 1 19 }
    ensures dispose_of_no_area { RefusedAt (codes "phase lane dispose a") Why.WrongPlace 1 20 }
    ensures nowhere { RefusedAt (codes "phase lane get z") Why.UnknownName 1 16 }
    ensures outside_the_area { RefusedAt (codes "phase lane get side.a") Why.UnknownName 1 21 }
    ensures inside_an_area { RefusedAt (codes "phase lane get x") Why.UnknownName 1 16 }
    ensures inside_an_if { RefusedAt (codes "phase lane get h") Why.UnknownName 1 16 }
{}

/// Refused: a field is not known, or given twice.
pub fn fields_of_rows()
    ensures key_is_no_field { RefusedAt (codes "phase lane get s[1].key") Why.UnknownName 1 21 }
    ensures no_field { RefusedAt (codes "phase lane set s[1].a = 1") Why.UnknownName 1 21 }
    ensures no_field_inserted { RefusedAt (codes "phase lane insert s 1 { z = 1 }") Why.UnknownName 1 25 }
    ensures given_twice { RefusedAt (codes "phase lane insert s 1 { t = 1 t = 2 }") Why.NameTaken 1 31 }
{}

/// Refused: a number is too great, or a token is not allowed where it stands.
pub fn numbers_and_tokens()
    ensures great_literal { RefusedAt (codes "phase lane set a = 2147483648") Why.NumberRange 1 20 }
    ensures great_key { RefusedAt (codes "phase lane remove s -2147483649") Why.NumberRange 1 22 }
    ensures great_place { RefusedAt (codes "phase lane move s 1 to 2147483648") Why.NumberRange 1 24 }
    ensures get_of_nothing { RefusedAt (codes "phase lane get") Why.Unexpected 1 15 }
    ensures bad_token_behind_a_path { RefusedAt (codes "phase lane get a $") Why.BadToken 1 18 }
    ensures no_phase { RefusedAt (codes "lane") Why.Unexpected 1 1 }
    ensures no_lane { RefusedAt (codes "phase pump") Why.Unexpected 1 7 }
    ensures empty_key { RefusedAt (codes "phase lane remove s empty") Why.Unexpected 1 21 }
{}

/// Refused: there are too many phases, or too many lanes in one.
pub fn phases_and_lanes()
    ensures lanes { RefusedAt (codes "phase lane lane lane lane lane lane lane lane lane lane lane lane lane lane lane lane lane") Why.TooManyLanes 1 87 }
    ensures phases { RefusedAt (codes "phase phase phase phase phase phase phase phase phase phase phase phase phase phase phase phase phase phase phase phase phase phase phase phase phase phase phase phase phase phase phase phase phase phase phase phase phase phase phase phase phase phase phase phase phase phase phase phase phase phase phase phase phase phase phase phase phase phase phase phase phase phase phase phase phase ") (Why.TooLarge Count.Phases) 1 385 }
{}

/// What small scripts mean.
pub fn accepted_scripts()
    ensures nothing { MeansPhases (codes "") ([]) worked_texts }
    ensures phase { MeansPhases (codes "phase") ([] ∷ []) worked_texts }
    ensures lane { MeansPhases (codes "phase lane") (([] ∷ []) ∷ []) worked_texts }
    ensures sixteen_lanes { MeansPhases (codes "phase lane lane lane lane lane lane lane lane lane lane lane lane lane lane lane lane") (([] ∷ [] ∷ [] ∷ [] ∷ [] ∷ [] ∷ [] ∷ [] ∷ [] ∷ [] ∷ [] ∷ [] ∷ [] ∷ [] ∷ [] ∷ [] ∷ []) ∷ []) worked_texts }
    ensures sixty_four_phases { MeansPhases (codes "phase phase phase phase phase phase phase phase phase phase phase phase phase phase phase phase phase phase phase phase phase phase phase phase phase phase phase phase phase phase phase phase phase phase phase phase phase phase phase phase phase phase phase phase phase phase phase phase phase phase phase phase phase phase phase phase phase phase phase phase phase phase phase phase ") ([] ∷ [] ∷ [] ∷ [] ∷ [] ∷ [] ∷ [] ∷ [] ∷ [] ∷ [] ∷ [] ∷ [] ∷ [] ∷ [] ∷ [] ∷ [] ∷ [] ∷ [] ∷ [] ∷ [] ∷ [] ∷ [] ∷ [] ∷ [] ∷ [] ∷ [] ∷ [] ∷ [] ∷ [] ∷ [] ∷ [] ∷ [] ∷ [] ∷ [] ∷ [] ∷ [] ∷ [] ∷ [] ∷ [] ∷ [] ∷ [] ∷ [] ∷ [] ∷ [] ∷ [] ∷ [] ∷ [] ∷ [] ∷ [] ∷ [] ∷ [] ∷ [] ∷ [] ∷ [] ∷ [] ∷ [] ∷ [] ∷ [] ∷ [] ∷ [] ∷ [] ∷ [] ∷ [] ∷ [] ∷ []) worked_texts }
    ensures values { MeansPhases (codes "phase lane set a = 5 get m pump set side.x = \"q\" get side.inner.y dispose side.inner lane set s[1].u = empty get s[\"k\"].t") (((op.Set 0 None (Number (pos 5)) ∷ op.Get 1 None ∷ op.Pump ∷ op.Set 7 None (Word 13) ∷ op.Get 9 None ∷ op.Dispose 2 ∷ []) ∷ (op.Set 5 (Some (Number (pos 1))) Empty ∷ op.Get 4 (Some (Word 14)) ∷ []) ∷ []) ∷ []) (worked_texts ++ codes "q" ∷ codes "k" ∷ []) }
    ensures edits { MeansPhases (codes "phase lane insert s 7 { u = 3 } insert s -1 { } at 0 remove s 7 move s 7 to 1") (((op.Change (record { store = 2; op = Insert (Number (pos 7)) (Number (pos 0) ∷ Number (pos 3) ∷ []) 4294967295 }) ∷ op.Change (record { store = 2; op = Insert (Number (negsuc 0)) (Number (pos 0) ∷ Empty ∷ []) 0 }) ∷ op.Change (record { store = 2; op = Remove (Number (pos 7)) }) ∷ op.Change (record { store = 2; op = Move (Number (pos 7)) 1 }) ∷ []) ∷ []) ∷ []) worked_texts }
{}
