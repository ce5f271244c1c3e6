//! What phases open with, laid out from the components and their held state.
ghost use Rattle.std.specs.Prelude.{◌≡◌, Some, None};
ghost use Rattle.plain_evaluation.specs.Held.{first_held};
ghost use Rattle.plain_evaluation.specs.Rows.{number, side, side_dead, titles, titles_held};
ghost use Rattle.run_meaning.specs.Opened.{opened_of, at_row, at_none, at_dead};
ghost use Rattle.run_rows.specs.Rows.{branch_opened, remainder_opened, equal_opened, diamond_opened, store_opened, area_opened, effect_opened, gone_opened};
ghost use Rattle.run_rows.specs.Texts.{branch_text, remainder_text, equal_text, diamond_text, store_text, effect_text, gone_text, OpenAlike};

/// The phases that ran rightly opened with what their components lay out at the start.
pub fn openings()
    ensures branch { OpenAlike (opened_of branch_text (first_held branch_text)) branch_opened }
    ensures remainder { OpenAlike (opened_of remainder_text (first_held remainder_text)) remainder_opened }
    ensures equal { OpenAlike (opened_of equal_text (first_held equal_text)) equal_opened }
    ensures diamond { OpenAlike (opened_of diamond_text (first_held diamond_text)) diamond_opened }
    ensures store { OpenAlike (opened_of store_text (first_held store_text)) store_opened }
    ensures area { OpenAlike (opened_of side (first_held side)) area_opened }
    ensures effect { OpenAlike (opened_of effect_text (first_held effect_text)) effect_opened }
    ensures gone { OpenAlike (opened_of gone_text (first_held gone_text)) gone_opened }
{}

/// What ids stand for: rows of the plan, what a dead owner owned, and store rows that are not there.
pub fn targets()
    ensures live { (opened_of side (first_held side)).target 1 None ≡ at_row 0 }
    ensures dead { (opened_of side side_dead).target 1 None ≡ at_dead 1 }
    ensures owner { (opened_of side side_dead).owner_of 1 ≡ 1 }
    ensures field { (opened_of titles titles_held).target 2 (Some (number 2)) ≡ at_row 1 }
    ensures no_row { (opened_of titles titles_held).target 2 (Some (number 1)) ≡ at_none }
{}
