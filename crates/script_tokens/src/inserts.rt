//! The fields and the place of an insert, and the place of a move.

ghost use Rattle.std.specs.Prelude.{◌≡◌, true, false, unwrap_or, slice_get, slice_set, Ok};
ghost use Rattle.text_lexer.specs.Token.{IsTokenOf};
ghost use Rattle.text_grammar.specs.Class.{is_number};
ghost use Rattle.text_grammar.specs.Kind.{kind_of};
ghost use Rattle.token_reader.specs.Rules.{Accepts};
ghost use Rattle.script_meaning.specs.Meaning.{accept_token};

use crate::paths::field_place;
use component_items::{Refusal, Why};
use script_draft::ScriptDraft;
use text_grammar::script::Terminal;
use text_lexer::{BadToken, Lexer, Token};
use token_parts::{refused, value};

/// Whether the flag at a place is set.
fn is_set(flags: &[bool], place: usize) -> bool
    ensures { result ≡ unwrap_or (slice_get flags.now place) false }
{
    flags.get(place).copied().unwrap_or(false)
}

/// Sets the flag at a place, where there is one.
fn set(flags: &mut [bool], place: usize)
    ensures { flags.new ≡ slice_set flags.old place true }
{
    if place < flags.len() {
        flags[place] = true;
    }
}

/// The name of a field that is given a value.
pub(crate) fn accept_inserted_field(
    draft: &mut ScriptDraft<'_>,
    lexer: &Lexer<'_>,
    token: Token,
    next: Result<Token, BadToken>,
) -> Result<(), Refusal>
    requires of_text { IsTokenOf lexer.now.text token }
    ensures { Accepts (accept_token lexer.now.text Terminal.InsertedField draft.old (Ok token) next) result draft.new }
{
    let Some(place) = field_place(draft, lexer, token) else {
        return Err(refused(Why::UnknownName, token));
    };
    if is_set(draft.given.as_slice(), place) {
        return Err(refused(Why::NameTaken, token));
    }
    set(draft.given.as_mut_slice(), place);
    draft.field = place;
    Ok(())
}

/// A place among the rows of a store.
pub(crate) fn accept_place_number(
    draft: &mut ScriptDraft<'_>,
    lexer: &Lexer<'_>,
    token: Token,
    next: Result<Token, BadToken>,
) -> Result<(), Refusal>
    requires of_text { IsTokenOf lexer.now.text token }
    requires number { is_number (kind_of lexer.now.text (Ok token)).kind ≡ true }
    ensures { Accepts (accept_token lexer.now.text Terminal.PlaceNumber draft.old (Ok token) next) result draft.new }
{
    draft.place = value(lexer, token)?;
    Ok(())
}
