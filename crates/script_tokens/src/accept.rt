//! What each token does.

ghost use Rattle.std.specs.Prelude.{◌≡◌, true, Ok, IfOk};
ghost use Rattle.text_lexer.specs.Token.{IsTokenOf};
ghost use Rattle.text_grammar.specs.Kind.{kind_of};
ghost use Rattle.text_grammar.specs.Script.{matches};
ghost use Rattle.token_reader.specs.Rules.{Accepts};
ghost use Rattle.script_meaning.specs.Meaning as meaning;

use crate::inserts::{accept_inserted_field, accept_place_number};
use crate::keys::{accept_negated_key, accept_number_key, accept_text_key};
use crate::literals::{
    accept_empty_literal, accept_negated_literal, accept_number_literal, accept_text_literal,
};
use crate::paths::{accept_path_name, accept_row_field};
use crate::phases::{accept_lane, accept_phase};
use component_items::Refusal;
use script_draft::ScriptDraft;
use std::alloc::Global;
use text_grammar::script::Terminal;
use text_lexer::{BadToken, Lexer, Token};

/// Takes a token for a terminal that it stands for, or says which check it fails. After a refusal the state is of
/// no use.
pub fn accept_token(
    draft: &mut ScriptDraft<'_>,
    alloc: Global,
    lexer: &Lexer<'_>,
    terminal: Terminal,
    token: Token,
    next: Result<Token, BadToken>,
) -> Result<(), Refusal>
    requires of_text { IsTokenOf lexer.now.text token }
    requires next_of_text { IfOk next (IsTokenOf lexer.now.text) }
    requires stands { matches terminal (kind_of lexer.now.text (Ok token)) ≡ true }
    ensures { Accepts (meaning.accept_token lexer.now.text terminal draft.old (Ok token) next) result draft.new }
{
    match terminal {
        Terminal::Phase => accept_phase(draft, lexer, token, next),
        Terminal::Lane => accept_lane(draft, lexer, token, next),
        Terminal::SetName | Terminal::GetName | Terminal::AreaName | Terminal::StoreName => {
            accept_path_name(draft, lexer, terminal, token, next)
        }
        Terminal::RowField => accept_row_field(draft, lexer, token, next),
        Terminal::TextKey => accept_text_key(draft, alloc, lexer, token, next),
        Terminal::NumberKey => accept_number_key(draft, lexer, token, next),
        Terminal::NegatedKey => accept_negated_key(draft, lexer, token, next),
        Terminal::InsertedField => accept_inserted_field(draft, lexer, token, next),
        Terminal::PlaceNumber => accept_place_number(draft, lexer, token, next),
        Terminal::EmptyLiteral => accept_empty_literal(draft, lexer, token, next),
        Terminal::TextLiteral => accept_text_literal(draft, alloc, lexer, token, next),
        Terminal::NumberLiteral => accept_number_literal(draft, lexer, token, next),
        Terminal::NegatedLiteral => accept_negated_literal(draft, lexer, token, next),
        Terminal::Set
        | Terminal::Get
        | Terminal::Pump
        | Terminal::Dispose
        | Terminal::Insert
        | Terminal::Remove
        | Terminal::Move
        | Terminal::Dot
        | Terminal::OpenBracket
        | Terminal::CloseBracket
        | Terminal::KeyMinus
        | Terminal::Assign
        | Terminal::OpenBrace
        | Terminal::CloseBrace
        | Terminal::At
        | Terminal::To
        | Terminal::LiteralMinus
        | Terminal::End => Ok(()),
    }
}
