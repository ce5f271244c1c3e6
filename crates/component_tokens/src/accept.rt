//! What each token does.

ghost use Rattle.std.specs.Prelude.{◌≡◌, true, false, nat_le, Ok, IfOk, OnOk, IfErr, length};
ghost use Rattle.text_lexer.specs.Token.{IsTokenOf};
ghost use Rattle.text_grammar.specs.Component.{matches};
ghost use Rattle.text_grammar.specs.Kind.{kind_of};
ghost use Rattle.token_reader.specs.Rules.{Accepts};
ghost use Rattle.component_meaning.specs.Meaning as meaning;
ghost use Rattle.component_meaning.specs.Names.{place_of};

use crate::declarations::{accept_new_area, accept_new_field, accept_new_name};
use crate::literals::{
    accept_empty_literal, accept_negated_literal, accept_number_literal, accept_text_literal,
    count_token,
};
use crate::numbers::{accept_after_number, accept_max_number};
use crate::uses::{accept_row_field, accept_used_name, accept_used_resource, accept_used_store};
use crate::written::accept_written;
use component_draft::Draft;
use component_items::{Refusal, Why};
use component_keys::{
    accept_empty_key, accept_key_minus, accept_negated_key, accept_number_key, accept_text_key,
};
use component_tags::{accept_dash, accept_name, accept_part};
use std::alloc::Global;
use text_grammar::component::Terminal;
use text_lexer::{BadToken, Lexer, Token};
use token_parts::{check, refused};
use values::limits::MOST_OPEN;

/// Refuses what opens a block or element too many.
fn opens(draft: &Draft, token: Token) -> Result<(), Refusal>
    ensures ok { OnOk result (nat_le MOST_OPEN (length draft.now.opened) ≡ false) }
    ensures too_deep { IfErr result (λ e. (nat_le MOST_OPEN (length draft.now.opened) ≡ true) × (e ≡ Refusal.Bad Why.TooDeep (place_of token))) }
{
    if draft.blocks.depth() >= MOST_OPEN {
        return Err(refused(Why::TooDeep, token));
    }
    Ok(())
}

/// `row`, which stands in an `each` alone.
fn accept_row(
    draft: &mut Draft,
    lexer: &Lexer<'_>,
    token: Token,
    next: Result<Token, BadToken>,
) -> Result<(), Refusal>
    ensures { Accepts (meaning.accept_token lexer.now.text Terminal.Row draft.old (Ok token) next) result draft.new }
{
    count_token(draft, token)?;
    check(draft.blocks.rows().is_some(), Why::WrongPlace, token)
}

/// Takes a token for a terminal that it stands for, or says which check it fails. After a refusal the state is of
/// no use.
pub fn accept_token(
    draft: &mut Draft,
    alloc: Global,
    lexer: &Lexer<'_>,
    terminal: Terminal,
    token: Token,
    next: Result<Token, BadToken>,
) -> Result<(), Refusal>
    requires of_text { IsTokenOf lexer.now.text token }
    requires next_of_text { IfOk next (IsTokenOf lexer.now.text) }
    requires stands { matches terminal (kind_of lexer.now.text (Ok token)) ≡ true }
    ensures { Accepts (meaning.accept_token lexer.now.text terminal draft.old (Ok token) next) result draft.new }
{
    match terminal {
        Terminal::Signal | Terminal::Effect | Terminal::Load | Terminal::Store => {
            check(draft.blocks.may_declare(), Why::WrongPlace, token)
        }
        Terminal::Memo => check(draft.blocks.may_have_memo(), Why::WrongPlace, token),
        Terminal::Resource => check(draft.blocks.may_have_resource(), Why::WrongPlace, token),
        Terminal::Cleanup => check(draft.blocks.may_have_cleanup(), Why::WrongPlace, token),
        Terminal::Area => check(draft.blocks.may_have_area(), Why::WrongPlace, token),
        Terminal::Each => check(draft.blocks.may_have_each(), Why::WrongPlace, token),
        Terminal::Less | Terminal::OpenBlock => opens(draft, token),
        Terminal::TextItem | Terminal::CleanupText | Terminal::AttributeText => {
            accept_written(draft, alloc, lexer, token, next)
        }
        Terminal::NewName => accept_new_name(draft, lexer, token, next),
        Terminal::NewArea => accept_new_area(draft, lexer, token, next),
        Terminal::NewField => accept_new_field(draft, lexer, token, next),
        Terminal::UsedResource => accept_used_resource(draft, lexer, token, next),
        Terminal::UsedStore => accept_used_store(draft, lexer, token, next),
        Terminal::AfterNumber => accept_after_number(draft, lexer, token, next),
        Terminal::MaxNumber => accept_max_number(draft, lexer, token, next),
        Terminal::EmptyKey => accept_empty_key(draft, lexer, token, next),
        Terminal::TextKey => accept_text_key(draft, alloc, lexer, token, next),
        Terminal::NumberKey => accept_number_key(draft, lexer, token, next),
        Terminal::KeyMinus => accept_key_minus(draft, lexer, token, next),
        Terminal::NegatedKey => accept_negated_key(draft, lexer, token, next),
        Terminal::OpenTag | Terminal::VoidTag | Terminal::AttributeName | Terminal::CloseTag => {
            accept_name(draft, lexer, terminal, token, next)
        }
        Terminal::OpenTagPart | Terminal::AttributePart | Terminal::CloseTagPart => {
            accept_part(draft, lexer, terminal, token, next)
        }
        Terminal::Dash => accept_dash(draft, lexer, token, next),
        Terminal::Closer => Err(refused(Why::UnclosedTag, token)),
        Terminal::UsedName => accept_used_name(draft, lexer, token, next),
        Terminal::Row => accept_row(draft, lexer, token, next),
        Terminal::RowField => accept_row_field(draft, lexer, token, next),
        Terminal::EmptyLiteral => accept_empty_literal(draft, lexer, token, next),
        Terminal::TextLiteral => accept_text_literal(draft, alloc, lexer, token, next),
        Terminal::NumberLiteral => accept_number_literal(draft, lexer, token, next),
        Terminal::NegatedLiteral => accept_negated_literal(draft, lexer, token, next),
        Terminal::ExpressionIf
        | Terminal::Then
        | Terminal::Else
        | Terminal::EqualTo
        | Terminal::LessThan
        | Terminal::Plus
        | Terminal::Minus
        | Terminal::Star
        | Terminal::Slash
        | Terminal::Percent
        | Terminal::Dot
        | Terminal::OpenParen
        | Terminal::CloseParen
        | Terminal::LiteralMinus => count_token(draft, token),
        Terminal::Component
        | Terminal::Version
        | Terminal::If
        | Terminal::OpenShown
        | Terminal::Assign
        | Terminal::After
        | Terminal::Max
        | Terminal::Arrow
        | Terminal::OpenLoadKey
        | Terminal::CloseLoadKey
        | Terminal::CloseBlock
        | Terminal::OpenBrace
        | Terminal::CloseBrace
        | Terminal::VoidSlash
        | Terminal::Greater
        | Terminal::ClosingTag
        | Terminal::End => Ok(()),
    }
}
