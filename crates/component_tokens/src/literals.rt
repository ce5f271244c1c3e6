//! The tokens of an expression, but for names.

ghost use Rattle.std.specs.Prelude.{◌≡◌, true, false, nat_le, Ok, IfOk, OnOk, IfErr};
ghost use Rattle.text_lexer.specs.Token.{IsTokenOf};
ghost use Rattle.text_grammar.specs.declared.kind.Kind.TheVariants.{Text};
ghost use Rattle.text_grammar.specs.Class.{is_number, is_same};
ghost use Rattle.text_grammar.specs.Kind.{kind_of};
ghost use Rattle.token_reader.specs.Rules.{Accepts};
ghost use Rattle.component_meaning.specs.Meaning.{accept_token};
ghost use Rattle.component_meaning.specs.Names as names;
ghost use Rattle.component_meaning.specs.Effects.{counted};

use component_draft::Draft;
use component_items::{Refusal, Why};
use std::alloc::Global;
use text_grammar::component::Terminal;
use text_lexer::{BadToken, Lexer, Token};
use token_parts::{add_content, negated, number, refused};
use values::Code;
use values::limits::MOST_EXPRESSION_TOKENS;

/// One more token of the expression.
pub(crate) fn count_token(draft: &mut Draft, token: Token) -> Result<(), Refusal>
    ensures ok { OnOk result ((nat_le MOST_EXPRESSION_TOKENS draft.old.tokens ≡ false) × (draft.new ≡ counted draft.old)) }
    ensures too_deep { IfErr result (λ e. (nat_le MOST_EXPRESSION_TOKENS draft.old.tokens ≡ true) × (e ≡ Refusal.Bad Why.TooDeep (names.place_of token))) }
{
    if draft.tokens as usize >= MOST_EXPRESSION_TOKENS {
        return Err(refused(Why::TooDeep, token));
    }
    draft.tokens += 1;
    Ok(())
}

/// Nothing, as a literal.
pub(crate) fn accept_empty_literal(
    draft: &mut Draft,
    lexer: &Lexer<'_>,
    token: Token,
    next: Result<Token, BadToken>,
) -> Result<(), Refusal>
    requires of_text { IsTokenOf lexer.now.text token }
    ensures { Accepts (accept_token lexer.now.text Terminal.EmptyLiteral draft.old (Ok token) next) result draft.new }
{
    count_token(draft, token)?;
    draft.literal = Code::Empty;
    Ok(())
}

/// A number, as a literal.
pub(crate) fn accept_number_literal(
    draft: &mut Draft,
    lexer: &Lexer<'_>,
    token: Token,
    next: Result<Token, BadToken>,
) -> Result<(), Refusal>
    requires of_text { IsTokenOf lexer.now.text token }
    requires number { is_number (kind_of lexer.now.text (Ok token)).kind ≡ true }
    ensures { Accepts (accept_token lexer.now.text Terminal.NumberLiteral draft.old (Ok token) next) result draft.new }
{
    count_token(draft, token)?;
    draft.literal = number(lexer, token)?;
    Ok(())
}

/// A number behind its `-`, as a literal.
pub(crate) fn accept_negated_literal(
    draft: &mut Draft,
    lexer: &Lexer<'_>,
    token: Token,
    next: Result<Token, BadToken>,
) -> Result<(), Refusal>
    requires of_text { IsTokenOf lexer.now.text token }
    requires number { is_number (kind_of lexer.now.text (Ok token)).kind ≡ true }
    ensures { Accepts (accept_token lexer.now.text Terminal.NegatedLiteral draft.old (Ok token) next) result draft.new }
{
    count_token(draft, token)?;
    draft.literal = negated(lexer, token)?;
    Ok(())
}

/// A text, as a literal.
pub(crate) fn accept_text_literal(
    draft: &mut Draft,
    alloc: Global,
    lexer: &Lexer<'_>,
    token: Token,
    next: Result<Token, BadToken>,
) -> Result<(), Refusal>
    requires of_text { IsTokenOf lexer.now.text token }
    requires text { is_same Text (kind_of lexer.now.text (Ok token)).kind ≡ true }
    ensures { Accepts (accept_token lexer.now.text Terminal.TextLiteral draft.old (Ok token) next) result draft.new }
{
    count_token(draft, token)?;
    let number = add_content(alloc, &mut draft.texts, lexer, token)?;
    draft.literal = Code::Word(number);
    Ok(())
}
