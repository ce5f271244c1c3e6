//! Keys of store rows.

ghost use Rattle.std.specs.Prelude.{◌≡◌, true, Ok};
ghost use Rattle.text_lexer.specs.Token.{IsTokenOf};
ghost use Rattle.text_grammar.specs.declared.kind.Kind.TheVariants.{Text};
ghost use Rattle.text_grammar.specs.Class.{is_number, is_same};
ghost use Rattle.text_grammar.specs.Kind.{kind_of};
ghost use Rattle.token_reader.specs.Rules.{Accepts};
ghost use Rattle.script_meaning.specs.Meaning.{accept_token};

use component_items::Refusal;
use script_draft::ScriptDraft;
use std::alloc::Global;
use text_grammar::script::Terminal;
use text_lexer::{BadToken, Lexer, Token};
use token_parts::{negated, number};
use values::Code;

/// A text.
pub(crate) fn accept_text_key(
    draft: &mut ScriptDraft<'_>,
    alloc: Global,
    lexer: &Lexer<'_>,
    token: Token,
    next: Result<Token, BadToken>,
) -> Result<(), Refusal>
    requires of_text { IsTokenOf lexer.now.text token }
    requires text { is_same Text (kind_of lexer.now.text (Ok token)).kind ≡ true }
    ensures { Accepts (accept_token lexer.now.text Terminal.TextKey draft.old (Ok token) next) result draft.new }
{
    let number = draft.texts.add_content(alloc, lexer, token)?;
    draft.key = Some(Code::Word(number));
    Ok(())
}

/// A number.
pub(crate) fn accept_number_key(
    draft: &mut ScriptDraft<'_>,
    lexer: &Lexer<'_>,
    token: Token,
    next: Result<Token, BadToken>,
) -> Result<(), Refusal>
    requires of_text { IsTokenOf lexer.now.text token }
    requires number { is_number (kind_of lexer.now.text (Ok token)).kind ≡ true }
    ensures { Accepts (accept_token lexer.now.text Terminal.NumberKey draft.old (Ok token) next) result draft.new }
{
    draft.key = Some(number(lexer, token)?);
    Ok(())
}

/// A number behind its `-`.
pub(crate) fn accept_negated_key(
    draft: &mut ScriptDraft<'_>,
    lexer: &Lexer<'_>,
    token: Token,
    next: Result<Token, BadToken>,
) -> Result<(), Refusal>
    requires of_text { IsTokenOf lexer.now.text token }
    requires number { is_number (kind_of lexer.now.text (Ok token)).kind ≡ true }
    ensures { Accepts (accept_token lexer.now.text Terminal.NegatedKey draft.old (Ok token) next) result draft.new }
{
    draft.key = Some(negated(lexer, token)?);
    Ok(())
}
