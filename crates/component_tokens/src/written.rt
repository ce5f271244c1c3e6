//! Texts that stand in no expression.

ghost use Rattle.std.specs.Prelude.{◌≡◌, true, false, nat_le, Ok, Err, IfOk, OnOk, IfErr};
ghost use Rattle.text_lexer.specs.Token.{IsTokenOf};
ghost use Rattle.text_grammar.specs.declared.kind.Kind.TheVariants.{Text};
ghost use Rattle.text_grammar.specs.Class.{is_number, is_same};
ghost use Rattle.text_grammar.specs.Kind.{kind_of};
ghost use Rattle.token_reader.specs.Rules.{Accepts};
ghost use Rattle.component_meaning.specs.Meaning.{accept_token};
ghost use Rattle.component_meaning.specs.Names as names;
ghost use Rattle.component_meaning.specs.Effects.{counted};

use component_draft::Draft;
use component_items::Refusal;
use std::alloc::Global;
use text_grammar::component::Terminal;
use text_lexer::{BadToken, Lexer, Token};
use token_parts::add_content;

/// A text of the page, of a cleanup or of an attribute.
pub(crate) fn accept_written(
    draft: &mut Draft,
    alloc: Global,
    lexer: &Lexer<'_>,
    token: Token,
    next: Result<Token, BadToken>,
) -> Result<(), Refusal>
    requires of_text { IsTokenOf lexer.now.text token }
    requires text { is_same Text (kind_of lexer.now.text (Ok token)).kind ≡ true }
    ensures item { Accepts (accept_token lexer.now.text Terminal.TextItem draft.old (Ok token) next) result draft.new }
    ensures cleanup { Accepts (accept_token lexer.now.text Terminal.CleanupText draft.old (Ok token) next) result draft.new }
    ensures attribute { Accepts (accept_token lexer.now.text Terminal.AttributeText draft.old (Ok token) next) result draft.new }
{
    draft.written = add_content(alloc, &mut draft.texts, lexer, token)?;
    Ok(())
}
