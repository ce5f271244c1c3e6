//! Numbers of resources and stores.

ghost use Rattle.std.specs.Prelude.{◌≡◌, true, Ok, IfOk};
ghost use Rattle.text_lexer.specs.Token.{IsTokenOf};
ghost use Rattle.text_grammar.specs.Class.{is_number};
ghost use Rattle.text_grammar.specs.Kind.{kind_of};
ghost use Rattle.token_reader.specs.Rules.{Accepts};
ghost use Rattle.component_meaning.specs.Meaning.{accept_token};

use component_draft::Draft;
use component_items::{Count, Refusal, Why};
use text_grammar::component::Terminal;
use text_lexer::{BadToken, Lexer, Token};
use token_parts::{refused, value};
use values::limits::MOST_ROWS;

/// The number of a resource.
pub(crate) fn accept_after_number(
    draft: &mut Draft,
    lexer: &Lexer<'_>,
    token: Token,
    next: Result<Token, BadToken>,
) -> Result<(), Refusal>
    requires of_text { IsTokenOf lexer.now.text token }
    requires number { is_number (kind_of lexer.now.text (Ok token)).kind ≡ true }
    ensures { Accepts (accept_token lexer.now.text Terminal.AfterNumber draft.old (Ok token) next) result draft.new }
{
    draft.number = value(lexer, token)?;
    Ok(())
}

/// The most rows of a store.
pub(crate) fn accept_max_number(
    draft: &mut Draft,
    lexer: &Lexer<'_>,
    token: Token,
    next: Result<Token, BadToken>,
) -> Result<(), Refusal>
    requires of_text { IsTokenOf lexer.now.text token }
    requires number { is_number (kind_of lexer.now.text (Ok token)).kind ≡ true }
    ensures { Accepts (accept_token lexer.now.text Terminal.MaxNumber draft.old (Ok token) next) result draft.new }
{
    let most = value(lexer, token)?;
    if most as usize > MOST_ROWS {
        return Err(refused(Why::TooLarge(Count::StoreRows), token));
    }
    draft.number = most;
    Ok(())
}
