//! Keys of resources.

ghost use Rattle.std.specs.Prelude.{◌≡◌, true, Ok, IfOk};
ghost use Rattle.text_lexer.specs.Token.{IsTokenOf};
ghost use Rattle.token_reader.specs.Rules.{Accepts};
ghost use Rattle.component_meaning.specs.Checks as checks;
ghost use Rattle.component_meaning.specs.Meaning.{accept_token};
ghost use Rattle.component_meaning.specs.Names.{place_of as place_in};
ghost use Rattle.text_grammar.specs.declared.kind.Kind.TheVariants.{Text};
ghost use Rattle.text_grammar.specs.Class.{is_number, is_same};
ghost use Rattle.text_grammar.specs.Kind.{kind_of};
ghost use Rattle.component_keys.specs.Keys.{text_key_or_refusal};

use component_draft::Draft;
use component_items::{Refusal, Why};
use std::alloc::Global;
use text_grammar::component::Terminal;
use text_lexer::{BadToken, Lexer, Token};
use token_parts::{add_found, check, content, negated, negated_next, number, place_of};
use values::Code;

/// Nothing, as a key.
pub fn accept_empty_key(
    draft: &mut Draft,
    lexer: &Lexer<'_>,
    token: Token,
    next: Result<Token, BadToken>,
) -> Result<(), Refusal>
    requires { IsTokenOf lexer.now.text token }
    ensures { Accepts (accept_token lexer.now.text Terminal.EmptyKey draft.old (Ok token) next) result draft.new }
{
    check(!draft.keys.contains(Code::Empty), Why::NameTaken, token)?;
    draft.keys.push(Code::Empty)?;
    Ok(())
}

/// A number, as a key.
pub fn accept_number_key(
    draft: &mut Draft,
    lexer: &Lexer<'_>,
    token: Token,
    next: Result<Token, BadToken>,
) -> Result<(), Refusal>
    requires of_text { IsTokenOf lexer.now.text token }
    requires number { is_number (kind_of lexer.now.text (Ok token)).kind ≡ true }
    ensures { Accepts (accept_token lexer.now.text Terminal.NumberKey draft.old (Ok token) next) result draft.new }
{
    let key = number(lexer, token)?;
    check(!draft.keys.contains(key), Why::NameTaken, token)?;
    draft.keys.push(key)?;
    Ok(())
}

/// Whether the number behind a `-` makes a key that is taken.
fn has_negated_key(draft: &Draft, lexer: &Lexer<'_>, next: Result<Token, BadToken>) -> bool
    requires { IfOk next (IsTokenOf lexer.now.text) }
    ensures { result ≡ checks.has_negated_key lexer.now.text next draft.now }
{
    match negated_next(lexer, next) {
        Some(key) => draft.keys.contains(key),
        None => false,
    }
}

/// The `-` of a key: where the key that it begins is taken, this is where it is refused.
pub fn accept_key_minus(
    draft: &mut Draft,
    lexer: &Lexer<'_>,
    token: Token,
    next: Result<Token, BadToken>,
) -> Result<(), Refusal>
    requires of_text { IsTokenOf lexer.now.text token }
    requires next_of_text { IfOk next (IsTokenOf lexer.now.text) }
    ensures { Accepts (accept_token lexer.now.text Terminal.KeyMinus draft.old (Ok token) next) result draft.new }
{
    check(!has_negated_key(draft, lexer, next), Why::NameTaken, token)
}

/// A number behind its `-`, as a key.
pub fn accept_negated_key(
    draft: &mut Draft,
    lexer: &Lexer<'_>,
    token: Token,
    next: Result<Token, BadToken>,
) -> Result<(), Refusal>
    requires of_text { IsTokenOf lexer.now.text token }
    requires number { is_number (kind_of lexer.now.text (Ok token)).kind ≡ true }
    ensures { Accepts (accept_token lexer.now.text Terminal.NegatedKey draft.old (Ok token) next) result draft.new }
{
    let key = negated(lexer, token)?;
    draft.keys.push(key)?;
    Ok(())
}

/// A text, as a key.
pub fn accept_text_key(
    draft: &mut Draft,
    alloc: Global,
    lexer: &Lexer<'_>,
    token: Token,
    next: Result<Token, BadToken>,
) -> Result<(), Refusal>
    requires of_text { IsTokenOf lexer.now.text token }
    requires text { is_same Text (kind_of lexer.now.text (Ok token)).kind ≡ true }
    ensures { Accepts (accept_token lexer.now.text Terminal.TextKey draft.old (Ok token) next) result draft.new }
{
    match content(alloc, lexer, token) {
        Ok(text) => push_text_key(draft, text.as_str(), token),
        Err(_) => Err(Refusal::NoMemory),
    }
}

/// This text, which the token brings, is a key.
fn push_text_key(draft: &mut Draft, text: &str, token: Token) -> Result<(), Refusal>
    ensures { Accepts (text_key_or_refusal text.now (place_in token) draft.old) result draft.new }
{
    let found = draft.texts.find(text);
    check(!has_text_key(draft, found), Why::NameTaken, token)?;
    let number = add_found(&mut draft.texts, found, text, place_of(token))?;
    draft.keys.push(Code::Word(number))?;
    Ok(())
}

/// Whether a text is a key, by its number in the table of texts.
fn has_text_key(draft: &Draft, text: Option<u32>) -> bool
    ensures { result ≡ checks.has_text_key text draft.now }
{
    match text {
        Some(number) => draft.keys.contains(Code::Word(number)),
        None => false,
    }
}
