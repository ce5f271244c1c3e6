//! Names that are declared.

ghost use Rattle.std.specs.Prelude.{◌≡◌, ◌==◌, Ok, IfOk, find, position, is_some};
ghost use Rattle.std.specs.Option.{option_copied, option_and_then};
ghost use Rattle.text_lexer.specs.Token.{IsTokenOf};
ghost use Rattle.token_reader.specs.Rules.{Accepts};
ghost use Rattle.component_meaning.specs.Meaning.{accept_token};
ghost use Rattle.component_meaning.specs.Names.{declared_as};

use component_draft::Draft;
use component_items::{Count, Refusal, Why};
use component_scope::Declaration;
use text_grammar::component::Terminal;
use text_lexer::{BadToken, Lexer, Token};
use token_parts::{add_found, check, is_key, place_of, refused};
use values::limits::MOST_OWNERS;

/// What a name stands for here, by its number in the table of texts.
pub(crate) fn named(draft: &Draft, found: Option<u32>) -> Option<&Declaration>
    ensures { option_copied result ≡ option_and_then (λ n. find (λ d. d.name == n) draft.now.seen) found }
{
    draft.blocks.find(found?)
}

/// What a name stands for here, if it is seen.
pub(crate) fn declared<'a>(draft: &'a Draft, name: &str) -> Option<&'a Declaration>
    ensures { option_copied result ≡ declared_as name.now draft.entry.now }
{
    named(draft, draft.texts.find(name))
}

/// The name of a declaration that is no area.
pub(crate) fn accept_new_name(
    draft: &mut Draft,
    lexer: &Lexer<'_>,
    token: Token,
    next: Result<Token, BadToken>,
) -> Result<(), Refusal>
    requires { IsTokenOf lexer.now.text token }
    ensures { Accepts (accept_token lexer.now.text Terminal.NewName draft.old (Ok token) next) result draft.new }
{
    let name = lexer.slice(&token);
    let found = draft.texts.find(name);
    check(named(draft, found).is_none(), Why::NameTaken, token)?;
    draft.name = add_found(&mut draft.texts, found, name, place_of(token))?;
    Ok(())
}

/// The name of an area.
pub(crate) fn accept_new_area(
    draft: &mut Draft,
    lexer: &Lexer<'_>,
    token: Token,
    next: Result<Token, BadToken>,
) -> Result<(), Refusal>
    requires { IsTokenOf lexer.now.text token }
    ensures { Accepts (accept_token lexer.now.text Terminal.NewArea draft.old (Ok token) next) result draft.new }
{
    let name = lexer.slice(&token);
    let found = draft.texts.find(name);
    check(named(draft, found).is_none(), Why::NameTaken, token)?;
    if draft.next_owner as usize >= MOST_OWNERS {
        return Err(refused(Why::TooLarge(Count::Owners), token));
    }
    draft.name = add_found(&mut draft.texts, found, name, place_of(token))?;
    Ok(())
}

/// Whether a store that is declared has a field of this name, by its number in the table of texts.
fn has_field(draft: &Draft, found: Option<u32>) -> bool
    ensures { result ≡ is_some (option_and_then (λ n. position (λ f. f == n) draft.now.fields) found) }
{
    match found {
        Some(number) => draft.fields.place(number).is_some(),
        None => false,
    }
}

/// A field that a store declares.
pub(crate) fn accept_new_field(
    draft: &mut Draft,
    lexer: &Lexer<'_>,
    token: Token,
    next: Result<Token, BadToken>,
) -> Result<(), Refusal>
    requires { IsTokenOf lexer.now.text token }
    ensures { Accepts (accept_token lexer.now.text Terminal.NewField draft.old (Ok token) next) result draft.new }
{
    let name = lexer.slice(&token);
    let found = draft.texts.find(name);
    if is_key(name) || has_field(draft, found) {
        return Err(refused(Why::NameTaken, token));
    }
    let number = add_found(&mut draft.texts, found, name, place_of(token))?;
    draft.fields.push(number)?;
    Ok(())
}
