//! Names that are used.

ghost use Rattle.std.specs.Prelude.{◌≡◌, Ok, None, Some, IfOk, IfErr};
ghost use Rattle.text_lexer.specs.Token.{IsTokenOf};
ghost use Rattle.token_reader.specs.Rules.{Accepts};
ghost use Rattle.component_meaning.specs.Meaning.{accept_token};
ghost use Rattle.component_meaning.specs.Names.{bytes_of, place_of, declared_as, part_in};

use crate::declarations::declared;
use crate::literals::count_token;
use component_draft::Draft;
use component_items::{Refusal, Why};
use component_scope::Declaration;
use text_grammar::component::Terminal;
use text_lexer::{BadToken, Lexer, Token};
use token_parts::{check, is_key, refused};
use values::Expr;

/// What a name stands for here. One that stands for nothing is refused.
fn known<'d>(draft: &'d Draft, lexer: &Lexer<'_>, token: Token) -> Result<&'d Declaration, Refusal>
    requires { IsTokenOf lexer.now.text token }
    ensures known { IfOk result (λ declaration. declared_as (bytes_of lexer.now.text token) draft.entry.now ≡ Some declaration.now) }
    ensures unknown { IfErr result (λ e. (declared_as (bytes_of lexer.now.text token) draft.entry.now ≡ None) × (e ≡ Refusal.Bad Why.UnknownName (place_of token))) }
{
    match declared(draft, lexer.slice(&token)) {
        Some(declaration) => Ok(declaration),
        None => Err(refused(Why::UnknownName, token)),
    }
}

/// A name that stands for its value.
pub(crate) fn accept_used_name(
    draft: &mut Draft,
    lexer: &Lexer<'_>,
    token: Token,
    next: Result<Token, BadToken>,
) -> Result<(), Refusal>
    requires { IsTokenOf lexer.now.text token }
    ensures { Accepts (accept_token lexer.now.text Terminal.UsedName draft.old (Ok token) next) result draft.new }
{
    count_token(draft, token)?;
    let declaration = known(draft, lexer, token)?;
    check(declaration.has_value(), Why::WrongPlace, token)?;
    let id = declaration.id();
    draft.operands.push(Expr::Read(id))?;
    Ok(())
}

/// The resource that a load asks.
pub(crate) fn accept_used_resource(
    draft: &mut Draft,
    lexer: &Lexer<'_>,
    token: Token,
    next: Result<Token, BadToken>,
) -> Result<(), Refusal>
    requires { IsTokenOf lexer.now.text token }
    ensures { Accepts (accept_token lexer.now.text Terminal.UsedResource draft.old (Ok token) next) result draft.new }
{
    let declaration = known(draft, lexer, token)?;
    check(declaration.is_resource(), Why::WrongPlace, token)?;
    let used = declaration.share()?;
    draft.used = Some(used);
    Ok(())
}

/// The store whose rows an `each` goes through.
pub(crate) fn accept_used_store(
    draft: &mut Draft,
    lexer: &Lexer<'_>,
    token: Token,
    next: Result<Token, BadToken>,
) -> Result<(), Refusal>
    requires { IsTokenOf lexer.now.text token }
    ensures { Accepts (accept_token lexer.now.text Terminal.UsedStore draft.old (Ok token) next) result draft.new }
{
    let declaration = known(draft, lexer, token)?;
    check(declaration.is_store(), Why::WrongPlace, token)?;
    let used = declaration.share()?;
    draft.used = Some(used);
    Ok(())
}

/// The id of a part of a row here: its key, or one of its fields.
fn part(draft: &Draft, name: &str) -> Option<u32>
    ensures { result ≡ part_in name.now draft.now }
{
    let rows = draft.blocks.rows()?;
    if is_key(name) {
        return Some(rows.key());
    }
    let number = draft.texts.find(name)?;
    rows.field(number)
}

/// The part of a row behind `row.`.
pub(crate) fn accept_row_field(
    draft: &mut Draft,
    lexer: &Lexer<'_>,
    token: Token,
    next: Result<Token, BadToken>,
) -> Result<(), Refusal>
    requires { IsTokenOf lexer.now.text token }
    ensures { Accepts (accept_token lexer.now.text Terminal.RowField draft.old (Ok token) next) result draft.new }
{
    count_token(draft, token)?;
    let Some(id) = part(draft, lexer.slice(&token)) else {
        return Err(refused(Why::UnknownName, token));
    };
    draft.operands.push(Expr::Read(id))?;
    Ok(())
}
