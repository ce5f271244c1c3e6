//! The names of a path.

ghost use Rattle.std.specs.Prelude.{◌≡◌, ◌+◌, ◌<◌, ◌^◌, true, Ok, IfOk, IfSome};
ghost use Rattle.std.specs.Option.{option_map};
ghost use Rattle.text_lexer.specs.Token.{IsTokenOf};
ghost use Rattle.token_reader.specs.Rules.{Accepts};
ghost use Rattle.script_meaning.specs.Checks as checks;
ghost use Rattle.script_meaning.specs.Effects.{id_of};
ghost use Rattle.script_meaning.specs.Meaning.{accept_token};
ghost use Rattle.script_draft.specs.Named.{named_of};

use component_items::{Refusal, Why};
use script_draft::{Named, ScriptDraft, named_by};
use text_grammar::script::Terminal;
use text_grammar::{Class, Kind, kind_of};
use text_lexer::{BadToken, Lexer, Mark, Token};
use token_parts::refused;

/// Whether a `.` comes next.
fn is_dot(lexer: &Lexer<'_>, next: Result<Token, BadToken>) -> bool
    requires { IfOk next (IsTokenOf lexer.now.text) }
    ensures { result ≡ checks.is_dot lexer.now.text next }
{
    Class::Only(Kind::Mark(Mark::Dot)).contains(kind_of(lexer, next))
}

/// Whether a `[` comes next.
fn is_bracket(lexer: &Lexer<'_>, next: Result<Token, BadToken>) -> bool
    requires { IfOk next (IsTokenOf lexer.now.text) }
    ensures { result ≡ checks.is_bracket lexer.now.text next }
{
    Class::Only(Kind::Mark(Mark::OpenBracket)).contains(kind_of(lexer, next))
}

fn is_area_name(terminal: Terminal) -> bool
    ensures { result ≡ checks.is_area_name terminal }
{
    match terminal {
        Terminal::AreaName => true,
        _ => false,
    }
}

/// Whether it is what the path is for.
fn is_wanted(terminal: Terminal, named: Named<'_>) -> bool
    ensures { result ≡ checks.is_wanted terminal (named_of named.entry) }
{
    match terminal {
        Terminal::SetName => named.is_signal(),
        Terminal::GetName => named.has_value(),
        Terminal::AreaName => named.is_area(),
        Terminal::StoreName => named.is_store(),
        _ => true,
    }
}

/// Whether it may stand there: directly before a `.` an area, directly before a `[` a store, and last what the path is for.
fn may_stand(
    lexer: &Lexer<'_>,
    terminal: Terminal,
    named: Named<'_>,
    next: Result<Token, BadToken>,
) -> bool
    requires { IfOk next (IsTokenOf lexer.now.text) }
    ensures { result ≡ checks.may_stand lexer.now.text terminal (named_of named.entry) next }
{
    if is_dot(lexer, next) {
        return named.is_area();
    }
    if is_bracket(lexer, next) {
        return named.is_store() && !is_area_name(terminal);
    }
    is_wanted(terminal, named)
}

/// What the name stands for in the area that the path names so far.
fn found_as<'a>(draft: &ScriptDraft<'a>, lexer: &Lexer<'_>, token: Token) -> Option<Named<'a>>
    requires of_text { IsTokenOf lexer.now.text token }
    ensures { option_map named_of result ≡ checks.found_as lexer.now.text draft.now token }
{
    let name = draft.texts.find(lexer.slice(&token))?;
    let what = draft.names.find(draft.named.owner(), name)?;
    Some(named_by(what))
}

/// The place of the field of this name in the store that the path names.
pub(crate) fn field_place(draft: &ScriptDraft<'_>, lexer: &Lexer<'_>, token: Token) -> Option<usize>
    requires of_text { IsTokenOf lexer.now.text token }
    ensures place { result ≡ checks.field_of lexer.now.text draft.now token }
    ensures within { IfSome result (λ place. id_of draft.now.named + 2 + place < 2 ^ 32) }
{
    let name = draft.texts.find(lexer.slice(&token))?;
    draft.named.place(name)
}

/// A name of a path.
pub(crate) fn accept_path_name(
    draft: &mut ScriptDraft<'_>,
    lexer: &Lexer<'_>,
    terminal: Terminal,
    token: Token,
    next: Result<Token, BadToken>,
) -> Result<(), Refusal>
    requires of_text { IsTokenOf lexer.now.text token }
    requires next_of_text { IfOk next (IsTokenOf lexer.now.text) }
    requires name { checks.is_path_name terminal ≡ true }
    ensures { Accepts (accept_token lexer.now.text terminal draft.old (Ok token) next) result draft.new }
{
    let Some(named) = found_as(draft, lexer, token) else {
        return Err(refused(Why::UnknownName, token));
    };
    if !may_stand(lexer, terminal, named, next) {
        return Err(refused(Why::WrongPlace, token));
    }
    draft.named = named;
    Ok(())
}

/// The field of a row at the end of a path.
pub(crate) fn accept_row_field(
    draft: &mut ScriptDraft<'_>,
    lexer: &Lexer<'_>,
    token: Token,
    next: Result<Token, BadToken>,
) -> Result<(), Refusal>
    requires of_text { IsTokenOf lexer.now.text token }
    requires next_of_text { IfOk next (IsTokenOf lexer.now.text) }
    ensures { Accepts (accept_token lexer.now.text Terminal.RowField draft.old (Ok token) next) result draft.new }
{
    let Some(place) = field_place(draft, lexer, token) else {
        return Err(refused(Why::UnknownName, token));
    };
    if is_dot(lexer, next) || is_bracket(lexer, next) {
        return Err(refused(Why::WrongPlace, token));
    }
    draft.named = Named::Signal(draft.named.id() + 2 + place as u32);
    Ok(())
}
