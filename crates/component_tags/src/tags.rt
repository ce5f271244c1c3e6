//! The names of tags and attributes.

ghost use Rattle.std.specs.Prelude.{◌≡◌, true, Ok, Some, None, IfOk, OnOk, IfErr};
ghost use Rattle.text_lexer.specs.Token.{IsTokenOf};
ghost use Rattle.token_reader.specs.Rules.{Accepts};
ghost use Rattle.component_meaning.specs.Meaning.{accept_token};
ghost use Rattle.component_meaning.specs.Names as names;
ghost use Rattle.component_tags.specs.Spelled as spec;

use component_draft::Draft;
use component_items::{Count, Refusal, Why};
use std::alloc::AllocError;
use text_grammar::component::Terminal;
use text_grammar::{Class, kind_of};
use text_lexer::{BadToken, Lexer, Token};
use token_parts::{goes_on, is_full, is_part, place_of, value_up_to};
use values::Texts;
use values::limits::GREATEST_NUMBER;

/// Whether no element of this tag may stand in a page.
fn is_raw_tag(tag: &str) -> bool
    ensures { result ≡ names.is_raw_tag tag.now }
{
    tag == "script" || tag == "style"
}

/// Whether the token is a number that is too great.
fn is_wide(lexer: &Lexer<'_>, token: Token) -> bool
    requires { IsTokenOf lexer.now.text token }
    ensures { result ≡ spec.is_wide lexer.now.text token }
{
    Class::AnyNumber.contains(kind_of(lexer, Ok(token)))
        && value_up_to(lexer, token, GREATEST_NUMBER).is_none()
}

/// The name of a tag or attribute begins.
fn begin_name(draft: &mut Draft, lexer: &Lexer<'_>, token: Token) -> Result<(), AllocError>
    requires { IsTokenOf lexer.now.text token }
    ensures { OnOk result (draft.new ≡ spec.beginning lexer.now.text token draft.old) }
{
    draft.spelling.begin(lexer.slice(&token), place_of(token))
}

/// It goes on.
fn extend_name(draft: &mut Draft, lexer: &Lexer<'_>, token: Token) -> Result<(), AllocError>
    requires { IsTokenOf lexer.now.text token }
    ensures { OnOk result (draft.new ≡ spec.extending lexer.now.text token draft.old) }
{
    if is_wide(lexer, token) {
        draft.spelling.widen(place_of(token));
    }
    draft.spelling.extend(lexer.slice(&token))
}

/// Why no number of the whole name may stand in it.
fn wide_refusal(draft: &Draft) -> Option<Refusal>
    ensures { result ≡ spec.wide_refusal draft.now }
{
    let place = draft.spelling.wide()?;
    Some(Refusal::Bad(Why::NumberRange, place))
}

/// Why there may be no room for the whole name in the table of texts.
fn room_refusal(draft: &Draft) -> Option<Refusal>
    ensures { result ≡ spec.room_refusal draft.now }
{
    if is_full(&draft.texts, draft.spelling.as_str()) {
        let place = draft.spelling.place();
        return Some(Refusal::Bad(Why::TooLarge(Count::Texts), place));
    }
    wide_refusal(draft)
}

/// Why the whole name may be no tag of an element that opens.
fn open_refusal(draft: &Draft) -> Option<Refusal>
    ensures { result ≡ spec.open_refusal draft.now }
{
    if is_raw_tag(draft.spelling.as_str()) {
        return Some(Refusal::Bad(Why::WrongPlace, draft.spelling.place()));
    }
    room_refusal(draft)
}

/// Whether the innermost open element has an attribute of the whole name.
fn has_attribute(draft: &Draft) -> bool
    ensures { result ≡ names.has_attribute draft.now.spelling.bytes draft.now }
{
    match draft.texts.find(draft.spelling.as_str()) {
        Some(number) => draft.blocks.has_attribute(number),
        None => false,
    }
}

/// Why the whole name may be no attribute's.
fn attribute_refusal(draft: &Draft) -> Option<Refusal>
    ensures { result ≡ spec.attribute_refusal draft.now }
{
    if has_attribute(draft) {
        return Some(Refusal::Bad(Why::NameTaken, draft.spelling.place()));
    }
    room_refusal(draft)
}

/// Whether the text of this number in the table is the name. That costs less than to look the name up.
fn is_numbered(texts: &Texts, number: u32, name: &str) -> bool
    ensures { result ≡ names.is_text name.now texts.now (Some number) }
{
    let _ = texts.len();
    match texts.get(number) {
        Some(text) => text == name,
        None => false,
    }
}

/// Whether the whole name is the tag of the innermost open element.
fn is_open_tag(draft: &Draft) -> bool
    ensures { result ≡ names.is_open_tag draft.now.spelling.bytes draft.now }
{
    let Some(tag) = draft.blocks.open_tag() else {
        return false;
    };
    is_numbered(&draft.texts, tag, draft.spelling.as_str())
}

/// Why the whole name may be no tag of an element that closes.
fn close_refusal(draft: &Draft) -> Option<Refusal>
    ensures { result ≡ spec.close_refusal draft.now }
{
    if !is_open_tag(draft) {
        return Some(Refusal::Bad(Why::UnclosedTag, draft.spelling.place()));
    }
    wide_refusal(draft)
}

/// Whether it is the name of an attribute.
fn is_attribute_name(terminal: Terminal) -> bool
    ensures { result ≡ names.is_attribute_name terminal }
{
    match terminal {
        Terminal::AttributeName | Terminal::AttributePart => true,
        _ => false,
    }
}

/// Whether it is the tag of an element that closes.
fn is_close_name(terminal: Terminal) -> bool
    ensures { result ≡ names.is_close_name terminal }
{
    match terminal {
        Terminal::CloseTag | Terminal::CloseTagPart => true,
        _ => false,
    }
}

/// Why the whole name may not be what it stands for.
fn name_refusal(draft: &Draft, terminal: Terminal) -> Option<Refusal>
    ensures { result ≡ spec.name_refusal terminal draft.now }
{
    if is_close_name(terminal) {
        return close_refusal(draft);
    }
    if is_attribute_name(terminal) {
        return attribute_refusal(draft);
    }
    open_refusal(draft)
}

/// The name with this token is whole, where no `-` touches the token.
fn settle_name(
    draft: &Draft,
    lexer: &Lexer<'_>,
    terminal: Terminal,
    next: Result<Token, BadToken>,
) -> Result<(), Refusal>
    requires { IfOk next (IsTokenOf lexer.now.text) }
    ensures ok { OnOk result (spec.settled lexer.now.text terminal next draft.now ≡ None) }
    ensures refused { IfErr result (λ e. spec.settled lexer.now.text terminal next draft.now ≡ Some e) }
{
    if goes_on(lexer, next) {
        return Ok(());
    }
    match name_refusal(draft, terminal) {
        None => Ok(()),
        Some(refusal) => Err(refusal),
    }
}

/// The first part of a tag or of the name of an attribute.
pub fn accept_name(
    draft: &mut Draft,
    lexer: &Lexer<'_>,
    terminal: Terminal,
    token: Token,
    next: Result<Token, BadToken>,
) -> Result<(), Refusal>
    requires of_text { IsTokenOf lexer.now.text token }
    requires next_of_text { IfOk next (IsTokenOf lexer.now.text) }
    requires begins { names.begins_name terminal ≡ true }
    ensures { Accepts (accept_token lexer.now.text terminal draft.old (Ok token) next) result draft.new }
{
    begin_name(draft, lexer, token)?;
    settle_name(draft, lexer, terminal, next)
}

/// A further part of one.
pub fn accept_part(
    draft: &mut Draft,
    lexer: &Lexer<'_>,
    terminal: Terminal,
    token: Token,
    next: Result<Token, BadToken>,
) -> Result<(), Refusal>
    requires of_text { IsTokenOf lexer.now.text token }
    requires next_of_text { IfOk next (IsTokenOf lexer.now.text) }
    requires continues { names.continues_name terminal ≡ true }
    ensures { Accepts (accept_token lexer.now.text terminal draft.old (Ok token) next) result draft.new }
{
    extend_name(draft, lexer, token)?;
    settle_name(draft, lexer, terminal, next)
}

/// The `-` within a name. Where the name never becomes whole, a number in it that is too great is refused here.
pub fn accept_dash(
    draft: &mut Draft,
    lexer: &Lexer<'_>,
    token: Token,
    next: Result<Token, BadToken>,
) -> Result<(), Refusal>
    requires of_text { IsTokenOf lexer.now.text token }
    requires next_of_text { IfOk next (IsTokenOf lexer.now.text) }
    ensures { Accepts (accept_token lexer.now.text Terminal.Dash draft.old (Ok token) next) result draft.new }
{
    if let Some(place) = draft.spelling.wide() {
        if !is_part(lexer, next) {
            return Err(Refusal::Bad(Why::NumberRange, place));
        }
    }
    draft.spelling.extend("-")?;
    Ok(())
}
