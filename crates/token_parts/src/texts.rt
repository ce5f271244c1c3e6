//! What a text says, and the table of texts.

ghost use Rattle.std.specs.Prelude.{◌≡◌, true, false, Ok, IfOk, OnOk, IfErr, IsOk};
ghost use Rattle.std.specs.Cow.{cow_str_bytes};
ghost use Rattle.values.specs.Texts.{index_of, with_text};
ghost use Rattle.text_lexer.specs.Token.{IsTokenOf, has_escape};
ghost use Rattle.text_grammar.specs.declared.kind.Kind.TheVariants.{Text};
ghost use Rattle.text_grammar.specs.Class.{is_same};
ghost use Rattle.text_grammar.specs.Kind.{kind_of};
ghost use Rattle.component_meaning.specs.Names as spec;
ghost use Rattle.token_parts.specs.Parts.{RefusesText};

use crate::places::place_of;
use component_items::{Count, Place, Refusal, Why};
use std::alloc::Global;
use std::borrow::CowStr;
use text_lexer::{Lexer, Token};
use values::limits::MOST_TEXTS;
use values::{NoMemory, TextRefusal, Texts};

/// What a text says. No memory is needed for one with no escape.
pub fn content<'a>(alloc: Global, lexer: &Lexer<'a>, token: Token) -> Result<CowStr<'a>, NoMemory>
    requires of_text { IsTokenOf lexer.now.text token }
    requires text { is_same Text (kind_of lexer.now.text (Ok token)).kind ≡ true }
    ensures content { IfOk result (λ s. cow_str_bytes s ≡ spec.content_in lexer.now.text token) }
    ensures plain { has_escape (spec.bytes_of lexer.now.text token) ≡ false → IsOk result }
{
    lexer.content(alloc, &token)
}

/// Whether the table has no room for this text. It is looked up only in a table that can take no more.
pub fn is_full(texts: &Texts, text: &str) -> bool
    ensures { result ≡ spec.is_full text.now texts.now }
{
    texts.len() == MOST_TEXTS && texts.find(text).is_none()
}

/// The number of a text, which is added where the table does not hold it yet. `found` is its number where the
/// table does. A full table refuses it at this place.
pub fn add_found(
    texts: &mut Texts,
    found: Option<u32>,
    text: &str,
    place: Place,
) -> Result<u32, Refusal>
    requires { found ≡ index_of text.now texts.old }
    ensures table { OnOk result (texts.new ≡ with_text text.now texts.old) }
    ensures number { IfOk result (λ number. number ≡ spec.number_with text.now texts.old) }
    ensures room { OnOk result (spec.is_full text.now texts.old ≡ false) }
    ensures refused { IfErr result (RefusesText (spec.is_full text.now texts.old) place) }
{
    match found {
        Some(number) => Ok(number),
        None => add_text(texts, text, place),
    }
}

/// The same where the text was not looked up yet.
pub fn add_text(texts: &mut Texts, text: &str, place: Place) -> Result<u32, Refusal>
    ensures table { OnOk result (texts.new ≡ with_text text.now texts.old) }
    ensures number { IfOk result (λ number. number ≡ spec.number_with text.now texts.old) }
    ensures room { OnOk result (spec.is_full text.now texts.old ≡ false) }
    ensures refused { IfErr result (RefusesText (spec.is_full text.now texts.old) place) }
{
    match texts.add(text) {
        Ok(number) => Ok(number),
        Err(TextRefusal::Full) => Err(Refusal::Bad(Why::TooLarge(Count::Texts), place)),
        Err(TextRefusal::NoMemory) => Err(Refusal::NoMemory),
    }
}

/// The number of what a text says, which is added where the table does not hold it yet. A full table refuses it at
/// the token's place.
pub fn add_content(
    alloc: Global,
    texts: &mut Texts,
    lexer: &Lexer<'_>,
    token: Token,
) -> Result<u32, Refusal>
    requires of_text { IsTokenOf lexer.now.text token }
    requires text { is_same Text (kind_of lexer.now.text (Ok token)).kind ≡ true }
    ensures table { OnOk result (texts.new ≡ with_text (spec.content_in lexer.now.text token) texts.old) }
    ensures number { IfOk result (λ number. number ≡ spec.number_with (spec.content_in lexer.now.text token) texts.old) }
    ensures room { OnOk result (spec.is_full (spec.content_in lexer.now.text token) texts.old ≡ false) }
    ensures refused { IfErr result (RefusesText (spec.is_full (spec.content_in lexer.now.text token) texts.old) (spec.place_of token)) }
{
    let text = content(alloc, lexer, token).map_err(|_| Refusal::NoMemory)?;
    add_text(texts, text.as_str(), place_of(token))
}
