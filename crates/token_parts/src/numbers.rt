//! What a number says.

ghost use Rattle.std.specs.Prelude.{◌≡◌, ◌<◌, ◌≤◌, true, Ok, pos, ◌-ℤ◌, IfOk, IfErr, SomeIff};
ghost use Rattle.text_lexer.specs.Token.{IsTokenOf};
ghost use Rattle.text_grammar.specs.Class.{is_number};
ghost use Rattle.text_grammar.specs.Kind.{kind_of};
ghost use Rattle.component_meaning.specs.Names.{value_in, number_in, negated_in, greatest, greatest_negated, place_of};
ghost use Rattle.token_parts.specs.Parts as spec;

use crate::places::refused;
use component_items::{Refusal, Why};
use text_grammar::{Class, kind_of};
use text_lexer::{BadToken, Lexer, Token};
use values::Code;
use values::limits::{GREATEST_NEGATED, GREATEST_NUMBER};

/// The value of a number, where it is at most `most`.
pub fn value_up_to(lexer: &Lexer<'_>, token: Token, most: u32) -> Option<u32>
    requires of_text { IsTokenOf lexer.now.text token }
    requires number { is_number (kind_of lexer.now.text (Ok token)).kind ≡ true }
    ensures { SomeIff result (value_in lexer.now.text token ≤ most) (value_in lexer.now.text token) }
{
    let value = lexer.number(&token)?;
    if value > most {
        return None;
    }
    Some(value)
}

/// The value of a number. One that is over `most` is refused at the token's place.
fn value_or_refused(lexer: &Lexer<'_>, token: Token, most: u32) -> Result<u32, Refusal>
    requires of_text { IsTokenOf lexer.now.text token }
    requires number { is_number (kind_of lexer.now.text (Ok token)).kind ≡ true }
    ensures value { IfOk result (λ value. (value ≤ most) × (value ≡ value_in lexer.now.text token)) }
    ensures too_great { IfErr result (λ e. (most < value_in lexer.now.text token) × (e ≡ Refusal.Bad Why.NumberRange (place_of token))) }
{
    match value_up_to(lexer, token, most) {
        Some(value) => Ok(value),
        None => Err(refused(Why::NumberRange, token)),
    }
}

/// A number as a value.
fn number_code(value: u32) -> Code
    requires { value ≤ greatest }
    ensures { result ≡ Code.Number (pos value) }
{
    Code::Number(value as i32)
}

/// A number behind a `-` as a value.
fn negated_code(value: u32) -> Code
    requires { value ≤ greatest_negated }
    ensures { result ≡ Code.Number (pos 0 -ℤ pos value) }
{
    Code::Number((0 - value as i64) as i32)
}

/// The value of a number. One that is too great is refused at the token's place.
pub fn value(lexer: &Lexer<'_>, token: Token) -> Result<u32, Refusal>
    requires of_text { IsTokenOf lexer.now.text token }
    requires number { is_number (kind_of lexer.now.text (Ok token)).kind ≡ true }
    ensures value { IfOk result (λ value. (value ≤ greatest) × (value ≡ value_in lexer.now.text token)) }
    ensures too_great { IfErr result (λ e. (greatest < value_in lexer.now.text token) × (e ≡ Refusal.Bad Why.NumberRange (place_of token))) }
{
    value_or_refused(lexer, token, GREATEST_NUMBER)
}

/// What a number says. One that is too great is refused at the token's place.
pub fn number(lexer: &Lexer<'_>, token: Token) -> Result<Code, Refusal>
    requires of_text { IsTokenOf lexer.now.text token }
    requires number { is_number (kind_of lexer.now.text (Ok token)).kind ≡ true }
    ensures code { IfOk result (λ code. (value_in lexer.now.text token ≤ greatest) × (code ≡ number_in lexer.now.text token)) }
    ensures too_great { IfErr result (λ e. (greatest < value_in lexer.now.text token) × (e ≡ Refusal.Bad Why.NumberRange (place_of token))) }
{
    let value = value_or_refused(lexer, token, GREATEST_NUMBER)?;
    Ok(number_code(value))
}

/// What a number behind a `-` says. One that is too great is refused at the token's place.
pub fn negated(lexer: &Lexer<'_>, token: Token) -> Result<Code, Refusal>
    requires of_text { IsTokenOf lexer.now.text token }
    requires number { is_number (kind_of lexer.now.text (Ok token)).kind ≡ true }
    ensures code { IfOk result (λ code. (value_in lexer.now.text token ≤ greatest_negated) × (code ≡ negated_in lexer.now.text token)) }
    ensures too_great { IfErr result (λ e. (greatest_negated < value_in lexer.now.text token) × (e ≡ Refusal.Bad Why.NumberRange (place_of token))) }
{
    let value = value_or_refused(lexer, token, GREATEST_NEGATED)?;
    Ok(negated_code(value))
}

/// What the number says that comes behind a `-`, or `None` where none comes or it is too great.
pub fn negated_next(lexer: &Lexer<'_>, next: Result<Token, BadToken>) -> Option<Code>
    requires { IfOk next (IsTokenOf lexer.now.text) }
    ensures { result ≡ spec.negated_next lexer.now.text next }
{
    match next {
        Ok(token) if Class::AnyNumber.contains(kind_of(lexer, next)) => {
            negated(lexer, token).ok()
        }
        _ => None,
    }
}
