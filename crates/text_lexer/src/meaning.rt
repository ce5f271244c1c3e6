//! The bytes of a token, and what those of a number and a text mean.

ghost use Rattle.std.specs.Prelude.{◌≡◌, ◌+◌, ◌-◌, ◌^◌, ◌<◌, ◌==◌, false, [], ◌∷◌, ◌++◌, length, slice_index, slice_range, IsTrue, IfOk, SomeIff};
ghost use Rattle.std.specs.List.{list_any};
ghost use Rattle.std.specs.String.{string_bytes};
ghost use Rattle.text_lexer.specs.Token.{IsTokenOf, decimal_value, escape_value, is_digits, is_escape, is_text, is_text_rest, unescaped};

use crate::bytes::escape_value;
use crate::token::Token;
use std::alloc::Global;
use values::NoMemory;

/// The bytes of a token of this text.
pub fn bytes_of<'a>(text: &'a str, token: &Token) -> &'a str
    requires { IsTokenOf text.now token.now }
    ensures { result.now ≡ slice_range text.now token.now.start token.now.end }
{
    &text[token.start..token.end]
}

/// The number that digits write, or `None` where it is above `u32::MAX`.
pub fn decimal(digits: &str) -> Option<u32>
    requires { IsTrue (is_digits digits.now) }
    ensures { SomeIff result (decimal_value digits.now < 2 ^ 32) (decimal_value digits.now) }
{
    digits.parse().ok()
}

/// What stands between the quotation marks of a text.
pub fn without_quotes(text: &str) -> &str
    requires { IsTrue (is_text text.now) }
    ensures written { result.now ≡ slice_range text.now 1 (length text.now - 1) }
    ensures closed { IsTrue (is_text_rest (result.now ++ 34 ∷ [])) }
{
    &text[1..text.len() - 1]
}

/// Whether an escape stands in the content of a text. Content with none means itself.
pub fn has_escape(written: &str) -> bool
    ensures found { result ≡ list_any (λ b. b == 92) written.now }
    ensures plain { result ≡ false → unescaped written.now ≡ written.now }
{
    written.as_bytes().contains(&b'\\')
}

/// What the escape means whose second byte is the first one here.
fn escaped(escape: &str) -> char
    requires some { 0 < length escape.now }
    requires escape { IsTrue (is_escape (slice_index escape.now 0)) }
    ensures value { result ≡ escape_value (slice_index escape.now 0) }
    ensures ascii { result < 128 }
{
    escape_value(escape.as_bytes()[0])
}

/// The content of a text with its escapes taken out.
pub fn unescape(alloc: Global, written: &str) -> Result<String, NoMemory>
    requires { IsTrue (is_text_rest (written.now ++ 34 ∷ [])) }
    ensures { IfOk result (λ s. string_bytes s ≡ unescaped written.now) }
{
    let mut content = String::new(alloc);
    let mut rest = written;
    while let Some((plain, escape)) = rest.split_once('\\') {
        content.push_str(plain)?;
        content.push(escaped(escape))?;
        rest = &escape[1..];
    }
    content.push_str(rest)?;
    Ok(content)
}
