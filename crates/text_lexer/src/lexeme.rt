//! The token at the front of a text.

ghost use Rattle.std.specs.Prelude.{◌≡◌, [], ◌∷◌, ◌<◌, ◌≤◌, length, take, slice_index, IsTrue, ◌≢◌, IfSome, IfNone};
ghost use Rattle.std.specs.Bool.{IsFalse};
ghost use Rattle.std.specs.List.{prefix_len};
ghost use Rattle.text_lexer.specs.Bytes.{is_letter, is_digit, is_name_byte};
ghost use Rattle.text_lexer.specs.Token.{reserved_bytes, mark_bytes, IsLongest, HasNoToken};

use crate::bytes::{is_digit, is_escape, is_letter, is_name_byte, is_plain};
use crate::token::{Mark, Reserved, TokenKind};

const LONGEST_NAME: usize = 64;

/// How many bytes at the front are digits.
fn digits(rest: &[u8]) -> usize
    ensures { result ≡ prefix_len is_digit rest.now }
{
    let mut n = 0;
    for b in rest {
        if !is_digit(*b) {
            break;
        }
        n += 1;
    }
    n
}

/// How many bytes at the front may stand in a name.
fn name_bytes(rest: &[u8]) -> usize
    ensures { result ≡ prefix_len is_name_byte rest.now }
{
    let mut n = 0;
    for b in rest {
        if !is_name_byte(*b) {
            break;
        }
        n += 1;
    }
    n
}

/// The reserved word of these bytes.
fn reserved(word: &[u8]) -> Option<Reserved>
    ensures found { IfSome result (λ r. word.now ≡ reserved_bytes r) }
    ensures none { IfNone result ((r : Reserved) → word.now ≡ reserved_bytes r → ⊥) }
{
    match word {
        b"component" => Some(Reserved::Component),
        b"signal" => Some(Reserved::Signal),
        b"memo" => Some(Reserved::Memo),
        b"effect" => Some(Reserved::Effect),
        b"resource" => Some(Reserved::Resource),
        b"after" => Some(Reserved::After),
        b"load" => Some(Reserved::Load),
        b"store" => Some(Reserved::Store),
        b"max" => Some(Reserved::Max),
        b"cleanup" => Some(Reserved::Cleanup),
        b"area" => Some(Reserved::Area),
        b"if" => Some(Reserved::If),
        b"then" => Some(Reserved::Then),
        b"else" => Some(Reserved::Else),
        b"each" => Some(Reserved::Each),
        b"row" => Some(Reserved::Row),
        b"empty" => Some(Reserved::Empty),
        b"lt" => Some(Reserved::Lt),
        b"phase" => Some(Reserved::Phase),
        b"lane" => Some(Reserved::Lane),
        b"set" => Some(Reserved::Set),
        b"get" => Some(Reserved::Get),
        b"pump" => Some(Reserved::Pump),
        b"dispose" => Some(Reserved::Dispose),
        b"insert" => Some(Reserved::Insert),
        b"at" => Some(Reserved::At),
        b"remove" => Some(Reserved::Remove),
        b"move" => Some(Reserved::Move),
        b"to" => Some(Reserved::To),
        _ => None,
    }
}

/// A name or a reserved word.
fn word(rest: &[u8]) -> Option<(TokenKind, usize)>
    requires some { 0 < length rest.now }
    requires letter { IsTrue (is_letter (slice_index rest.now 0)) }
    ensures found { IfSome result (λ f. IsLongest rest.now f.0 f.1) }
    ensures none { IfNone result (HasNoToken rest.now) }
{
    let n = name_bytes(rest);
    if n > LONGEST_NAME {
        return None;
    }
    match reserved(&rest[..n]) {
        Some(reserved) => Some((TokenKind::Reserved(reserved), n)),
        None => Some((TokenKind::Name, n)),
    }
}

fn number(rest: &[u8]) -> Option<(TokenKind, usize)>
    requires some { 0 < length rest.now }
    requires digit { IsTrue (is_digit (slice_index rest.now 0)) }
    ensures found { IfSome result (λ f. IsLongest rest.now f.0 f.1) }
    ensures none { IfNone result (HasNoToken rest.now) }
{
    let n = digits(rest);
    let starts_with_zero = rest[0] == b'0';
    if n > 1 && starts_with_zero {
        return None;
    }
    Some((TokenKind::Number, n))
}

/// A text, up to its closing quotation mark.
fn text(rest: &[u8]) -> Option<(TokenKind, usize)>
    requires some { 0 < length rest.now }
    requires quoted { slice_index rest.now 0 ≡ 34 }
    ensures found { IfSome result (λ f. IsLongest rest.now f.0 f.1) }
    ensures none { IfNone result (HasNoToken rest.now) }
{
    let mut i = 1;
    while i < rest.len() {
        let b = rest[i];
        if b == b'"' {
            return Some((TokenKind::Text, i + 1));
        }
        if b == b'\\' {
            if i + 1 == rest.len() || !is_escape(rest[i + 1]) {
                return None;
            }
            i += 2;
        } else if is_plain(b) {
            i += 1;
        } else {
            return None;
        }
    }
    None
}

/// The mark of these two bytes.
fn pair(first: u8, second: u8) -> Option<Mark>
    ensures found { IfSome result (λ m. first ∷ second ∷ [] ≡ mark_bytes m) }
    ensures none { IfNone result ((m : Mark) → first ∷ second ∷ [] ≡ mark_bytes m → ⊥) }
{
    match (first, second) {
        (b'<', b'/') => Some(Mark::ClosingTag),
        (b'=', b'=') => Some(Mark::EqualTo),
        (b'=', b'>') => Some(Mark::Arrow),
        _ => None,
    }
}

/// The mark of this byte alone.
fn single(first: u8) -> Option<Mark>
    ensures found { IfSome result (λ m. first ∷ [] ≡ mark_bytes m) }
    ensures none { IfNone result ((m : Mark) → first ∷ [] ≡ mark_bytes m → ⊥) }
{
    match first {
        b'=' => Some(Mark::Assign),
        b'<' => Some(Mark::Less),
        b'>' => Some(Mark::Greater),
        b'/' => Some(Mark::Slash),
        b'{' => Some(Mark::OpenBrace),
        b'}' => Some(Mark::CloseBrace),
        b'(' => Some(Mark::OpenParen),
        b')' => Some(Mark::CloseParen),
        b'[' => Some(Mark::OpenBracket),
        b']' => Some(Mark::CloseBracket),
        b'.' => Some(Mark::Dot),
        b'+' => Some(Mark::Plus),
        b'-' => Some(Mark::Minus),
        b'*' => Some(Mark::Star),
        b'%' => Some(Mark::Percent),
        _ => None,
    }
}

fn mark(rest: &[u8]) -> Option<(TokenKind, usize)>
    requires some { 0 < length rest.now }
    requires no_letter { IsFalse (is_letter (slice_index rest.now 0)) }
    requires no_digit { IsFalse (is_digit (slice_index rest.now 0)) }
    requires not_quoted { slice_index rest.now 0 ≢ 34 }
    ensures found { IfSome result (λ f. IsLongest rest.now f.0 f.1) }
    ensures none { IfNone result (HasNoToken rest.now) }
{
    if let [first, second, ..] = rest {
        if let Some(mark) = pair(*first, *second) {
            return Some((TokenKind::Mark(mark), 2));
        }
    }
    let Some(mark) = single(rest[0]) else {
        return None;
    };
    Some((TokenKind::Mark(mark), 1))
}

/// The token at the front and how many bytes it has, or `None` where a bad token stands there.
pub fn lexeme(rest: &[u8]) -> Option<(TokenKind, usize)>
    requires { 0 < length rest.now }
    ensures found { IfSome result (λ f. IsLongest rest.now f.0 f.1) }
    ensures none { IfNone result (HasNoToken rest.now) }
{
    let first = rest[0];
    if is_letter(first) {
        word(rest)
    } else if is_digit(first) {
        number(rest)
    } else if first == b'"' {
        text(rest)
    } else {
        mark(rest)
    }
}
