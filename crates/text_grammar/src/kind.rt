//! The kinds of token, as far as the grammars tell them apart, and which of them stand for a terminal.

ghost use Rattle.std.specs.Prelude.{◌≡◌, IfOk};
ghost use Rattle.text_lexer.specs.Token.{IsTokenOf};
ghost use Rattle.text_grammar.specs.Kind as spec;
ghost use Rattle.text_grammar.specs.Class as class;

use text_lexer::{BadToken, Lexer, Mark, Reserved, Token, TokenKind};

/// What a token is to the grammars. Two kinds of name and two of number are told apart, since a void
/// element has no end tag and a component begins with the number 1.
#[derive(Clone, Copy, Debug, Drop)]
pub enum Kind {
    Reserved(Reserved),
    /// A name that is no void element's tag.
    Name,
    /// A name that is a void element's tag, as `br` is. The tag `area` is a reserved word.
    VoidName,
    /// The number 1.
    One,
    /// Any other number.
    Number,
    Text,
    Mark(Mark),
    /// What is no token.
    Bad,
    End,
}

/// A token as the grammars see it.
#[derive(Clone, Copy, Debug, Drop)]
pub struct Seen {
    pub kind: Kind,
    /// Whether it stands right behind the token before it.
    pub touches: bool,
}

/// The tokens that may stand for a terminal.
#[derive(Clone, Copy, Debug, Drop)]
pub enum Class {
    /// The tokens of this kind.
    Only(Kind),
    AnyName,
    AnyNumber,
    /// The first part of a tag, where it is no void element's. A reserved word is a plain name in a tag.
    PlainTag,
    /// The first part of a tag, where it is a void element's.
    VoidTag,
    /// The first part of any tag or attribute's name.
    AnyTag,
    /// A `-` within the name of a tag or attribute, which touches what stands before it.
    Dash,
    /// What comes behind such a `-`, and touches it: a name, reserved word or number.
    Part,
    /// What closes a block, or the text, where an element is still open.
    Closer,
}

/// How the grammars see what the lexer gave for its text.
#[inline(always)]
pub fn kind_of(lexer: &Lexer<'_>, token: Result<Token, BadToken>) -> Seen
    requires { IfOk token (λ x. IsTokenOf lexer.now.text x) }
    ensures { result ≡ spec.kind_of lexer.now.text token }
{
    match token {
        Ok(token) => Seen {
            kind: kind_of_token(token.kind, lexer.slice(&token).as_bytes()),
            touches: token.touches,
        },
        Err(_) => Seen {
            kind: Kind::Bad,
            touches: false,
        },
    }
}

fn kind_of_token(kind: TokenKind, bytes: &[u8]) -> Kind
    ensures { result ≡ spec.kind_of_token kind bytes.now }
{
    match kind {
        TokenKind::Name if is_void_tag(bytes) => Kind::VoidName,
        TokenKind::Name => Kind::Name,
        TokenKind::Reserved(word) => Kind::Reserved(word),
        TokenKind::Number if is_one(bytes) => Kind::One,
        TokenKind::Number => Kind::Number,
        TokenKind::Text => Kind::Text,
        TokenKind::Mark(mark) => Kind::Mark(mark),
        TokenKind::End => Kind::End,
    }
}

fn is_void_tag(bytes: &[u8]) -> bool
    ensures { result ≡ spec.is_void_tag bytes.now }
{
    match bytes {
        b"area"
        | b"base"
        | b"br"
        | b"col"
        | b"embed"
        | b"hr"
        | b"img"
        | b"input"
        | b"link"
        | b"meta"
        | b"source"
        | b"track"
        | b"wbr" => true,
        _ => false,
    }
}

fn is_one(bytes: &[u8]) -> bool
    ensures { result ≡ spec.is_one bytes.now }
{
    match bytes {
        b"1" => true,
        _ => false,
    }
}

fn number_of_word(word: Reserved) -> u8
    ensures { result ≡ class.number_of_word word }
{
    match word {
        Reserved::Component => 0,
        Reserved::Signal => 1,
        Reserved::Memo => 2,
        Reserved::Effect => 3,
        Reserved::Resource => 4,
        Reserved::After => 5,
        Reserved::Load => 6,
        Reserved::Store => 7,
        Reserved::Max => 8,
        Reserved::Cleanup => 9,
        Reserved::Area => 10,
        Reserved::If => 11,
        Reserved::Then => 12,
        Reserved::Else => 13,
        Reserved::Each => 14,
        Reserved::Row => 15,
        Reserved::Empty => 16,
        Reserved::Lt => 17,
        Reserved::Phase => 18,
        Reserved::Lane => 19,
        Reserved::Set => 20,
        Reserved::Get => 21,
        Reserved::Pump => 22,
        Reserved::Dispose => 23,
        Reserved::Insert => 24,
        Reserved::At => 25,
        Reserved::Remove => 26,
        Reserved::Move => 27,
        Reserved::To => 28,
    }
}

fn number_of_mark(mark: Mark) -> u8
    ensures { result ≡ class.number_of_mark mark }
{
    match mark {
        Mark::ClosingTag => 36,
        Mark::EqualTo => 37,
        Mark::Arrow => 38,
        Mark::Assign => 39,
        Mark::Less => 40,
        Mark::Greater => 41,
        Mark::Slash => 42,
        Mark::OpenBrace => 43,
        Mark::CloseBrace => 44,
        Mark::OpenParen => 45,
        Mark::CloseParen => 46,
        Mark::OpenBracket => 47,
        Mark::CloseBracket => 48,
        Mark::Dot => 49,
        Mark::Plus => 50,
        Mark::Minus => 51,
        Mark::Star => 52,
        Mark::Percent => 53,
    }
}

#[inline(always)]
fn number_of(kind: Kind) -> u8
    ensures { result ≡ class.number_of kind }
{
    match kind {
        Kind::Reserved(word) => number_of_word(word),
        Kind::Name => 29,
        Kind::VoidName => 30,
        Kind::One => 31,
        Kind::Number => 32,
        Kind::Text => 33,
        Kind::Bad => 34,
        Kind::End => 35,
        Kind::Mark(mark) => number_of_mark(mark),
    }
}

#[inline(always)]
fn is_same(a: Kind, b: Kind) -> bool
    ensures { result ≡ class.is_same a b }
{
    number_of(a) == number_of(b)
}

fn is_name(kind: Kind) -> bool
    ensures { result ≡ class.is_name kind }
{
    match kind {
        Kind::Name | Kind::VoidName => true,
        _ => false,
    }
}

fn is_number(kind: Kind) -> bool
    ensures { result ≡ class.is_number kind }
{
    match kind {
        Kind::One | Kind::Number => true,
        _ => false,
    }
}

fn is_void(kind: Kind) -> bool
    ensures { result ≡ class.is_void kind }
{
    match kind {
        Kind::VoidName | Kind::Reserved(Reserved::Area) => true,
        _ => false,
    }
}

fn is_tag(kind: Kind) -> bool
    ensures { result ≡ class.is_tag kind }
{
    match kind {
        Kind::Name | Kind::VoidName | Kind::Reserved(_) => true,
        _ => false,
    }
}

fn is_closer(kind: Kind) -> bool
    ensures { result ≡ class.is_closer kind }
{
    match kind {
        Kind::End | Kind::Mark(Mark::CloseBrace) => true,
        _ => false,
    }
}

impl Class {
    /// Whether the token is one of the class.
    #[inline(always)]
    pub fn contains(self, token: Seen) -> bool
        ensures { result ≡ class.is_in self token }
    {
        match self {
            Class::Only(kind) => is_same(kind, token.kind),
            Class::AnyName => is_name(token.kind),
            Class::AnyNumber => is_number(token.kind),
            Class::PlainTag => is_tag(token.kind) && !is_void(token.kind),
            Class::VoidTag => is_void(token.kind),
            Class::AnyTag => is_tag(token.kind),
            Class::Dash => token.touches && is_same(Kind::Mark(Mark::Minus), token.kind),
            Class::Part => token.touches && (is_tag(token.kind) || is_number(token.kind)),
            Class::Closer => is_closer(token.kind),
        }
    }
}
