//! A token and its place.

use thiserror::Error;

/// A word that names nothing, because it has a meaning of its own.
#[derive(Clone, Copy, Debug, PartialEq, Eq)]
pub enum Reserved {
    Component,
    Signal,
    Memo,
    Effect,
    Resource,
    After,
    Load,
    Store,
    Max,
    Cleanup,
    Area,
    If,
    Then,
    Else,
    Each,
    Row,
    Empty,
    Lt,
    Phase,
    Lane,
    Set,
    Get,
    Pump,
    Dispose,
    Insert,
    At,
    Remove,
    Move,
    To,
}

/// One or two bytes that stand for themselves.
#[derive(Clone, Copy, Debug, PartialEq, Eq)]
pub enum Mark {
    /// `</`
    ClosingTag,
    /// `==`
    EqualTo,
    /// `=>`
    Arrow,
    /// `=`
    Assign,
    /// `<`
    Less,
    /// `>`
    Greater,
    /// `/`
    Slash,
    /// `{`
    OpenBrace,
    /// `}`
    CloseBrace,
    /// `(`
    OpenParen,
    /// `)`
    CloseParen,
    /// `[`
    OpenBracket,
    /// `]`
    CloseBracket,
    /// `.`
    Dot,
    /// `+`
    Plus,
    /// `-`
    Minus,
    /// `*`
    Star,
    /// `%`
    Percent,
}

/// What a token is.
#[derive(Clone, Copy, Debug, PartialEq, Eq)]
pub enum TokenKind {
    /// A letter, then letters, digits and `_`: at most 64 bytes, and not reserved.
    Name,
    Reserved(Reserved),
    /// Decimal digits, with no 0 before others. How large the number is does not matter here.
    Number,
    /// A text in its quotation marks, with its escapes still in it.
    Text,
    Mark(Mark),
    /// The end of the text.
    End,
}

/// A token, with the offsets of its bytes in the text.
#[derive(Clone, Copy, Debug, PartialEq, Eq)]
pub struct Token {
    pub kind: TokenKind,
    /// The offset of its first byte.
    pub start: usize,
    /// The offset just past its last byte.
    pub end: usize,
    /// The line of its first byte.
    pub line: u32,
    /// How many bytes stand before it in its line, and one more.
    pub column: u32,
    /// Whether it stands right behind the token before it.
    pub touches: bool,
}

/// Where bytes stand that begin no token.
#[derive(Clone, Copy, Debug, PartialEq, Eq, Error)]
#[error("bad token at line {line}, column {column}")]
pub struct BadToken {
    pub line: u32,
    pub column: u32,
}
