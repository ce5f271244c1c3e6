//! The lexer, which gives one token after another.

ghost use Rattle.std.specs.Prelude.{◌≡◌, ◌≢◌, ℕ, ◌+◌, ◌-◌, ◌^◌, ◌<◌, ◌≤◌, length, ◌==◌, if◌then◌else◌, slice_range, false, IsOk, IfOk, IfErr, OnErr, SomeIff, IsTrue, ◌↔◌};
ghost use Rattle.std.specs.Cow.{cow_str_bytes};
ghost use Rattle.text_lexer.specs.Cursor.{start_of};
ghost use Rattle.text_lexer.specs.Place.{IsPlace};
ghost use Rattle.text_lexer.specs.Lexing.{Skips, IsNext, IsBad, after};
ghost use Rattle.text_lexer.specs.Token.{IsTokenOf, decimal_value, content_of, has_escape};

use crate::bytes::{begins_token, comment_goes_on};
use crate::lexeme::lexeme;
use crate::meaning::{bytes_of, decimal, has_escape, unescape, without_quotes};
use crate::token::{BadToken, Token, TokenKind};
use std::alloc::Global;
use std::borrow::CowStr;
use std::marker::Model;
use values::NoMemory;

/// Where a byte stands in the text.
#[derive(Clone, Copy)]
struct Place {
    offset: usize,
    line: u32,
    column: u32,
}

/// Reads the tokens of a text, one after another.
#[derive(Drop)]
pub struct Lexer<'a> {
    text: &'a str,
    first_line: u32,
    /// Just past the last token.
    place: Place,
}

impl<'a> Model for Lexer<'a> {
    ghost use Rattle.std.specs.Prelude.{ℕ, ◌+◌, ◌^◌, ◌<◌, ◌≤◌, length};
    ghost use Rattle.text_lexer.specs.Cursor.{Cursor};
    ghost use Rattle.text_lexer.specs.Place.{IsPlace};

    ghost Value = { Cursor };

    ghost view = { λ l. record {
      text = l.text.now;
      first_line = l.first_line;
      at = l.place.offset;
    } };

    ghost invariant = { λ l. (length l.text.now + l.first_line < 2 ^ 31)
        × IsPlace l.first_line l.text.now l.place.offset l.place.line l.place.column };
}

impl Place {
    /// The token of `length` bytes that stands here.
    fn token(self, kind: TokenKind, length: usize, touches: bool) -> Token
        requires { self.offset + length < 2 ^ 64 }
        ensures { result ≡ record {
          kind = kind;
          start = self.offset;
          end = self.offset + length;
          line = self.line;
          column = self.column;
          touches = touches;
        } }
    {
        Token {
            kind,
            start: self.offset,
            end: self.offset + length,
            line: self.line,
            column: self.column,
            touches,
        }
    }

    /// Whether no byte stands between `last`, the end of a token, and this place.
    fn touches(self, last: Place) -> bool
        ensures { IsTrue result ↔ ((0 < last.offset) × (self.offset ≡ last.offset)) }
    {
        last.offset > 0 && self.offset == last.offset
    }

    /// The place behind the byte `b`, which stands here.
    fn past(self, b: u8) -> Place
        requires offset_fits { self.offset + 1 < 2 ^ 64 }
        requires line_fits { self.line + 1 < 2 ^ 32 }
        requires column_fits { self.column + 1 < 2 ^ 32 }
        ensures offset { result.offset ≡ self.offset + 1 }
        ensures line { result.line ≡ (if b == 10 then self.line + 1 else self.line) }
        ensures column { result.column ≡ (if b == 10 then 1 else self.column + 1) }
    {
        let offset = self.offset + 1;
        if b == b'\n' {
            return Place {
                offset,
                line: self.line + 1,
                column: 1,
            };
        }
        Place {
            offset,
            line: self.line,
            column: self.column + 1,
        }
    }
}

impl<'a> Lexer<'a> {
    /// A lexer at the start of the text. `first_line` is the number of the text's first line.
    pub fn new(text: &'a str, first_line: u32) -> Lexer<'a>
        requires { length text.now + first_line < 2 ^ 31 }
        ensures { result ≡ start_of text.now first_line }
    {
        Lexer {
            text,
            first_line,
            place: Place {
                offset: 0,
                line: first_line,
                column: 1,
            },
        }
    }

    /// The next token. The end of the text comes for ever, and so does a bad token.
    pub fn next(&mut self) -> Result<Token, BadToken>
        ensures token { IfOk result (IsNext self.old) }
        ensures moved { IfOk result (λ t. self.new ≡ after self.old t) }
        ensures bad { IfErr result (IsBad self.old) }
        ensures stays { OnErr result (self.new ≡ self.old) }

        // What follows from these, as callers use it.
        ensures same_text { self.new.text ≡ self.old.text }
        ensures of_text { IfOk result (IsTokenOf self.old.text) }
        ensures forward { IfOk result (λ t. self.old.at ≤ t.start) }
        ensures within { IfOk result (λ t. t.end ≤ length self.old.text) }
        ensures takes_bytes { IfOk result (λ t. t.kind ≢ TokenKind.End → t.start < t.end) }
    {
        let start = self.skip();
        let touches = start.touches(self.place);
        let bytes = self.text.as_bytes();
        if start.offset == bytes.len() {
            return Ok(start.token(TokenKind::End, 0, touches));
        }
        let Some((kind, length)) = lexeme(&bytes[start.offset..]) else {
            return Err(BadToken {
                line: start.line,
                column: start.column,
            });
        };
        self.place = Place {
            offset: start.offset + length,
            line: start.line,
            column: start.column + length as u32,
        };
        Ok(start.token(kind, length, touches))
    }

    /// The token's bytes.
    pub fn slice(&self, token: &Token) -> &'a str
        requires { IsTokenOf self.now.text token.now }
        ensures { result.now ≡ slice_range self.now.text token.now.start token.now.end }
    {
        bytes_of(self.text, token)
    }

    /// The value of a number, or `None` where it is above `u32::MAX`.
    pub fn number(&self, token: &Token) -> Option<u32>
        requires of_text { IsTokenOf self.now.text token.now }
        requires number { token.now.kind ≡ TokenKind.Number }
        ensures { let value = decimal_value (slice_range self.now.text token.now.start token.now.end) in
            SomeIff result (value < 2 ^ 32) value }
    {
        decimal(self.slice(token))
    }

    /// What a text says, with its escapes taken out. A text with no escape says what stands between its
    /// quotation marks, and no memory is needed for it.
    pub fn content(&self, alloc: Global, token: &Token) -> Result<CowStr<'a>, NoMemory>
        requires of_text { IsTokenOf self.now.text token.now }
        requires text { token.now.kind ≡ TokenKind.Text }
        ensures content { IfOk result (λ s. cow_str_bytes s
            ≡ content_of (slice_range self.now.text token.now.start token.now.end)) }
        ensures plain { has_escape (slice_range self.now.text token.now.start token.now.end) ≡ false
            → IsOk result }
    {
        let written = without_quotes(self.slice(token));
        if has_escape(written) {
            return Ok(CowStr::Owned(unescape(alloc, written)?));
        }
        Ok(CowStr::Borrowed(written))
    }

    /// The place of the next token, behind blanks and comments.
    fn skip(&self) -> Place
        ensures skips { Skips self.now.text self.now.at result.offset }
        ensures place { IsPlace self.now.first_line self.now.text result.offset result.line result.column }
    {
        let bytes = self.text.as_bytes();
        let mut place = self.place;
        let mut in_comment = false;
        while place.offset < bytes.len() {
            let b = bytes[place.offset];
            if !in_comment && begins_token(b) {
                break;
            }
            in_comment = comment_goes_on(in_comment, b);
            place = place.past(b);
        }
        place
    }
}
