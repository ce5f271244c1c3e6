//! The reader.

ghost use Rattle.std.specs.Prelude.{◌≡◌, ◌+◌, ◌<◌, ◌^◌, ℕ, List, IfOk, IfErr, Ok, length};
ghost use Rattle.text_lexer.specs.Tokens.{is_last};
ghost use Rattle.part_meaning.specs.Part.{IsReadTo, unexpected as unexpected_at};
ghost use Rattle.token_reader.specs.Rules as spec;
ghost use Rattle.token_reader.specs.Reading.{Settles, on_top};
ghost use Rattle.token_reader.specs.Refused.{IsRefusedOr};

use crate::pending::Pending;
use crate::state::TextState;
use component_items::{Place, Refusal, Why};
use grammar::Symbol;
use std::alloc::{AllocError, Global};
use text_grammar::{Seen, kind_of};
use text_lexer::{BadToken, Lexer, Token, TokenKind};

/// The refusal of what the grammar does not allow at its place.
fn unexpected(token: Result<Token, BadToken>) -> Refusal
    ensures { result ≡ unexpected_at token }
{
    match token {
        Ok(token) => {
            let place = Place {
                line: token.line,
                column: token.column,
            };
            Refusal::Bad(Why::Unexpected, place)
        }
        Err(bad) => {
            let place = Place {
                line: bad.line,
                column: bad.column,
            };
            Refusal::Bad(Why::BadToken, place)
        }
    }
}

/// Whether the token is the end of the text.
fn is_end(token: Token) -> bool
    ensures { result ≡ is_last (Ok token) }
{
    match token.kind {
        TokenKind::End => true,
        _ => false,
    }
}

/// Does the actions on the stack, and puts the productions of its rules on it, until a terminal is on top, which is
/// taken off. There is none where the stack is empty.
fn settle<
    W: Copy + Drop + 'static,
    R: Copy + Drop + 'static,
    D: Copy + Drop + 'static,
    S: TextState<W, R, D>,
>(
    alloc: Global,
    lexer: &Lexer<'_>,
    token: Seen,
    stack: &mut Pending<'_, Symbol<W, R, D>>,
    state: &mut S,
) -> Result<Option<W>, AllocError>
    requires room { (out : List (Symbol W R D)) (b : S) → Settles S.rules lexer.now.text token stack.old state.old out b → S.rules.size b < 2 ^ 31 }
    ensures { IfOk result (λ top. (bytes : List ℕ) → Settles S.rules bytes token stack.old state.old (on_top top stack.new) state.new) }
{
    while let Some(symbol) = stack.pop() {
        match symbol {
            Symbol::Terminal(terminal) => return Ok(Some(terminal)),
            Symbol::Rule(rule) => stack.push_all(S::expansion(rule, token))?,
            Symbol::Action(action) => state.perform(alloc, action)?,
        }
    }
    Ok(None)
}

/// The state to which the tokens of the text lead, or why the text is refused.
pub fn read<
    W: Copy + Drop + 'static,
    R: Copy + Drop + 'static,
    D: Copy + Drop + 'static,
    S: TextState<W, R, D> + Drop,
>(alloc: Global, first: S, text: &str, first_line: u32) -> Result<S, Refusal>
    requires length { length text.now + first_line < 2 ^ 31 }
    requires room { S.rules.size first + length text.now < 2 ^ 31 }
    ensures ok { IfOk result (IsReadTo (spec.language S.rules first first_line) text.now) }
    ensures bad { IfErr result (IsRefusedOr (spec.language S.rules first first_line) text.now) }
{
    let mut lexer = Lexer::new(text, first_line);
    let mut token = lexer.next();
    let mut next = lexer.next();
    let mut stack = Pending::new(alloc, S::whole_text());
    let mut state = first;
    loop {
        let seen = kind_of(&lexer, token);
        let Some(terminal) = settle(alloc, &lexer, seen, &mut stack, &mut state)? else {
            return Err(unexpected(token));
        };
        let Ok(taken) = token else {
            return Err(unexpected(token));
        };
        if !S::matches(terminal, seen) {
            return Err(unexpected(token));
        }
        state.accept(alloc, &lexer, terminal, taken, next)?;
        if is_end(taken) {
            return Ok(state);
        }
        token = next;
        next = lexer.next();
    }
}
