//! What texts of a small language are read to: at most three names, one after another.

ghost use Rattle.std.specs.Prelude.{ℕ};
ghost use Rattle.token_reader.specs.Words.{words};
ghost use Rattle.token_reader.specs.Readable.{readable as words_are_readable};

use crate::bytes::read_bytes;
use crate::state::TextState;
use component_items::{Place, Refusal, Why};
use grammar::Symbol;
use std::alloc::{AllocError, Global};
use std::test::Fail;
use text_grammar::{Class, Kind, Seen};
use text_lexer::{BadToken, Lexer, Token};

/// The state is how many names there are. The terminal `true` is a name, and `false` is the end.
impl TextState<bool, (), ()> for u32 {
    ghost rules = { words };

    fn whole_text() -> &'static [Symbol<bool, (), ()>] {
        &[Symbol::Rule(()), Symbol::Terminal(false)]
    }

    fn production(_rule: (), token: Seen) -> &'static [Symbol<bool, (), ()>] {
        if Class::Only(Kind::Name).contains(token) {
            &[Symbol::Terminal(true), Symbol::Action(()), Symbol::Rule(())]
        } else {
            &[]
        }
    }

    fn matches(terminal: bool, token: Seen) -> bool {
        if terminal {
            Class::Only(Kind::Name).contains(token)
        } else {
            Class::Only(Kind::End).contains(token)
        }
    }

    fn accept(
        &mut self,
        _alloc: Global,
        _lexer: &Lexer<'_>,
        terminal: bool,
        token: Token,
        _next: Result<Token, BadToken>,
    ) -> Result<(), Refusal> {
        if terminal {
            if *self == 3 {
                let place = Place {
                    line: token.line,
                    column: token.column,
                };
                return Err(Refusal::Bad(Why::TooDeep, place));
            }
            *self += 1;
        }
        Ok(())
    }

    fn perform(&mut self, _alloc: Global, _action: ()) -> Result<(), AllocError> {
        Ok(())
    }

    ghost readable = { words_are_readable };
}

/// Where a text is refused, and why.
fn refused(why: Why, line: u32, column: u32) -> Result<u32, Refusal> {
    Err(Refusal::Bad(why, Place { line, column }))
}

#[test]
fn texts_are_read_or_refused(rt: HostRuntime) -> Result<(), Fail> {
    let alloc = rt.alloc();
    assert_eq!(rt; read_bytes::<bool, (), (), u32>(alloc, 0, b"", 1), Ok(0));
    assert_eq!(rt;
        read_bytes::<bool, (), (), u32>(alloc, 0, b"a b # c", 1),
        Ok(2)
    );
    assert_eq!(rt;
        read_bytes::<bool, (), (), u32>(alloc, 0, b"a\nb c d", 7),
        refused(Why::TooDeep, 8, 5)
    );
    assert_eq!(rt;
        read_bytes::<bool, (), (), u32>(alloc, 0, b"a 1", 1),
        refused(Why::Unexpected, 1, 3)
    );
    assert_eq!(rt;
        read_bytes::<bool, (), (), u32>(alloc, 0, b"a $", 1),
        refused(Why::BadToken, 1, 3)
    );
    assert_eq!(rt;
        read_bytes::<bool, (), (), u32>(alloc, 0, b"a\n\xff", 1),
        refused(Why::BadUtf8, 2, 1)
    );
    Ok(())
}
