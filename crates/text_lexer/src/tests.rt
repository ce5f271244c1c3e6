//! Worked rows.

use crate::{BadToken, Lexer, TokenKind};
use std::alloc::Global;
use std::process::Abort;
use std::test::Fail;

/// Each line tells a token: its line and column, `+` where it touches the one before, its kind, its bytes.
fn expect_tokens(
    rt: &impl Abort,
    alloc: Global,
    text: &str,
    first_line: u32,
    rows: &str,
) -> Result<(), Fail> {
    assert!(rt; text.len() < 1000 && first_line < 1000);
    let mut lexer = Lexer::new(text, first_line);
    for row in rows.lines() {
        let token = lexer.next()?;
        let (line, column, kind, bytes) = (
            token.line,
            token.column,
            token.kind,
            lexer.slice(&token),
        );
        let plus = if token.touches { "+" } else { "" };
        let shown = format!(in alloc; "{line}:{column}{plus} {kind:?} {bytes}")?;
        assert_eq!(rt; shown.as_str(), row, "in {text}");
    }
    let end = lexer.next()?;
    assert_eq!(rt;
        (end.kind, end.start, end.end),
        (TokenKind::End, text.len(), text.len()),
        "{text}"
    );
    assert!(rt; lexer.next() == Ok(end), "the end comes for ever");
    Ok(())
}

#[test]
fn gives_tokens_with_their_places(rt: HostRuntime) -> Result<(), Fail> {
    for (text, first_line, rows) in [
        ("", 1, ""),
        (" # only a comment", 1, ""),
        (
            "signal a = -0\n",
            1,
            "1:1 Reserved(Signal) signal\n1:8 Name a\n1:10 Mark(Assign) =\n1:12 Mark(Minus) -\n1:13+ Number 0",
        ),
        (
            "<p a=>\r\n</p>",
            7,
            "7:1 Mark(Less) <\n7:2+ Name p\n7:4 Name a\n7:5+ Mark(Arrow) =>\n8:1 Mark(ClosingTag) </\n8:3+ Name p\n8:4+ Mark(Greater) >",
        ),
        (
            "\"é\\\"\"x ## \"\n \"\"==signals_1",
            1,
            "1:1 Text \"é\\\"\"\n1:7+ Name x\n2:2 Text \"\"\n2:4+ Mark(EqualTo) ==\n2:6+ Name signals_1",
        ),
        (
            "aaaaaaaaaabbbbbbbbbbccccccccccddddddddddeeeeeeeeeeffffffffffgggg",
            1,
            "1:1 Name aaaaaaaaaabbbbbbbbbbccccccccccddddddddddeeeeeeeeeeffffffffffgggg",
        ),
    ] {
        expect_tokens(&rt, rt.alloc(), text, first_line, rows)?;
    }
    Ok(())
}

fn expect_bad(rt: &impl Abort, text: &str, before: u32, line: u32, column: u32) {
    assert!(rt; text.len() < 1000);
    let mut lexer = Lexer::new(text, 1);
    for _ in 0..before {
        assert!(rt; lexer.next().is_ok(), "{text}");
    }
    let bad = Err(BadToken { line, column });
    assert!(rt; lexer.next() == bad, "{text}");
    assert!(rt; lexer.next() == bad, "a bad token comes for ever");
}

#[test]
fn gives_bad_tokens_with_their_places(rt: HostRuntime) {
    for (text, before, line, column) in [
        ("a 01", 1, 1, 3),
        ("00", 0, 1, 1),
        ("x\n \"unclosed", 1, 2, 2),
        ("\"a\nb\"", 0, 1, 1),
        ("\"\\x\"", 0, 1, 1),
        ("\"\\", 0, 1, 1),
        ("a$", 1, 1, 2),
        ("é", 0, 1, 1),
        ("_a", 0, 1, 1),
        ("# c\nA", 0, 2, 1),
        (
            " aaaaaaaaaabbbbbbbbbbccccccccccddddddddddeeeeeeeeeeffffffffffggggg",
            0,
            1,
            2,
        ),
    ] {
        expect_bad(&rt, text, before, line, column);
    }
}

#[test]
fn gives_what_numbers_and_texts_mean(rt: HostRuntime) -> Result<(), Fail> {
    let mut lexer = Lexer::new("4294967295 4294967296 \"q\\\"b\\\\n\\nt\\té\" \"\"", 1);
    let number = lexer.next().expect(&rt, "a number");
    assert!(rt; number.kind == TokenKind::Number);
    assert_eq!(rt; lexer.number(&number), Some(u32::MAX));
    let number = lexer.next().expect(&rt, "a number");
    assert!(rt; number.kind == TokenKind::Number);
    assert_eq!(rt; lexer.number(&number), None);
    for expected in ["q\"b\\n\nt\té", ""] {
        let text = lexer.next().expect(&rt, "a text");
        assert!(rt; text.kind == TokenKind::Text);
        assert_eq!(rt; lexer.content(rt.alloc(), &text)?.as_str(), expected);
    }
    Ok(())
}
