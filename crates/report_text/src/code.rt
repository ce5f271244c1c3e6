//! Values, as they are reported.
ghost use Rattle.std.specs.Prelude.{◌≡◌, [], ◌∷◌, ◌++◌, OnOk, MatchOption};
ghost use Rattle.std.specs.List.{flat_map};
ghost use Rattle.run_meaning.specs.Report.{quoted_byte, code_text};

use crate::pieces::{put, put_signed, text_of};
use values::{Code, NoMemory, Texts};

/// A value: `empty`, a number in decimal, or a text between quotation marks with its escapes. What the table does
/// not have is the empty text.
pub fn put_code(out: &mut Vec<u8>, texts: &Texts, code: Code) -> Result<(), NoMemory>
    ensures { OnOk result (out.new.items ≡ out.old.items ++ code_text texts.now code) }
{
    match code {
        Code::Empty => put(out, b"empty"),
        Code::Number(number) => put_signed(out, number),
        Code::Word(index) => {
            put(out, b"\"")?;
            put_escaped(out, text_of(texts, index).as_bytes())?;
            put(out, b"\"")
        }
    }
}

/// What stands between the quotation marks: the runs of bytes that stand for themselves, each at once, and between
/// them the escapes.
fn put_escaped(out: &mut Vec<u8>, text: &[u8]) -> Result<(), NoMemory>
    ensures { OnOk result (out.new.items ≡ out.old.items ++ flat_map quoted_byte text.now) }
{
    let mut plain = 0;
    for (i, byte) in text.iter().enumerate() {
        if let Some(escape) = escape_of(*byte) {
            put_two(out, &text[plain..i], escape)?;
            plain = i + 1;
        }
    }
    put(out, &text[plain..])
}

/// The one and then the other.
fn put_two(out: &mut Vec<u8>, first: &[u8], second: &[u8]) -> Result<(), NoMemory>
    ensures { OnOk result (out.new.items ≡ out.old.items ++ (first.now ++ second.now)) }
{
    put(out, first)?;
    put(out, second)
}

/// What is written for the byte, where it is not the byte itself.
fn escape_of(byte: u8) -> Option<&'static [u8]>
    ensures { MatchOption result (quoted_byte byte ≡ byte ∷ []) (λ escape. quoted_byte byte ≡ escape.now) }
{
    match byte {
        b'"' => Some(b"\\\""),
        b'\\' => Some(b"\\\\"),
        b'\n' => Some(b"\\n"),
        b'\t' => Some(b"\\t"),
        _ => None,
    }
}
