//! What each line is made of: bytes, numbers in decimal, and texts of the table.
ghost use Rattle.std.specs.Prelude.{◌≡◌, ◌++◌, OnOk};
ghost use Rattle.std.specs.Fmt.{decimal, signed_decimal};
ghost use Rattle.html_out.specs.Shown.{text_at};

use itoa::Buffer;
use values::{NoMemory, Texts};

/// Bytes that stand for themselves.
pub(crate) fn put(out: &mut Vec<u8>, bytes: &[u8]) -> Result<(), NoMemory>
    ensures { OnOk result (out.new.items ≡ out.old.items ++ bytes.now) }
{
    out.extend_from_slice(bytes)?;
    Ok(())
}

/// A number without a sign.
pub(crate) fn put_number(out: &mut Vec<u8>, number: u32) -> Result<(), NoMemory>
    ensures { OnOk result (out.new.items ≡ out.old.items ++ decimal number) }
{
    let mut buffer = Buffer::new();
    put(out, buffer.format(number).as_bytes())
}

/// A number, with `-` before it where it is below 0.
pub(crate) fn put_signed(out: &mut Vec<u8>, number: i32) -> Result<(), NoMemory>
    ensures { OnOk result (out.new.items ≡ out.old.items ++ signed_decimal number) }
{
    let mut buffer = Buffer::new();
    put(out, buffer.format(number).as_bytes())
}

/// Words, and a number behind them.
pub(crate) fn put_count(out: &mut Vec<u8>, words: &[u8], number: u32) -> Result<(), NoMemory>
    ensures { OnOk result (out.new.items ≡ out.old.items ++ (words.now ++ decimal number)) }
{
    put(out, words)?;
    put_number(out, number)
}

/// The text of this number. What is not in the table is the empty text.
pub(crate) fn text_of(texts: &Texts, index: u32) -> &str
    ensures { result.now ≡ text_at texts.now index }
{
    match texts.get(index) {
        Some(text) => text,
        None => "",
    }
}
