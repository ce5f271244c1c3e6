//! Values, shown.
ghost use Rattle.std.specs.Prelude.{◌≡◌, [], Bool};
ghost use Rattle.outside.specs.Puts.{Puts};
ghost use Rattle.html_out.specs.Shown.{shown};

use crate::escape::escape;
use crate::transfer::put;
use itoa::Buffer;
use outside::{Failed, Sink};
use values::{Code, Texts};

/// Writes a value: a number in decimal, a text with its escapes, as in an attribute's value where `value` is
/// true and else as a text of the page. Nothing is written for no value, and for the number of a text that
/// the table does not have. It takes no memory. After `Failed` a front of these bytes was written, and the
/// sink has counted the fault.
pub fn show<K: Sink>(sink: &mut K, code: Code, texts: &Texts, value: bool) -> Result<(), Failed>
    ensures { Puts (K.taken sink.old) (K.taken sink.new) (K.faults sink.old) (K.faults sink.new) (shown texts.now value code) result }
{
    match code {
        Code::Empty => Ok(()),
        Code::Number(number) => {
            let mut buffer = Buffer::new();
            put(sink, buffer.format(number).as_bytes())
        }
        Code::Word(index) => match texts.get(index) {
            Some(text) => escape(sink, text.as_bytes(), value),
            None => Ok(()),
        },
    }
}
