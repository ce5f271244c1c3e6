//! Texts with their escapes.
ghost use Rattle.std.specs.Prelude.{◌≡◌, ◌∷◌, [], true, false, MatchOption};
ghost use Rattle.outside.specs.Puts.{Puts};
ghost use Rattle.html_out.specs.Shown.{escaped};

use crate::transfer::{put, put_two};
use outside::{Failed, Sink};

/// Writes a text of the page: `&`, `<` and `>` are escaped, and all else stays. It takes no memory. After
/// `Failed` a front of these bytes was written, and the sink has counted the fault.
pub fn escape_text<K: Sink>(sink: &mut K, text: &str) -> Result<(), Failed>
    ensures { Puts (K.taken sink.old) (K.taken sink.new) (K.faults sink.old) (K.faults sink.new) (escaped false text.now) result }
{
    escape(sink, text.as_bytes(), false)
}

/// Writes the value of an attribute: `"` is escaped too, so that the value does not end early. It takes no
/// memory. After `Failed` a front of these bytes was written, and the sink has counted the fault.
pub fn escape_value<K: Sink>(sink: &mut K, text: &str) -> Result<(), Failed>
    ensures { Puts (K.taken sink.old) (K.taken sink.new) (K.faults sink.old) (K.faults sink.new) (escaped true text.now) result }
{
    escape(sink, text.as_bytes(), true)
}

/// Writes the runs of bytes that stand for themselves, each at once, and between them the escapes.
pub(crate) fn escape<K: Sink>(sink: &mut K, text: &[u8], in_value: bool) -> Result<(), Failed>
    ensures { Puts (K.taken sink.old) (K.taken sink.new) (K.faults sink.old) (K.faults sink.new) (escaped in_value text.now) result }
{
    let mut plain = 0;
    for (i, byte) in text.iter().enumerate() {
        if let Some(escape) = escape_of(in_value, *byte) {
            put_two(sink, &text[plain..i], escape)?;
            plain = i + 1;
        }
    }
    put(sink, &text[plain..])
}

/// What is written for the byte, where it is not the byte itself.
fn escape_of(in_value: bool, byte: u8) -> Option<&'static [u8]>
    ensures { MatchOption result (escaped in_value (byte ∷ []) ≡ byte ∷ []) (λ escape. escaped in_value (byte ∷ []) ≡ escape.now) }
{
    match byte {
        b'&' => Some(b"&amp;"),
        b'<' => Some(b"&lt;"),
        b'>' => Some(b"&gt;"),
        b'"' if in_value => Some(b"&quot;"),
        _ => None,
    }
}
