//! Texts that come as bytes.

ghost use Rattle.std.specs.Prelude.{◌≡◌, ◌+◌, ◌==◌, if◌then◌else◌, ◌<◌, ◌≤◌, ◌^◌, ℕ, IfOk, IfErr, length};
ghost use Rattle.text_lexer.specs.Place.{line_at, column_at};
ghost use Rattle.part_meaning.specs.Part.{IsReadTo};
ghost use Rattle.token_reader.specs.Rules as spec;
ghost use Rattle.token_reader.specs.Refused.{IsRefusedOr};

use crate::reader::read;
use crate::state::TextState;
use component_items::{Place, Refusal, Why};
use std::alloc::Global;
use std::str;

/// The place behind a byte that stands at this place.
fn past(place: Place, byte: u8) -> Place
    requires line { place.line + 1 < 2 ^ 32 }
    requires column { place.column + 1 < 2 ^ 32 }
    ensures line { result.line ≡ (if byte == 10 then place.line + 1 else place.line) }
    ensures column { result.column ≡ (if byte == 10 then 1 else place.column + 1) }
{
    if byte == b'\n' {
        return Place {
            line: place.line + 1,
            column: 1,
        };
    }
    Place {
        line: place.line,
        column: place.column + 1,
    }
}

/// The place of the byte at an offset.
pub fn place_at(bytes: &[u8], offset: usize, first_line: u32) -> Place
    requires within { offset ≤ length bytes.now }
    requires length { length bytes.now + first_line < 2 ^ 31 }
    ensures line { result.line ≡ line_at first_line bytes.now offset }
    ensures column { result.column ≡ column_at bytes.now offset }
{
    let mut place = Place {
        line: first_line,
        column: 1,
    };
    for i in 0..offset {
        place = past(place, bytes[i]);
    }
    place
}

/// The same as `read` for bytes, which are refused where they are no UTF-8.
pub fn read_bytes<
    W: Copy + Drop + 'static,
    R: Copy + Drop + 'static,
    D: Copy + Drop + 'static,
    S: TextState<W, R, D> + Drop,
>(alloc: Global, first: S, bytes: &[u8], first_line: u32) -> Result<S, Refusal>
    requires length { length bytes.now + first_line < 2 ^ 31 }
    requires room { S.rules.size first + length bytes.now < 2 ^ 31 }
    ensures ok { IfOk result (IsReadTo (spec.language S.rules first first_line) bytes.now) }
    ensures bad { IfErr result (IsRefusedOr (spec.language S.rules first first_line) bytes.now) }
{
    match str::from_utf8(bytes) {
        Ok(text) => read(alloc, first, text, first_line),
        Err(error) => {
            let place = place_at(bytes, error.valid_up_to(), first_line);
            Err(Refusal::Bad(Why::BadUtf8, place))
        }
    }
}
