//! Classes of bytes.

ghost use Rattle.std.specs.Prelude.{◌≡◌, ◌≢◌, ◌<◌, ◌↔◌, ◌⊎◌, IsTrue};
ghost use Rattle.std.specs.Bool.{IsFalse};
ghost use Rattle.text_lexer.specs.Bytes.{is_blank, is_letter, is_digit, is_name_byte};
ghost use Rattle.text_lexer.specs.Token.{escape_value, is_escape, is_plain};

/// Space, tab, carriage return or line feed.
pub fn is_blank(b: u8) -> bool
    ensures { result ≡ is_blank b }
{
    b == b' ' || b == b'\t' || b == b'\r' || b == b'\n'
}

/// A letter from a to z.
pub fn is_letter(b: u8) -> bool
    ensures { result ≡ is_letter b }
{
    b'a' <= b && b <= b'z'
}

/// A digit.
pub fn is_digit(b: u8) -> bool
    ensures { result ≡ is_digit b }
{
    b'0' <= b && b <= b'9'
}

/// A letter, a digit or `_`.
pub fn is_name_byte(b: u8) -> bool
    ensures { result ≡ is_name_byte b }
{
    is_letter(b) || is_digit(b) || b == b'_'
}

/// A byte that may stand behind a backslash in a text.
pub fn is_escape(b: u8) -> bool
    ensures { result ≡ is_escape b }
{
    b == b'"' || b == b'\\' || b == b'n' || b == b't'
}

/// A byte that stands for itself in a text.
pub fn is_plain(b: u8) -> bool
    ensures { result ≡ is_plain b }
{
    b >= b' ' && b != b'"' && b != b'\\'
}

/// Whether the byte `b`, which stands in no comment, is neither a blank nor the start of a comment.
pub fn begins_token(b: u8) -> bool
    ensures { IsTrue result ↔ (IsFalse (is_blank b) × (b ≢ 35)) }
{
    !is_blank(b) && b != b'#'
}

/// Whether a comment goes on behind the byte `b`.
pub fn comment_goes_on(in_comment: bool, b: u8) -> bool
    ensures { IsTrue result ↔ ((IsTrue in_comment ⊎ b ≡ 35) × (b ≢ 10)) }
{
    (in_comment || b == b'#') && b != b'\n'
}

/// What a backslash before the byte `b` means.
pub fn escape_value(b: u8) -> char
    requires { b < 128 }
    ensures { result ≡ escape_value b }
{
    match b {
        b'n' => '\n',
        b't' => '\t',
        _ => b as char,
    }
}
