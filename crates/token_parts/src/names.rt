//! How the name of a tag or attribute goes on, and the one name that no field may have.

ghost use Rattle.std.specs.Prelude.{◌≡◌, IfOk};
ghost use Rattle.text_lexer.specs.Token.{IsTokenOf};
ghost use Rattle.component_meaning.specs.Names as spec;

use text_grammar::{Class, kind_of};
use text_lexer::{BadToken, Lexer, Token};

/// Whether the token before goes on with the name of a tag or attribute: a `-` touches it.
pub fn goes_on(lexer: &Lexer<'_>, next: Result<Token, BadToken>) -> bool
    requires { IfOk next (IsTokenOf lexer.now.text) }
    ensures { result ≡ spec.goes_on lexer.now.text next }
{
    Class::Dash.contains(kind_of(lexer, next))
}

/// Whether this can come behind the `-` in the name of a tag or attribute.
pub fn is_part(lexer: &Lexer<'_>, next: Result<Token, BadToken>) -> bool
    requires { IfOk next (IsTokenOf lexer.now.text) }
    ensures { result ≡ spec.is_part lexer.now.text next }
{
    Class::Part.contains(kind_of(lexer, next))
}

/// Whether the name is `key`, which stands for the key of a row.
pub fn is_key(name: &str) -> bool
    ensures { result ≡ spec.is_key name.now }
{
    name == "key"
}
