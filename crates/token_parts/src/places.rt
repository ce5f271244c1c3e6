//! Places of tokens.

ghost use Rattle.std.specs.Prelude.{◌≡◌, true, false, OnOk, IfErr};
ghost use Rattle.component_meaning.specs.Names as spec;

use component_items::{Place, Refusal, Why};
use text_lexer::Token;

/// The place of the token's first byte.
pub fn place_of(token: Token) -> Place
    ensures { result ≡ spec.place_of token }
{
    Place {
        line: token.line,
        column: token.column,
    }
}

/// The refusal of a token for a reason, at the token's place.
pub fn refused(why: Why, token: Token) -> Refusal
    ensures { result ≡ Refusal.Bad why (spec.place_of token) }
{
    Refusal::Bad(why, place_of(token))
}

/// Refuses the token for this reason where what has to hold of it does not.
pub fn check(holds: bool, why: Why, token: Token) -> Result<(), Refusal>
    ensures ok { OnOk result (holds ≡ true) }
    ensures refused { IfErr result (λ e. (holds ≡ false) × (e ≡ Refusal.Bad why (spec.place_of token))) }
{
    if holds {
        return Ok(());
    }
    Err(refused(why, token))
}
