//! Phases and lanes.

ghost use Rattle.std.specs.Prelude.{◌≡◌, Ok};
ghost use Rattle.token_reader.specs.Rules.{Accepts};
ghost use Rattle.script_meaning.specs.Meaning.{accept_token};

use component_items::{Count, Refusal, Why};
use script_draft::{ScriptDraft, begin_lane, lanes};
use text_grammar::script::Terminal;
use text_lexer::{BadToken, Lexer, Token};
use token_parts::refused;
use values::limits::{MOST_LANES, MOST_PHASES};

/// A further phase.
pub(crate) fn accept_phase(
    draft: &mut ScriptDraft<'_>,
    lexer: &Lexer<'_>,
    token: Token,
    next: Result<Token, BadToken>,
) -> Result<(), Refusal>
    ensures { Accepts (accept_token lexer.now.text Terminal.Phase draft.old (Ok token) next) result draft.new }
{
    if draft.script.phases() as usize >= MOST_PHASES {
        return Err(refused(Why::TooLarge(Count::Phases), token));
    }
    draft.script.begin_phase().map_err(|_| Refusal::NoMemory)
}

/// A further lane of the last phase.
pub(crate) fn accept_lane(
    draft: &mut ScriptDraft<'_>,
    lexer: &Lexer<'_>,
    token: Token,
    next: Result<Token, BadToken>,
) -> Result<(), Refusal>
    ensures { Accepts (accept_token lexer.now.text Terminal.Lane draft.old (Ok token) next) result draft.new }
{
    if lanes(&draft.script) as usize >= MOST_LANES {
        return Err(refused(Why::TooManyLanes, token));
    }
    begin_lane(&mut draft.script).map_err(|_| Refusal::NoMemory)
}
