//! The state as the reader takes it.

ghost use Rattle.std.specs.Prelude.{◌≡◌, Some};
ghost use Rattle.grammar.specs.Table.{production_at};
ghost use Rattle.script_state.specs.Rules.{rules};
ghost use Rattle.script_state.specs.Readable.{readable as scripts_are_readable};

use crate::state::ScriptState;
use component_items::Refusal;
use grammar::Symbol;
use script_tokens::accept_token;
use std::alloc::{AllocError, Global};
use text_grammar::Seen;
use text_grammar::script::{self, Action, Rule, Terminal};
use text_lexer::{BadToken, Lexer, Token};
use token_reader::TextState;

impl<'a> TextState<Terminal, Rule, Action> for ScriptState<'a> {
    ghost rules = { rules };

    fn whole_text() -> &'static [Symbol<Terminal, Rule, Action>]
        ensures { result.now ≡ rules.text }
    {
        &[Symbol::Rule(Rule::Script), Symbol::Terminal(Terminal::End)]
    }

    fn production(rule: Rule, token: Seen) -> &'static [Symbol<Terminal, Rule, Action>]
        ensures { production_at (rules.table.productions rule) (rules.lookahead.choice rule token) ≡ Some result.now }
    {
        script::production(rule, token)
    }

    fn matches(terminal: Terminal, token: Seen) -> bool
        ensures { result ≡ rules.table.matches terminal token }
    {
        script::matches(terminal, token)
    }

    fn accept(
        &mut self,
        alloc: Global,
        lexer: &Lexer<'_>,
        terminal: Terminal,
        token: Token,
        next: Result<Token, BadToken>,
    ) -> Result<(), Refusal> {
        accept_token(&mut self.draft, alloc, lexer, terminal, token, next)
    }

    fn perform(&mut self, alloc: Global, action: Action) -> Result<(), AllocError> {
        script_actions::perform(&mut self.draft, alloc, action)
    }

    ghost readable = { scripts_are_readable };
}
