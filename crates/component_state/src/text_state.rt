//! Component texts as a language that the reader reads.

ghost use Rattle.component_state.specs.Rules.{rules as component_rules};
ghost use Rattle.component_state.specs.Readable.{readable as components_are_readable};

use crate::state::ComponentState;
use component_items::Refusal;
use component_tokens::accept_token;
use grammar::Symbol;
use std::alloc::{AllocError, Global};
use text_grammar::Seen;
use text_grammar::component::{self, Action, Rule, Terminal};
use text_lexer::{BadToken, Lexer, Token};
use token_reader::TextState;

impl TextState<Terminal, Rule, Action> for ComponentState {
    ghost rules = { component_rules };

    fn whole_text() -> &'static [Symbol<Terminal, Rule, Action>] {
        &[
            Symbol::Rule(Rule::Component),
            Symbol::Terminal(Terminal::End),
        ]
    }

    fn production(rule: Rule, token: Seen) -> &'static [Symbol<Terminal, Rule, Action>] {
        component::production(rule, token)
    }

    fn expansion(rule: Rule, token: Seen) -> &'static [Symbol<Terminal, Rule, Action>] {
        component::expansion(rule, token)
    }

    fn matches(terminal: Terminal, token: Seen) -> bool {
        component::matches(terminal, token)
    }

    fn accept(
        &mut self,
        alloc: Global,
        lexer: &Lexer<'_>,
        terminal: Terminal,
        token: Token,
        next: Result<Token, BadToken>,
    ) -> Result<(), Refusal> {
        accept_token(&mut self.draft, alloc, lexer, terminal, token, next)
    }

    fn perform(&mut self, alloc: Global, action: Action) -> Result<(), AllocError> {
        component_actions::perform(&mut self.draft, alloc, action)
    }

    ghost readable = { components_are_readable };
}
