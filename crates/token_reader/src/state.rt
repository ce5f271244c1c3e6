//! What a language is to the reader.

ghost use Rattle.std.specs.Prelude.{◌≡◌, ◌<◌, ◌^◌, ℕ, List, IfOk, OnOk, Some, Ok, true};
ghost use Rattle.grammar.specs.Table.{production_at};
ghost use Rattle.grammar.specs.Leading.{Expands};
ghost use Rattle.text_lexer.specs.Token.{IsTokenOf};
ghost use Rattle.text_grammar.specs.Kind.{kind_of};
ghost use Rattle.token_reader.specs.Rules.{Rules, IsReadable, Accepts};

use component_items::Refusal;
use grammar::Symbol;
use std::alloc::{AllocError, Global};
use text_grammar::Seen;
use text_lexer::{BadToken, Lexer, Token};

/// What is read of a text so far, with the grammar by which it goes on. `rules` is the language: its table, what one
/// token ahead tells, a whole text, and what the tokens and the actions do.
pub trait TextState<W, R, D> {
    ghost rules: { Rules W R D Self };

    /// The symbols of a whole text.
    fn whole_text() -> &'static [Symbol<W, R, D>]
        ensures { result.now ≡ rules.text };

    /// The production of a rule that the next token chooses.
    fn production(rule: R, token: Seen) -> &'static [Symbol<W, R, D>]
        ensures { production_at (rules.table.productions rule) (rules.lookahead.choice rule token) ≡ Some result.now };

    /// The symbols to which the productions lead that the next token chooses for the rule, and for rules that then come
    /// first: its production, or what stands for that in fewer steps.
    // Within the reader's loop the choices of all rules would be worked out for each token.
    #[inline(never)]
    fn expansion(rule: R, token: Seen) -> &'static [Symbol<W, R, D>]
        ensures { Expands rules.table rules.lookahead token rule result.now }
    {
        Self::production(rule, token)
    }

    /// Whether the token may stand for the terminal.
    fn matches(terminal: W, token: Seen) -> bool
        ensures { result ≡ rules.table.matches terminal token };

    /// Takes the token for the terminal, or says which check it fails. `next` is what comes behind it.
    fn accept(
        &mut self,
        alloc: Global,
        lexer: &Lexer<'_>,
        terminal: W,
        token: Token,
        next: Result<Token, BadToken>,
    ) -> Result<(), Refusal>
        requires of_text { IsTokenOf lexer.now.text token }
        requires next_of_text { IfOk next (IsTokenOf lexer.now.text) }
        requires stands { rules.table.matches terminal (kind_of lexer.now.text (Ok token)) ≡ true }
        requires room { rules.size self.old < 2 ^ 31 }
        ensures { Accepts ((rules.semantics lexer.now.text).accept terminal self.old (record { token = Ok token; next = next })) result self.new };

    /// Does what an action says, whatever the bytes of the text are.
    fn perform(&mut self, alloc: Global, action: D) -> Result<(), AllocError>
        requires { rules.size self.old < 2 ^ 31 }
        ensures { OnOk result ((bytes : List ℕ) → self.new ≡ (rules.semantics bytes).perform action self.old) };

    ghost readable: { IsReadable rules };
}
