//! The symbols to which one token of lookahead leads from a rule of a component text, where that is more than one
//! production.

ghost use Rattle.std.specs.Prelude.{◌≡◌, ◌≤◌, ◌++◌, take};
ghost use Rattle.grammar.specs.Leading.{Expands};
ghost use Rattle.text_grammar.specs.Component as spec;
ghost use Rattle.text_grammar.specs.ComponentAhead as ahead;
ghost use Rattle.text_grammar.specs.Operands.{operand, operators};

use crate::component::{Action, Rule, Terminal};
use crate::component_productions::{Production, production};
use crate::kind::{Class, Kind, Seen};
use grammar::Symbol;
use text_lexer::{Mark, Reserved};

/// How many rules stand for the operators that may go on behind an operand.
const OPERATORS: usize = 3;

/// The symbols to which the productions lead that one token of lookahead chooses for a rule, and for rules that then
/// come first. A reader that meets the rule puts them in its place: an operand is so found in one step.
// Within a reader's loop the choices of all rules would be worked out for each token.
#[inline(never)]
pub fn expansion(rule: Rule, token: Seen) -> Production
    ensures { Expands spec.table ahead.lookahead token rule result.now }
{
    match rule {
        Rule::Expression => expression(token),
        Rule::Sum => operand_with(token, 2),
        Rule::Term => operand_with(token, 1),
        Rule::Atom => operand_with(token, 0),
        _ => production(rule, token),
    }
}

fn expression(token: Seen) -> Production
    ensures { Expands spec.table ahead.lookahead token Rule.Expression result.now }
{
    if Class::Only(Kind::Reserved(Reserved::If)).contains(token) {
        production(Rule::Expression, token)
    } else {
        operand_with(token, OPERATORS)
    }
}

/// An operand with so many rules behind it, from the operators that bind most.
fn operand_with(token: Seen, count: usize) -> Production
    requires { count ≤ 3 }
    ensures { result.now ≡ operand token.kind ++ take count operators }
{
    let whole = whole_operand(token);
    &whole[..whole.len() - (OPERATORS - count)]
}

/// An operand that begins with the token, with all that may go on behind it.
fn whole_operand(token: Seen) -> Production
    ensures { result.now ≡ operand token.kind ++ operators }
{
    match token.kind {
        Kind::Name | Kind::VoidName => &[
            Symbol::Terminal(Terminal::UsedName),
            Symbol::Rule(Rule::TermMore),
            Symbol::Rule(Rule::SumMore),
            Symbol::Rule(Rule::TestMore),
        ],
        Kind::Reserved(Reserved::Row) => &[
            Symbol::Terminal(Terminal::Row),
            Symbol::Terminal(Terminal::Dot),
            Symbol::Terminal(Terminal::RowField),
            Symbol::Rule(Rule::TermMore),
            Symbol::Rule(Rule::SumMore),
            Symbol::Rule(Rule::TestMore),
        ],
        Kind::Mark(Mark::OpenParen) => &[
            Symbol::Terminal(Terminal::OpenParen),
            Symbol::Rule(Rule::Expression),
            Symbol::Terminal(Terminal::CloseParen),
            Symbol::Rule(Rule::TermMore),
            Symbol::Rule(Rule::SumMore),
            Symbol::Rule(Rule::TestMore),
        ],
        Kind::Reserved(Reserved::Empty) => &[
            Symbol::Terminal(Terminal::EmptyLiteral),
            Symbol::Action(Action::MakeLiteral),
            Symbol::Rule(Rule::TermMore),
            Symbol::Rule(Rule::SumMore),
            Symbol::Rule(Rule::TestMore),
        ],
        Kind::Text => &[
            Symbol::Terminal(Terminal::TextLiteral),
            Symbol::Action(Action::MakeLiteral),
            Symbol::Rule(Rule::TermMore),
            Symbol::Rule(Rule::SumMore),
            Symbol::Rule(Rule::TestMore),
        ],
        Kind::One | Kind::Number => &[
            Symbol::Terminal(Terminal::NumberLiteral),
            Symbol::Action(Action::MakeLiteral),
            Symbol::Rule(Rule::TermMore),
            Symbol::Rule(Rule::SumMore),
            Symbol::Rule(Rule::TestMore),
        ],
        _ => &[
            Symbol::Terminal(Terminal::LiteralMinus),
            Symbol::Terminal(Terminal::NegatedLiteral),
            Symbol::Action(Action::MakeLiteral),
            Symbol::Rule(Rule::TermMore),
            Symbol::Rule(Rule::SumMore),
            Symbol::Rule(Rule::TestMore),
        ],
    }
}
