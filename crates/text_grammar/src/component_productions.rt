//! The production of the grammar of component texts that one token of lookahead chooses.

ghost use Rattle.std.specs.Prelude.{◌≡◌, Some};
ghost use Rattle.grammar.specs.Table.{production_at};
ghost use Rattle.text_grammar.specs.Component as spec;
ghost use Rattle.text_grammar.specs.ComponentAhead as ahead;

use crate::component::{Action, Rule, Terminal};
use crate::kind::{Class, Kind, Seen};
use grammar::Symbol;
use text_lexer::{Mark, Reserved};
use values::Op;

/// What a rule of a component text stands for at one place, in the order of the text.
pub type Production = &'static [Symbol<Terminal, Rule, Action>];

/// The production of the rule that one token of lookahead chooses. A reader that meets the rule puts its symbols
/// on the stack in the rule's place. Every token chooses one, also one that fits none of them: that shows at the
/// next terminal, for which such a token may not stand. `docs/LANGUAGE.md` has the productions as a person reads
/// them.
pub fn production(rule: Rule, token: Seen) -> Production
    ensures { production_at (spec.productions rule) (ahead.choice rule token) ≡ Some result.now }
{
    match rule {
        Rule::Component => &[
            Symbol::Terminal(Terminal::Component),
            Symbol::Terminal(Terminal::Version),
            Symbol::Rule(Rule::Items),
        ],
        Rule::Items => items(token),
        Rule::Pairs => pairs(token),
        Rule::Key => key(token),
        Rule::Fields => fields(token),
        Rule::Element => element(token),
        Rule::OpenTagMore => open_tag_more(token),
        Rule::VoidTagMore => void_tag_more(token),
        Rule::VoidEnd => void_end(token),
        Rule::ElementRest => &[
            Symbol::Rule(Rule::Attributes),
            Symbol::Terminal(Terminal::Greater),
            Symbol::Rule(Rule::Items),
            Symbol::Rule(Rule::ElementEnd),
        ],
        Rule::ElementEnd => element_end(token),
        Rule::CloseTagMore => close_tag_more(token),
        Rule::Attributes => attributes(token),
        Rule::AttributeMore => attribute_more(token),
        Rule::AttributeValue => attribute_value(token),
        Rule::AssignedValue => assigned_value(token),
        Rule::Expression => expression(token),
        Rule::Test => &[Symbol::Rule(Rule::Sum), Symbol::Rule(Rule::TestMore)],
        Rule::TestMore => test_more(token),
        Rule::Sum => &[Symbol::Rule(Rule::Term), Symbol::Rule(Rule::SumMore)],
        Rule::SumMore => sum_more(token),
        Rule::Term => &[Symbol::Rule(Rule::Atom), Symbol::Rule(Rule::TermMore)],
        Rule::TermMore => term_more(token),
        Rule::Atom => atom(token),
        Rule::Literal => literal(token),
    }
}

fn items(token: Seen) -> Production
    ensures { production_at (spec.productions Rule.Items) (ahead.choice Rule.Items token) ≡ Some result.now }
{
    match token.kind {
        Kind::Reserved(Reserved::Signal) => &[
            Symbol::Terminal(Terminal::Signal),
            Symbol::Terminal(Terminal::NewName),
            Symbol::Terminal(Terminal::Assign),
            Symbol::Action(Action::BeginExpression),
            Symbol::Rule(Rule::Literal),
            Symbol::Action(Action::MakeSignal),
            Symbol::Rule(Rule::Items),
        ],
        Kind::Reserved(Reserved::Memo) => &[
            Symbol::Terminal(Terminal::Memo),
            Symbol::Terminal(Terminal::NewName),
            Symbol::Terminal(Terminal::Assign),
            Symbol::Action(Action::BeginExpression),
            Symbol::Rule(Rule::Expression),
            Symbol::Action(Action::MakeMemo),
            Symbol::Rule(Rule::Items),
        ],
        Kind::Reserved(Reserved::Effect) => &[
            Symbol::Terminal(Terminal::Effect),
            Symbol::Terminal(Terminal::NewName),
            Symbol::Terminal(Terminal::Assign),
            Symbol::Action(Action::BeginExpression),
            Symbol::Rule(Rule::Expression),
            Symbol::Action(Action::MakeEffect),
            Symbol::Rule(Rule::Items),
        ],
        Kind::Reserved(Reserved::Resource) => &[
            Symbol::Terminal(Terminal::Resource),
            Symbol::Terminal(Terminal::NewName),
            Symbol::Terminal(Terminal::After),
            Symbol::Terminal(Terminal::AfterNumber),
            Symbol::Terminal(Terminal::OpenBrace),
            Symbol::Action(Action::BeginEntries),
            Symbol::Rule(Rule::Pairs),
            Symbol::Terminal(Terminal::CloseBrace),
            Symbol::Action(Action::MakeResource),
            Symbol::Rule(Rule::Items),
        ],
        Kind::Reserved(Reserved::Load) => &[
            Symbol::Terminal(Terminal::Load),
            Symbol::Terminal(Terminal::NewName),
            Symbol::Terminal(Terminal::Assign),
            Symbol::Terminal(Terminal::UsedResource),
            Symbol::Terminal(Terminal::OpenLoadKey),
            Symbol::Action(Action::BeginExpression),
            Symbol::Rule(Rule::Expression),
            Symbol::Terminal(Terminal::CloseLoadKey),
            Symbol::Action(Action::MakeLoad),
            Symbol::Rule(Rule::Items),
        ],
        Kind::Reserved(Reserved::Store) => &[
            Symbol::Terminal(Terminal::Store),
            Symbol::Terminal(Terminal::NewName),
            Symbol::Terminal(Terminal::Max),
            Symbol::Terminal(Terminal::MaxNumber),
            Symbol::Terminal(Terminal::OpenBrace),
            Symbol::Action(Action::BeginEntries),
            Symbol::Rule(Rule::Fields),
            Symbol::Terminal(Terminal::CloseBrace),
            Symbol::Action(Action::MakeStore),
            Symbol::Rule(Rule::Items),
        ],
        Kind::Reserved(Reserved::Cleanup) => &[
            Symbol::Terminal(Terminal::Cleanup),
            Symbol::Terminal(Terminal::CleanupText),
            Symbol::Action(Action::MakeCleanup),
            Symbol::Rule(Rule::Items),
        ],
        Kind::Reserved(Reserved::Area) => &[
            Symbol::Terminal(Terminal::Area),
            Symbol::Terminal(Terminal::NewArea),
            Symbol::Terminal(Terminal::OpenBlock),
            Symbol::Action(Action::OpenArea),
            Symbol::Rule(Rule::Items),
            Symbol::Terminal(Terminal::CloseBlock),
            Symbol::Action(Action::Close),
            Symbol::Rule(Rule::Items),
        ],
        Kind::Reserved(Reserved::If) => &[
            Symbol::Terminal(Terminal::If),
            Symbol::Action(Action::BeginExpression),
            Symbol::Rule(Rule::Expression),
            Symbol::Terminal(Terminal::OpenBlock),
            Symbol::Action(Action::OpenIf),
            Symbol::Rule(Rule::Items),
            Symbol::Terminal(Terminal::CloseBlock),
            Symbol::Action(Action::Close),
            Symbol::Rule(Rule::Items),
        ],
        Kind::Reserved(Reserved::Each) => &[
            Symbol::Terminal(Terminal::Each),
            Symbol::Terminal(Terminal::UsedStore),
            Symbol::Terminal(Terminal::OpenBlock),
            Symbol::Action(Action::OpenEach),
            Symbol::Rule(Rule::Items),
            Symbol::Terminal(Terminal::CloseBlock),
            Symbol::Action(Action::Close),
            Symbol::Rule(Rule::Items),
        ],
        Kind::Mark(Mark::Less) => &[
            Symbol::Terminal(Terminal::Less),
            Symbol::Rule(Rule::Element),
            Symbol::Rule(Rule::Items),
        ],
        Kind::Text => &[
            Symbol::Terminal(Terminal::TextItem),
            Symbol::Action(Action::MakeText),
            Symbol::Rule(Rule::Items),
        ],
        Kind::Mark(Mark::OpenBrace) => &[
            Symbol::Terminal(Terminal::OpenShown),
            Symbol::Action(Action::BeginExpression),
            Symbol::Rule(Rule::Expression),
            Symbol::Terminal(Terminal::CloseBrace),
            Symbol::Action(Action::MakeShown),
            Symbol::Rule(Rule::Items),
        ],
        _ => &[],
    }
}

fn pairs(token: Seen) -> Production
    ensures { production_at (spec.productions Rule.Pairs) (ahead.choice Rule.Pairs token) ≡ Some result.now }
{
    match token.kind {
        Kind::Reserved(Reserved::Empty)
        | Kind::One
        | Kind::Number
        | Kind::Text
        | Kind::Mark(Mark::Minus) => &[
            Symbol::Rule(Rule::Key),
            Symbol::Terminal(Terminal::Arrow),
            Symbol::Action(Action::BeginExpression),
            Symbol::Rule(Rule::Literal),
            Symbol::Action(Action::AddValue),
            Symbol::Rule(Rule::Pairs),
        ],
        _ => &[],
    }
}

fn key(token: Seen) -> Production
    ensures { production_at (spec.productions Rule.Key) (ahead.choice Rule.Key token) ≡ Some result.now }
{
    match token.kind {
        Kind::Reserved(Reserved::Empty) => &[Symbol::Terminal(Terminal::EmptyKey)],
        Kind::Text => &[Symbol::Terminal(Terminal::TextKey)],
        Kind::One | Kind::Number => &[Symbol::Terminal(Terminal::NumberKey)],
        _ => &[
            Symbol::Terminal(Terminal::KeyMinus),
            Symbol::Terminal(Terminal::NegatedKey),
        ],
    }
}

fn fields(token: Seen) -> Production
    ensures { production_at (spec.productions Rule.Fields) (ahead.choice Rule.Fields token) ≡ Some result.now }
{
    match token.kind {
        Kind::Name | Kind::VoidName => &[
            Symbol::Terminal(Terminal::NewField),
            Symbol::Terminal(Terminal::Assign),
            Symbol::Action(Action::BeginExpression),
            Symbol::Rule(Rule::Literal),
            Symbol::Action(Action::AddValue),
            Symbol::Rule(Rule::Fields),
        ],
        _ => &[],
    }
}

fn element(token: Seen) -> Production
    ensures { production_at (spec.productions Rule.Element) (ahead.choice Rule.Element token) ≡ Some result.now }
{
    match token.kind {
        Kind::VoidName | Kind::Reserved(Reserved::Area) => &[
            Symbol::Terminal(Terminal::VoidTag),
            Symbol::Rule(Rule::VoidTagMore),
        ],
        _ => &[
            Symbol::Terminal(Terminal::OpenTag),
            Symbol::Rule(Rule::OpenTagMore),
            Symbol::Action(Action::OpenElement),
            Symbol::Rule(Rule::ElementRest),
        ],
    }
}

fn open_tag_more(token: Seen) -> Production
    ensures { production_at (spec.productions Rule.OpenTagMore) (ahead.choice Rule.OpenTagMore token) ≡ Some result.now }
{
    if Class::Dash.contains(token) {
        &[
            Symbol::Terminal(Terminal::Dash),
            Symbol::Terminal(Terminal::OpenTagPart),
            Symbol::Rule(Rule::OpenTagMore),
        ]
    } else {
        &[]
    }
}

fn void_tag_more(token: Seen) -> Production
    ensures { production_at (spec.productions Rule.VoidTagMore) (ahead.choice Rule.VoidTagMore token) ≡ Some result.now }
{
    if Class::Dash.contains(token) {
        &[
            Symbol::Terminal(Terminal::Dash),
            Symbol::Terminal(Terminal::OpenTagPart),
            Symbol::Rule(Rule::OpenTagMore),
            Symbol::Action(Action::OpenElement),
            Symbol::Rule(Rule::ElementRest),
        ]
    } else {
        &[
            Symbol::Action(Action::OpenVoid),
            Symbol::Rule(Rule::Attributes),
            Symbol::Rule(Rule::VoidEnd),
            Symbol::Action(Action::Close),
        ]
    }
}

fn void_end(token: Seen) -> Production
    ensures { production_at (spec.productions Rule.VoidEnd) (ahead.choice Rule.VoidEnd token) ≡ Some result.now }
{
    match token.kind {
        Kind::Mark(Mark::Slash) => &[
            Symbol::Terminal(Terminal::VoidSlash),
            Symbol::Terminal(Terminal::Greater),
        ],
        _ => &[Symbol::Terminal(Terminal::Greater)],
    }
}

fn element_end(token: Seen) -> Production
    ensures { production_at (spec.productions Rule.ElementEnd) (ahead.choice Rule.ElementEnd token) ≡ Some result.now }
{
    match token.kind {
        Kind::Mark(Mark::ClosingTag) => &[
            Symbol::Terminal(Terminal::ClosingTag),
            Symbol::Terminal(Terminal::CloseTag),
            Symbol::Rule(Rule::CloseTagMore),
            Symbol::Terminal(Terminal::Greater),
            Symbol::Action(Action::Close),
        ],
        _ => &[Symbol::Terminal(Terminal::Closer)],
    }
}

fn close_tag_more(token: Seen) -> Production
    ensures { production_at (spec.productions Rule.CloseTagMore) (ahead.choice Rule.CloseTagMore token) ≡ Some result.now }
{
    if Class::Dash.contains(token) {
        &[
            Symbol::Terminal(Terminal::Dash),
            Symbol::Terminal(Terminal::CloseTagPart),
            Symbol::Rule(Rule::CloseTagMore),
        ]
    } else {
        &[]
    }
}

fn attributes(token: Seen) -> Production
    ensures { production_at (spec.productions Rule.Attributes) (ahead.choice Rule.Attributes token) ≡ Some result.now }
{
    match token.kind {
        Kind::Reserved(_) | Kind::Name | Kind::VoidName => &[
            Symbol::Terminal(Terminal::AttributeName),
            Symbol::Rule(Rule::AttributeMore),
            Symbol::Action(Action::NameAttribute),
            Symbol::Rule(Rule::AttributeValue),
            Symbol::Rule(Rule::Attributes),
        ],
        _ => &[],
    }
}

fn attribute_more(token: Seen) -> Production
    ensures { production_at (spec.productions Rule.AttributeMore) (ahead.choice Rule.AttributeMore token) ≡ Some result.now }
{
    if Class::Dash.contains(token) {
        &[
            Symbol::Terminal(Terminal::Dash),
            Symbol::Terminal(Terminal::AttributePart),
            Symbol::Rule(Rule::AttributeMore),
        ]
    } else {
        &[]
    }
}

fn attribute_value(token: Seen) -> Production
    ensures { production_at (spec.productions Rule.AttributeValue) (ahead.choice Rule.AttributeValue token) ≡ Some result.now }
{
    match token.kind {
        Kind::Mark(Mark::Assign) => &[
            Symbol::Terminal(Terminal::Assign),
            Symbol::Rule(Rule::AssignedValue),
        ],
        _ => &[Symbol::Action(Action::MakeBare)],
    }
}

fn assigned_value(token: Seen) -> Production
    ensures { production_at (spec.productions Rule.AssignedValue) (ahead.choice Rule.AssignedValue token) ≡ Some result.now }
{
    match token.kind {
        Kind::Text => &[
            Symbol::Terminal(Terminal::AttributeText),
            Symbol::Action(Action::MakeFixed),
        ],
        _ => &[
            Symbol::Terminal(Terminal::OpenShown),
            Symbol::Action(Action::BeginExpression),
            Symbol::Rule(Rule::Expression),
            Symbol::Terminal(Terminal::CloseBrace),
            Symbol::Action(Action::MakeShownAttribute),
        ],
    }
}

fn expression(token: Seen) -> Production
    ensures { production_at (spec.productions Rule.Expression) (ahead.choice Rule.Expression token) ≡ Some result.now }
{
    match token.kind {
        Kind::Reserved(Reserved::If) => &[
            Symbol::Terminal(Terminal::ExpressionIf),
            Symbol::Rule(Rule::Expression),
            Symbol::Terminal(Terminal::Then),
            Symbol::Rule(Rule::Expression),
            Symbol::Terminal(Terminal::Else),
            Symbol::Rule(Rule::Expression),
            Symbol::Action(Action::MakeIf),
        ],
        _ => &[Symbol::Rule(Rule::Test)],
    }
}

fn test_more(token: Seen) -> Production
    ensures { production_at (spec.productions Rule.TestMore) (ahead.choice Rule.TestMore token) ≡ Some result.now }
{
    match token.kind {
        Kind::Mark(Mark::EqualTo) => &[
            Symbol::Terminal(Terminal::EqualTo),
            Symbol::Rule(Rule::Sum),
            Symbol::Action(Action::MakeBinary(Op::Equal)),
        ],
        Kind::Reserved(Reserved::Lt) => &[
            Symbol::Terminal(Terminal::LessThan),
            Symbol::Rule(Rule::Sum),
            Symbol::Action(Action::MakeBinary(Op::Less)),
        ],
        _ => &[],
    }
}

fn sum_more(token: Seen) -> Production
    ensures { production_at (spec.productions Rule.SumMore) (ahead.choice Rule.SumMore token) ≡ Some result.now }
{
    match token.kind {
        Kind::Mark(Mark::Plus) => &[
            Symbol::Terminal(Terminal::Plus),
            Symbol::Rule(Rule::Term),
            Symbol::Action(Action::MakeBinary(Op::Add)),
            Symbol::Rule(Rule::SumMore),
        ],
        Kind::Mark(Mark::Minus) => &[
            Symbol::Terminal(Terminal::Minus),
            Symbol::Rule(Rule::Term),
            Symbol::Action(Action::MakeBinary(Op::Sub)),
            Symbol::Rule(Rule::SumMore),
        ],
        _ => &[],
    }
}

fn term_more(token: Seen) -> Production
    ensures { production_at (spec.productions Rule.TermMore) (ahead.choice Rule.TermMore token) ≡ Some result.now }
{
    match token.kind {
        Kind::Mark(Mark::Star) => &[
            Symbol::Terminal(Terminal::Star),
            Symbol::Rule(Rule::Atom),
            Symbol::Action(Action::MakeBinary(Op::Mul)),
            Symbol::Rule(Rule::TermMore),
        ],
        Kind::Mark(Mark::Slash) => &[
            Symbol::Terminal(Terminal::Slash),
            Symbol::Rule(Rule::Atom),
            Symbol::Action(Action::MakeBinary(Op::Div)),
            Symbol::Rule(Rule::TermMore),
        ],
        Kind::Mark(Mark::Percent) => &[
            Symbol::Terminal(Terminal::Percent),
            Symbol::Rule(Rule::Atom),
            Symbol::Action(Action::MakeBinary(Op::Rem)),
            Symbol::Rule(Rule::TermMore),
        ],
        _ => &[],
    }
}

fn atom(token: Seen) -> Production
    ensures { production_at (spec.productions Rule.Atom) (ahead.choice Rule.Atom token) ≡ Some result.now }
{
    match token.kind {
        Kind::Name | Kind::VoidName => &[Symbol::Terminal(Terminal::UsedName)],
        Kind::Reserved(Reserved::Row) => &[
            Symbol::Terminal(Terminal::Row),
            Symbol::Terminal(Terminal::Dot),
            Symbol::Terminal(Terminal::RowField),
        ],
        Kind::Mark(Mark::OpenParen) => &[
            Symbol::Terminal(Terminal::OpenParen),
            Symbol::Rule(Rule::Expression),
            Symbol::Terminal(Terminal::CloseParen),
        ],
        _ => &[
            Symbol::Rule(Rule::Literal),
            Symbol::Action(Action::MakeLiteral),
        ],
    }
}

fn literal(token: Seen) -> Production
    ensures { production_at (spec.productions Rule.Literal) (ahead.choice Rule.Literal token) ≡ Some result.now }
{
    match token.kind {
        Kind::Reserved(Reserved::Empty) => &[Symbol::Terminal(Terminal::EmptyLiteral)],
        Kind::Text => &[Symbol::Terminal(Terminal::TextLiteral)],
        Kind::One | Kind::Number => &[Symbol::Terminal(Terminal::NumberLiteral)],
        _ => &[
            Symbol::Terminal(Terminal::LiteralMinus),
            Symbol::Terminal(Terminal::NegatedLiteral),
        ],
    }
}
