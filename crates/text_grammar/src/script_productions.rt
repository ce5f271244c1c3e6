//! The production of the grammar of script texts that one token of lookahead chooses.

ghost use Rattle.std.specs.Prelude.{◌≡◌, Some};
ghost use Rattle.grammar.specs.Table.{production_at};
ghost use Rattle.text_grammar.specs.Script as spec;
ghost use Rattle.text_grammar.specs.ScriptAhead as ahead;

use crate::kind::{Kind, Seen};
use crate::script::{Action, Rule, Terminal};
use grammar::Symbol;
use text_lexer::{Mark, Reserved};

/// What a rule of a script text stands for at one place, in the order of the text.
pub type Production = &'static [Symbol<Terminal, Rule, Action>];

/// The production of the rule that one token of lookahead chooses. A reader that meets the rule puts its symbols
/// on the stack in the rule's place. Every token chooses one, also one that fits none of them: that shows at the
/// next terminal, for which such a token may not stand. `docs/LANGUAGE.md` has the productions as a person reads
/// them.
pub fn production(rule: Rule, token: Seen) -> Production
    ensures { production_at (spec.productions rule) (ahead.choice rule token) ≡ Some result.now }
{
    match rule {
        Rule::Script => &[Symbol::Rule(Rule::Phases)],
        Rule::Phases => phases(token),
        Rule::Lanes => lanes(token),
        Rule::Operations => operations(token),
        Rule::SetPath => &[
            Symbol::Terminal(Terminal::SetName),
            Symbol::Rule(Rule::SetPathMore),
        ],
        Rule::SetPathMore => set_path_more(token),
        Rule::GetPath => &[
            Symbol::Terminal(Terminal::GetName),
            Symbol::Rule(Rule::GetPathMore),
        ],
        Rule::GetPathMore => get_path_more(token),
        Rule::AreaPath => &[
            Symbol::Terminal(Terminal::AreaName),
            Symbol::Rule(Rule::AreaPathMore),
        ],
        Rule::AreaPathMore => area_path_more(token),
        Rule::StorePath => &[
            Symbol::Terminal(Terminal::StoreName),
            Symbol::Rule(Rule::StorePathMore),
        ],
        Rule::StorePathMore => store_path_more(token),
        Rule::Key => key(token),
        Rule::Fields => fields(token),
        Rule::InsertPlace => insert_place(token),
        Rule::Literal => literal(token),
    }
}

fn phases(token: Seen) -> Production
    ensures { production_at (spec.productions Rule.Phases) (ahead.choice Rule.Phases token) ≡ Some result.now }
{
    match token.kind {
        Kind::Reserved(Reserved::Phase) => &[
            Symbol::Terminal(Terminal::Phase),
            Symbol::Rule(Rule::Lanes),
            Symbol::Rule(Rule::Phases),
        ],
        _ => &[],
    }
}

fn lanes(token: Seen) -> Production
    ensures { production_at (spec.productions Rule.Lanes) (ahead.choice Rule.Lanes token) ≡ Some result.now }
{
    match token.kind {
        Kind::Reserved(Reserved::Lane) => &[
            Symbol::Terminal(Terminal::Lane),
            Symbol::Rule(Rule::Operations),
            Symbol::Rule(Rule::Lanes),
        ],
        _ => &[],
    }
}

fn operations(token: Seen) -> Production
    ensures { production_at (spec.productions Rule.Operations) (ahead.choice Rule.Operations token) ≡ Some result.now }
{
    match token.kind {
        Kind::Reserved(Reserved::Set) => &[
            Symbol::Terminal(Terminal::Set),
            Symbol::Action(Action::BeginPath),
            Symbol::Rule(Rule::SetPath),
            Symbol::Terminal(Terminal::Assign),
            Symbol::Rule(Rule::Literal),
            Symbol::Action(Action::MakeSet),
            Symbol::Rule(Rule::Operations),
        ],
        Kind::Reserved(Reserved::Get) => &[
            Symbol::Terminal(Terminal::Get),
            Symbol::Action(Action::BeginPath),
            Symbol::Rule(Rule::GetPath),
            Symbol::Action(Action::MakeGet),
            Symbol::Rule(Rule::Operations),
        ],
        Kind::Reserved(Reserved::Pump) => &[
            Symbol::Terminal(Terminal::Pump),
            Symbol::Action(Action::MakePump),
            Symbol::Rule(Rule::Operations),
        ],
        Kind::Reserved(Reserved::Dispose) => &[
            Symbol::Terminal(Terminal::Dispose),
            Symbol::Action(Action::BeginPath),
            Symbol::Rule(Rule::AreaPath),
            Symbol::Action(Action::MakeDispose),
            Symbol::Rule(Rule::Operations),
        ],
        Kind::Reserved(Reserved::Insert) => &[
            Symbol::Terminal(Terminal::Insert),
            Symbol::Action(Action::BeginPath),
            Symbol::Rule(Rule::StorePath),
            Symbol::Rule(Rule::Key),
            Symbol::Terminal(Terminal::OpenBrace),
            Symbol::Action(Action::BeginEntries),
            Symbol::Rule(Rule::Fields),
            Symbol::Terminal(Terminal::CloseBrace),
            Symbol::Rule(Rule::InsertPlace),
            Symbol::Action(Action::MakeInsert),
            Symbol::Rule(Rule::Operations),
        ],
        Kind::Reserved(Reserved::Remove) => &[
            Symbol::Terminal(Terminal::Remove),
            Symbol::Action(Action::BeginPath),
            Symbol::Rule(Rule::StorePath),
            Symbol::Rule(Rule::Key),
            Symbol::Action(Action::MakeRemove),
            Symbol::Rule(Rule::Operations),
        ],
        Kind::Reserved(Reserved::Move) => &[
            Symbol::Terminal(Terminal::Move),
            Symbol::Action(Action::BeginPath),
            Symbol::Rule(Rule::StorePath),
            Symbol::Rule(Rule::Key),
            Symbol::Terminal(Terminal::To),
            Symbol::Terminal(Terminal::PlaceNumber),
            Symbol::Action(Action::MakeMove),
            Symbol::Rule(Rule::Operations),
        ],
        _ => &[],
    }
}

fn set_path_more(token: Seen) -> Production
    ensures { production_at (spec.productions Rule.SetPathMore) (ahead.choice Rule.SetPathMore token) ≡ Some result.now }
{
    match token.kind {
        Kind::Mark(Mark::Dot) => &[
            Symbol::Terminal(Terminal::Dot),
            Symbol::Terminal(Terminal::SetName),
            Symbol::Rule(Rule::SetPathMore),
        ],
        Kind::Mark(Mark::OpenBracket) => &[
            Symbol::Terminal(Terminal::OpenBracket),
            Symbol::Rule(Rule::Key),
            Symbol::Terminal(Terminal::CloseBracket),
            Symbol::Terminal(Terminal::Dot),
            Symbol::Terminal(Terminal::RowField),
        ],
        _ => &[],
    }
}

fn get_path_more(token: Seen) -> Production
    ensures { production_at (spec.productions Rule.GetPathMore) (ahead.choice Rule.GetPathMore token) ≡ Some result.now }
{
    match token.kind {
        Kind::Mark(Mark::Dot) => &[
            Symbol::Terminal(Terminal::Dot),
            Symbol::Terminal(Terminal::GetName),
            Symbol::Rule(Rule::GetPathMore),
        ],
        Kind::Mark(Mark::OpenBracket) => &[
            Symbol::Terminal(Terminal::OpenBracket),
            Symbol::Rule(Rule::Key),
            Symbol::Terminal(Terminal::CloseBracket),
            Symbol::Terminal(Terminal::Dot),
            Symbol::Terminal(Terminal::RowField),
        ],
        _ => &[],
    }
}

fn area_path_more(token: Seen) -> Production
    ensures { production_at (spec.productions Rule.AreaPathMore) (ahead.choice Rule.AreaPathMore token) ≡ Some result.now }
{
    match token.kind {
        Kind::Mark(Mark::Dot) => &[
            Symbol::Terminal(Terminal::Dot),
            Symbol::Terminal(Terminal::AreaName),
            Symbol::Rule(Rule::AreaPathMore),
        ],
        _ => &[],
    }
}

fn store_path_more(token: Seen) -> Production
    ensures { production_at (spec.productions Rule.StorePathMore) (ahead.choice Rule.StorePathMore token) ≡ Some result.now }
{
    match token.kind {
        Kind::Mark(Mark::Dot) => &[
            Symbol::Terminal(Terminal::Dot),
            Symbol::Terminal(Terminal::StoreName),
            Symbol::Rule(Rule::StorePathMore),
        ],
        _ => &[],
    }
}

fn key(token: Seen) -> Production
    ensures { production_at (spec.productions Rule.Key) (ahead.choice Rule.Key token) ≡ Some result.now }
{
    match token.kind {
        Kind::Text => &[Symbol::Terminal(Terminal::TextKey)],
        Kind::One | Kind::Number => &[Symbol::Terminal(Terminal::NumberKey)],
        _ => &[
            Symbol::Terminal(Terminal::KeyMinus),
            Symbol::Terminal(Terminal::NegatedKey),
        ],
    }
}

fn fields(token: Seen) -> Production
    ensures { production_at (spec.productions Rule.Fields) (ahead.choice Rule.Fields token) ≡ Some result.now }
{
    match token.kind {
        Kind::Name | Kind::VoidName => &[
            Symbol::Terminal(Terminal::InsertedField),
            Symbol::Terminal(Terminal::Assign),
            Symbol::Rule(Rule::Literal),
            Symbol::Action(Action::AddValue),
            Symbol::Rule(Rule::Fields),
        ],
        _ => &[],
    }
}

fn insert_place(token: Seen) -> Production
    ensures { production_at (spec.productions Rule.InsertPlace) (ahead.choice Rule.InsertPlace token) ≡ Some result.now }
{
    match token.kind {
        Kind::Reserved(Reserved::At) => &[
            Symbol::Terminal(Terminal::At),
            Symbol::Terminal(Terminal::PlaceNumber),
        ],
        _ => &[],
    }
}

fn literal(token: Seen) -> Production
    ensures { production_at (spec.productions Rule.Literal) (ahead.choice Rule.Literal token) ≡ Some result.now }
{
    match token.kind {
        Kind::Reserved(Reserved::Empty) => &[Symbol::Terminal(Terminal::EmptyLiteral)],
        Kind::Text => &[Symbol::Terminal(Terminal::TextLiteral)],
        Kind::One | Kind::Number => &[Symbol::Terminal(Terminal::NumberLiteral)],
        _ => &[
            Symbol::Terminal(Terminal::LiteralMinus),
            Symbol::Terminal(Terminal::NegatedLiteral),
        ],
    }
}
