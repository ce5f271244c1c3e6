//! Worked rows.

use crate::component::{self, Rule as CR, Terminal as C};
use crate::script::{self, Rule as SR, Terminal as S};
use crate::{Kind, Seen, kind_of};
use grammar::Symbol::{Action, Rule, Terminal};
use std::process::Abort;
use std::test::Fail;
use text_lexer::{Lexer, Mark, Reserved};

#[test]
fn tokens_of_a_component_stand_for_its_terminals(rt: HostRuntime) -> Result<(), Fail> {
    let mut lexer = Lexer::new("component 1 <br-7 area/> <br> m - 12 $", 1);
    for terminal in [
        C::Component,
        C::Version,
        C::Less,
        C::VoidTag,
        C::Dash,
        C::OpenTagPart,
        C::AttributeName,
        C::VoidSlash,
        C::Greater,
        C::Less,
        C::VoidTag,
        C::Greater,
        C::UsedName,
        C::Minus,
        C::NumberLiteral,
    ] {
        let token = lexer.next()?;
        let seen = kind_of(&lexer, Ok(token));
        assert!(rt; component::matches(terminal, seen), "{terminal:?} {seen:?}");
        assert!(rt; !component::matches(C::End, seen), "{seen:?}");
    }
    let bad = lexer.next();
    let seen = kind_of(&lexer, bad);
    assert!(rt;
        bad.is_err() && !component::matches(C::UsedName, seen),
        "{seen:?}"
    );
    Ok(())
}

#[test]
fn tokens_of_a_script_stand_for_its_terminals(rt: HostRuntime) -> Result<(), Fail> {
    let mut lexer = Lexer::new("phase lane get br[1].f", 1);
    for terminal in [
        S::Phase,
        S::Lane,
        S::Get,
        S::GetName,
        S::OpenBracket,
        S::NumberKey,
        S::CloseBracket,
        S::Dot,
        S::RowField,
        S::End,
    ] {
        let token = lexer.next()?;
        let seen = kind_of(&lexer, Ok(token));
        assert!(rt; script::matches(terminal, seen), "{terminal:?} {seen:?}");
        assert!(rt; !script::matches(S::To, seen), "{seen:?}");
    }
    Ok(())
}

fn apart(kind: Kind) -> Seen {
    Seen {
        kind,
        touches: false,
    }
}

fn touching(kind: Kind) -> Seen {
    Seen {
        kind,
        touches: true,
    }
}

fn word(word: Reserved) -> Seen {
    apart(Kind::Reserved(word))
}

fn mark(mark: Mark) -> Seen {
    apart(Kind::Mark(mark))
}

// The productions below have their terminals and rules as docs/LANGUAGE.md has them, and a place for each action.
#[test]
fn an_item_is_chosen_by_its_first_token(rt: HostRuntime) {
    let signal = component::production(CR::Items, word(Reserved::Signal));
    assert!(rt;
        matches!(
            signal,
            [
                Terminal(C::Signal),
                Terminal(C::NewName),
                Terminal(C::Assign),
                Action(_),
                Rule(CR::Literal),
                Action(_),
                Rule(CR::Items)
            ]
        ),
        "{signal:?}"
    );
    for token in [
        mark(Mark::CloseBrace),
        mark(Mark::ClosingTag),
        apart(Kind::End),
    ] {
        assert_eq!(rt;
            component::production(CR::Items, token).len(),
            0,
            "{token:?}"
        );
    }
}

#[test]
fn a_void_tag_goes_on_where_a_dash_touches_it(rt: HostRuntime) {
    let dash = component::production(CR::VoidTagMore, touching(Kind::Mark(Mark::Minus)));
    assert!(rt;
        matches!(
            dash,
            [
                Terminal(C::Dash),
                Terminal(C::OpenTagPart),
                Rule(CR::OpenTagMore),
                Action(_),
                Rule(CR::ElementRest)
            ]
        ),
        "{dash:?}"
    );
    let void = component::production(CR::VoidTagMore, mark(Mark::Minus));
    assert!(rt;
        matches!(
            void,
            [
                Action(_),
                Rule(CR::Attributes),
                Rule(CR::VoidEnd),
                Action(_)
            ]
        ),
        "{void:?}"
    );
}

#[test]
fn a_minus_makes_a_key_negative(rt: HostRuntime) {
    let key = component::production(CR::Key, mark(Mark::Minus));
    assert!(rt;
        matches!(key, [Terminal(C::KeyMinus), Terminal(C::NegatedKey)]),
        "{key:?}"
    );
}

#[test]
fn an_operand_is_found_in_one_step(rt: HostRuntime) {
    let name = component::expansion(CR::Term, apart(Kind::Name));
    assert!(rt;
        matches!(name, [Terminal(C::UsedName), Rule(CR::TermMore)]),
        "{name:?}"
    );
    let number = component::expansion(CR::Atom, apart(Kind::Number));
    assert!(rt;
        matches!(number, [Terminal(C::NumberLiteral), Action(_)]),
        "{number:?}"
    );
    let group = component::expansion(CR::Expression, mark(Mark::OpenParen));
    assert!(rt;
        matches!(
            group,
            [
                Terminal(C::OpenParen),
                Rule(CR::Expression),
                Terminal(C::CloseParen),
                Rule(CR::TermMore),
                Rule(CR::SumMore),
                Rule(CR::TestMore)
            ]
        ),
        "{group:?}"
    );
}

#[test]
fn an_element_that_is_open_at_the_end_has_a_closer(rt: HostRuntime) {
    let unclosed = component::production(CR::ElementEnd, apart(Kind::End));
    assert!(rt; matches!(unclosed, [Terminal(C::Closer)]), "{unclosed:?}");
}

#[test]
fn an_operation_is_chosen_by_its_first_word(rt: HostRuntime) {
    let moving = script::production(SR::Operations, word(Reserved::Move));
    assert!(rt;
        matches!(
            moving,
            [
                Terminal(S::Move),
                Action(_),
                Rule(SR::StorePath),
                Rule(SR::Key),
                Terminal(S::To),
                Terminal(S::PlaceNumber),
                Action(_),
                Rule(SR::Operations)
            ]
        ),
        "{moving:?}"
    );
    for token in [
        word(Reserved::Lane),
        word(Reserved::Phase),
        apart(Kind::End),
    ] {
        assert_eq!(rt;
            script::production(SR::Operations, token).len(),
            0,
            "{token:?}"
        );
    }
}

#[test]
fn a_path_ends_with_the_field_of_a_row(rt: HostRuntime) {
    let row = script::production(SR::SetPathMore, mark(Mark::OpenBracket));
    assert!(rt;
        matches!(
            row,
            [
                Terminal(S::OpenBracket),
                Rule(SR::Key),
                Terminal(S::CloseBracket),
                Terminal(S::Dot),
                Terminal(S::RowField)
            ]
        ),
        "{row:?}"
    );
}
