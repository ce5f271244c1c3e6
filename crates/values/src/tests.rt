//! Worked rows, and each call once.

use crate::{Code, Expr, Kind, Numbers, Op, Reserved, Texts, Tried, attempt};
use indexmap::{IndexMap, IndexSet};
use sqlite_items::Boxed;
use std::alloc::{AllocError, Global};
use std::test::Fail;

fn read(alloc: Global, row: u32) -> Result<Boxed<Expr>, AllocError> {
    Boxed::new(alloc, Expr::Read(row))
}

fn literal(alloc: Global, code: Code) -> Result<Boxed<Expr>, AllocError> {
    Boxed::new(alloc, Expr::Lit(code))
}

#[test]
fn attempt_asks_for_the_taken_branch_alone(rt: HostRuntime) -> Result<(), Fail> {
    let alloc = rt.alloc();
    let choice = Expr::If(read(alloc, 0)?, read(alloc, 1)?, read(alloc, 2)?);
    let one = Code::Number(1);
    let text = Code::Word(5);
    assert_eq!(rt; attempt(&choice, &[]), Tried::Needs(0));
    assert_eq!(rt; attempt(&choice, &[(0, one)]), Tried::Needs(1));
    assert_eq!(rt; attempt(&choice, &[(0, Code::Empty)]), Tried::Needs(2));
    assert_eq!(rt; attempt(&choice, &[(0, one), (1, text)]), Tried::Done(text));
    Ok(())
}

#[test]
fn arithmetic_is_held_to_the_ends(rt: HostRuntime) -> Result<(), Fail> {
    let alloc = rt.alloc();
    let most = Code::Number(2147483647);
    let least = Code::Number(-2147483648);
    let rows = [
        (Op::Add, most, Code::Number(1), most),
        (Op::Add, Code::Number(-2), Code::Number(5), Code::Number(3)),
        (Op::Add, Code::Word(1), Code::Number(2), Code::Empty),
        (Op::Sub, least, Code::Number(1), least),
        (Op::Mul, Code::Number(65536), Code::Number(-32769), least),
        (Op::Mul, least, Code::Number(-1), most),
        (Op::Div, Code::Number(-7), Code::Number(2), Code::Number(-3)),
        (Op::Div, least, Code::Number(-1), most),
        (Op::Div, Code::Number(7), Code::Number(0), Code::Empty),
        (Op::Rem, Code::Number(-7), Code::Number(2), Code::Number(-1)),
        (Op::Rem, Code::Number(7), Code::Number(-2), Code::Number(1)),
        (Op::Rem, least, Code::Number(-1), Code::Number(0)),
        (Op::Equal, Code::Empty, Code::Empty, Code::Number(1)),
        (Op::Equal, Code::Number(0), Code::Word(0), Code::Number(0)),
        (Op::Less, least, most, Code::Number(1)),
        (Op::Less, Code::Word(1), Code::Number(2), Code::Empty),
    ];
    for (op, left, right, want) in rows {
        let expr = Expr::Binary(op, literal(alloc, left)?, literal(alloc, right)?);
        assert_eq!(rt; attempt(&expr, &[]), Tried::Done(want));
    }
    Ok(())
}

#[test]
fn values_pack_to_their_words(rt: HostRuntime) {
    let rows = [
        (Code::Empty, 0),
        (Code::Number(0), 1),
        (Code::Number(-1), 17179869181),
        (Code::Number(-2147483648), 8589934593),
        (Code::Word(5), 22),
    ];
    for (code, word) in rows {
        assert_eq!(rt; code.pack(), word);
        assert_eq!(rt; Code::unpack(word), Some(code));
    }
    for word in [3, 4, 17179869185] {
        assert_eq!(rt; Code::unpack(word), None);
    }
}

#[test]
fn a_text_is_held_once(rt: HostRuntime) -> Result<(), Fail> {
    let mut texts = Texts::new(rt.alloc())?;
    for (text, index) in [("", 0), ("on", 1), ("off", 2), ("on", 1)] {
        assert_eq!(rt; texts.add(text)?, index);
        assert_eq!(rt; texts.find(text), Some(index));
        assert_eq!(rt; texts.get(index), Some(text));
    }
    assert_eq!(rt; texts.len(), 3);
    assert_eq!(rt; texts.find("none"), None);
    assert_eq!(rt; texts.get(3), None);
    Ok(())
}

#[test]
fn a_sequence_grows_at_its_end(rt: HostRuntime) -> Result<(), Fail> {
    let mut numbers = Numbers::new(rt.alloc());
    assert!(rt; numbers.is_empty());
    numbers.push(7)?;
    numbers.push(9)?;
    assert_eq!(rt; numbers.len(), 2);
    assert_eq!(rt; numbers.at(1), Some(&9));
    assert_eq!(rt; numbers.at(2), None);
    let again = Numbers::from_vec(numbers.into_vec());
    assert_eq!(rt; again.as_slice(), [7, 9].as_slice());
    Ok(())
}

#[test]
fn a_copy_has_items_of_its_own(rt: HostRuntime) -> Result<(), Fail> {
    let mut numbers = Numbers::new(rt.alloc());
    numbers.push(7)?;
    numbers.push(9)?;
    let copied = numbers.copy(rt.alloc())?;
    assert_eq!(rt; numbers.len(), 2);
    numbers.set(1, 5);
    assert_eq!(rt; numbers.as_slice(), [7, 5].as_slice());
    numbers.clear();
    assert!(rt; numbers.is_empty());
    assert_eq!(rt; copied.as_slice(), [7, 9].as_slice());
    Ok(())
}

#[test]
fn a_reserved_list_grows_into_its_room(rt: HostRuntime) -> Result<(), Fail> {
    let mut list = Reserved::with_room(rt.alloc(), 2)?;
    assert!(rt; list.is_empty());
    assert_eq!(rt; list.spare(), 2);
    list.push(Code::Number(7));
    list.push(Code::Number(9));
    assert_eq!(rt; list.spare(), 0);
    assert_eq!(rt; list.at(1), Some(&Code::Number(9)));
    assert_eq!(rt; list.at(2), None);
    assert_eq!(rt; list.pop(), Some(Code::Number(9)));
    assert_eq!(rt; list.len(), 1);
    list.set(0, Code::Empty);
    assert_eq!(rt; list.as_slice(), [Code::Empty].as_slice());
    list.clear();
    assert_eq!(rt; list.spare(), 2);
    list.copy_from(&[Code::Word(1), Code::Word(2)]);
    let items = list.into_sequence();
    assert_eq!(rt; items.as_slice(), [Code::Word(1), Code::Word(2)].as_slice());
    Ok(())
}

#[test]
fn memos_and_effects_are_derived(rt: HostRuntime) {
    let rows = [
        (Kind::Signal, false),
        (Kind::Field, false),
        (Kind::Load, false),
        (Kind::Memo, true),
        (Kind::Effect, true),
    ];
    for (kind, derived) in rows {
        assert_eq!(rt; kind.is_derived(), derived);
    }
}

#[test]
fn values_are_the_keys_of_sets_and_maps(rt: HostRuntime) -> Result<(), Fail> {
    let mut keys = IndexSet::new(rt.alloc());
    let mut counts = IndexMap::new(rt.alloc());
    for (code, place) in [(Code::Number(1), 0), (Code::Word(1), 1), (Code::Empty, 2)] {
        assert!(rt; keys.insert(code)?);
        counts.insert(code, place)?;
    }
    assert!(rt; !keys.insert(Code::Word(1))?);
    assert_eq!(rt; keys.get_index_of(&Code::Empty), Some(2));
    assert_eq!(rt; counts.get(&Code::Word(1)), Some(&1));
    assert_eq!(rt; counts.get(&Code::Word(0)), None);
    Ok(())
}
