//! Texts that are refused, each with its reason and place, and texts that are read.

use crate::read_component;
use component_items::{Count, Item, Place, Refusal, Why};
use std::alloc::{AllocError, Global};
use std::process::Abort;
use std::test::Fail;
use values::{Code, Expr};

/// Why the text is refused and where, or `None` where it is the text of a component.
fn refusal_of(rt: &impl Abort, alloc: Global, text: &[u8]) -> Option<Refusal> {
    assert!(rt; text.len() < 2000000);
    read_component(alloc, text).err()
}

fn refused(why: Why, line: u32, column: u32) -> Option<Refusal> {
    Some(Refusal::Bad(why, Place { line, column }))
}

/// The text with as many copies of `one` behind it.
fn followed(alloc: Global, text: &str, one: &str, count: usize) -> Result<String, AllocError> {
    let mut whole = String::from_str(alloc, text)?;
    for _ in 0..count {
        whole.push_str(one)?;
    }
    Ok(whole)
}

/// A component with so many areas, each on a line of its own.
fn areas(alloc: Global, count: usize) -> Result<String, AllocError> {
    let mut whole = String::from_str(alloc, "component 1\n")?;
    for number in 0..count {
        let area = format!(in alloc; "area a{number} {{ }}\n")?;
        whole.push_str(area.as_str())?;
    }
    Ok(whole)
}

#[test]
fn bad_texts_are_refused(rt: HostRuntime) -> Result<(), Fail> {
    for (text, why, line, column) in [
        ("", Why::Unexpected, 1, 1),
        ("component 9", Why::Unexpected, 1, 11),
        ("component 1\nsignal a = 01", Why::BadToken, 2, 12),
        ("component 1\n\"abc", Why::BadToken, 2, 1),
        (
            "component 1\nsignal a = 2147483648",
            Why::NumberRange,
            2,
            12,
        ),
        (
            "component 1\nsignal a = -2147483649",
            Why::NumberRange,
            2,
            13,
        ),
        (
            "component 1\nsignal a = 1\nsignal a = 2",
            Why::NameTaken,
            3,
            8,
        ),
        ("component 1\n<p>signal a = 1</p>", Why::WrongPlace, 2, 4),
        (
            "component 1\n<p a=\"x\" a=\"y\"></p>",
            Why::NameTaken,
            2,
            10,
        ),
        (
            "component 1\nresource r after 0 { 1 => 2 1 => 3 }",
            Why::NameTaken,
            2,
            29,
        ),
        (
            "component 1\nresource r after 0 { 0 => 2 -0 => 3 }",
            Why::NameTaken,
            2,
            29,
        ),
        ("component 1\n<script></script>", Why::WrongPlace, 2, 2),
        ("component 1\n<x-2147483648-$", Why::NumberRange, 2, 4),
        (
            "component 1\nstore s max 4097 { f = 0 }",
            Why::TooLarge(Count::StoreRows),
            2,
            13,
        ),
        (
            "component 1\nstore s max 4096 { f = 0 }\nsignal a = 1",
            Why::TooLarge(Count::Nodes),
            3,
            13,
        ),
        ("component 1\n<p>", Why::UnclosedTag, 2, 4),
        ("component 1\n<p><br></br></p>", Why::UnclosedTag, 2, 10),
        ("component 1\n</br>", Why::Unexpected, 2, 1),
        (
            "component 1\narea a { signal x = 1 } {x}",
            Why::UnknownName,
            2,
            26,
        ),
        ("component 1\n{row.f}", Why::WrongPlace, 2, 2),
    ] {
        assert_eq!(rt;
            refusal_of(&rt, rt.alloc(), text.as_bytes()),
            refused(why, line, column),
            "{text}"
        );
    }
    assert_eq!(rt;
        refusal_of(&rt, rt.alloc(), b"component 1\n\"\xff"),
        refused(Why::BadUtf8, 2, 2)
    );
    Ok(())
}

#[test]
fn texts_that_are_too_large_are_refused(rt: HostRuntime) -> Result<(), Fail> {
    let alloc = rt.alloc();
    let deep = followed(alloc, "component 1\n", "<p>", 33)?;
    assert_eq!(rt;
        refusal_of(&rt, alloc, deep.as_bytes()),
        refused(Why::TooDeep, 2, 97)
    );
    let many = areas(alloc, 1024)?;
    assert_eq!(rt;
        refusal_of(&rt, alloc, many.as_bytes()),
        refused(Why::TooLarge(Count::Owners), 1025, 6)
    );
    let most = areas(alloc, 1023)?;
    assert_eq!(rt; refusal_of(&rt, alloc, most.as_bytes()), None);
    let blank = followed(alloc, "component 1", " ", 1048565)?;
    assert_eq!(rt; refusal_of(&rt, alloc, blank.as_bytes()), None);
    Ok(())
}

#[test]
fn a_text_is_read(rt: HostRuntime) -> Result<(), Fail> {
    let text = b"component 1\nsignal a = 2\n<p title=\"a \\\"b\\\"\">{a}</p>";
    let component = read_component(rt.alloc(), text).map_err(|_| "refused")?;
    assert_eq!(rt; component.texts().len(), 5);
    assert_eq!(rt; component.texts().get(0), Some(""));
    assert_eq!(rt; component.texts().get(1), Some("a"));
    assert_eq!(rt; component.texts().get(2), Some("p"));
    assert_eq!(rt; component.texts().get(3), Some("title"));
    assert_eq!(rt; component.texts().get(4), Some("a \"b\""));
    let items = component.items();
    assert_eq!(rt; items.len(), 2);
    match &items[0] {
        Item::Signal { id, name, start } => {
            assert_eq!(rt; (*id, *name, *start), (0, 1, Code::Number(2)));
        }
        _ => panic!(rt; "no signal"),
    }
    match &items[1] {
        Item::Element {
            tag,
            closed,
            attrs,
            items,
        } => {
            assert_eq!(rt; (*tag, *closed, attrs.len()), (2, true, 1));
            assert_eq!(rt; items.as_slice().len(), 1);
            match &items.as_slice()[0] {
                Item::Shown {
                    id,
                    expr: Expr::Read(read),
                } => assert_eq!(rt; (*id, *read), (1, 0)),
                _ => panic!(rt; "no value"),
            }
        }
        _ => panic!(rt; "no element"),
    }
    Ok(())
}
