//! Worked reports, with ample memory.
ghost use Rattle.std.specs.Prelude.{◌≡◌, ◌∷◌, [], IfOk};
ghost use Rattle.report_text.specs.Worked.{two_loads};

use crate::{put_code, put_phase, put_waiting};
use component_items::{Component, Item, Items};
use run_items::{Answer, Reply};
use std::alloc::Global;
use std::test::Fail;
use store_fields::Verdict;
use values::{
    Code, Codes, Disposal, Expr, Fact, NoMemory, Noted, Numbers, PlanOwner, Pumped, Texts,
};

fn texts_of(alloc: Global, more: &[&str]) -> Result<Texts, Fail> {
    let mut texts = Texts::new(alloc)?;
    for text in more {
        texts.add(text)?;
    }
    Ok(texts)
}

/// An answer to an operation of the only lane.
fn answer(op: u32, reply: Reply) -> Answer {
    Answer {
        phase: 1,
        lane: 1,
        op,
        reply,
    }
}

fn noted(number: u32, fact: Fact) -> Noted {
    Noted { number, fact }
}

fn pumped(ran: u32, same: u32) -> Reply {
    Reply::Pumped(Pumped {
        ran,
        same,
        gone: 0,
        left: 0,
        first_left: None,
    })
}

fn disposal(now: u32, before: u32) -> Reply {
    Reply::Disposal(Disposal { now, before })
}

fn number(number: i32) -> Code {
    Code::Number(number)
}

/// The top, and an area with a cleanup.
fn owners(alloc: Global, cleanup: u32) -> Result<[PlanOwner; 2], NoMemory> {
    let mut cleanups = Numbers::new(alloc);
    cleanups.push(cleanup)?;
    let top = PlanOwner {
        parent: None,
        cleanups: Numbers::new(alloc),
    };
    let area = PlanOwner {
        parent: Some(0),
        cleanups,
    };
    Ok([top, area])
}

/// A diamond of memos, each of which runs once.
#[test]
fn a_get_and_the_changes_that_it_made(rt: HostRuntime) -> Result<(), Fail> {
    let texts = texts_of(rt.alloc(), &[])?;
    let answers = [
        answer(1, Reply::Set(1)),
        answer(2, Reply::Got(number(23), 4)),
    ];
    let entries = [
        noted(
            1,
            Fact::Write {
                row: 0,
                code: number(10),
            },
        ),
        noted(
            2,
            Fact::Change {
                row: 1,
                code: number(11),
            },
        ),
        noted(
            3,
            Fact::Change {
                row: 2,
                code: number(12),
            },
        ),
        noted(
            4,
            Fact::Change {
                row: 3,
                code: number(23),
            },
        ),
    ];
    let mut out = Vec::new(rt.alloc());
    put_phase(&mut out, &texts, 1, &answers, &[], &entries)?;
    let lines =
        "1.1.1 set 1\n1.1.2 get 23 at 4\njournal 1.1 write 0 10\njournal 1.2 change 1 11\njournal 1.3 change 2 12\njournal 1.4 change 3 23\n";
    assert_eq!(rt; out.as_slice(), lines.as_bytes());
    Ok(())
}

/// A store of one row at most.
#[test]
fn edits_and_what_came_of_them(rt: HostRuntime) -> Result<(), Fail> {
    let texts = texts_of(rt.alloc(), &[])?;
    let answers = [
        answer(1, Reply::Edited(1, Verdict::Done)),
        answer(2, Reply::Edited(2, Verdict::Present)),
        answer(3, Reply::Edited(3, Verdict::AtMax)),
    ];
    let entries = [
        noted(1, Fact::Edit { pass: 1, index: 0 }),
        noted(2, Fact::Edit { pass: 1, index: 1 }),
        noted(3, Fact::Edit { pass: 1, index: 2 }),
    ];
    let mut out = Vec::new(rt.alloc());
    put_phase(&mut out, &texts, 1, &answers, &[], &entries)?;
    let lines =
        "1.1.1 edit 1 done\n1.1.2 edit 2 present\n1.1.3 edit 3 max\njournal 1.1 edit 1 0\njournal 1.2 edit 1 1\njournal 1.3 edit 1 2\n";
    assert_eq!(rt; out.as_slice(), lines.as_bytes());
    Ok(())
}

/// An area with a cleanup.
#[test]
fn a_disposal_and_the_cleanup_behind_it(rt: HostRuntime) -> Result<(), Fail> {
    let mut texts = texts_of(rt.alloc(), &["side", "x"])?;
    let bye = texts.add("bye")?;
    let owners = owners(rt.alloc(), bye)?;
    let answers = [
        answer(1, disposal(1, 0)),
        answer(2, disposal(0, 1)),
        answer(3, Reply::Disposed(1)),
    ];
    let entries = [noted(1, Fact::Disposed { owner: 1 })];
    let mut out = Vec::new(rt.alloc());
    put_phase(&mut out, &texts, 1, &answers, &owners, &entries)?;
    let lines =
        "1.1.1 dispose now 1 before 0\n1.1.2 dispose now 0 before 1\n1.1.3 disposed 1\njournal 1.1 disposed 1\ncleanup \"bye\"\n";
    assert_eq!(rt; out.as_slice(), lines.as_bytes());
    Ok(())
}

/// An effect that is pumped three times.
#[test]
fn pumps_and_the_runs_of_an_effect(rt: HostRuntime) -> Result<(), Fail> {
    let texts = texts_of(rt.alloc(), &[])?;
    let answers = [
        answer(1, pumped(1, 0)),
        answer(2, Reply::Set(2)),
        answer(3, pumped(1, 0)),
        answer(4, pumped(0, 1)),
    ];
    let entries = [
        noted(
            1,
            Fact::Ran {
                row: 1,
                code: number(10),
            },
        ),
        noted(
            2,
            Fact::Write {
                row: 0,
                code: number(2),
            },
        ),
        noted(
            3,
            Fact::Ran {
                row: 1,
                code: number(20),
            },
        ),
    ];
    let mut out = Vec::new(rt.alloc());
    put_phase(&mut out, &texts, 1, &answers, &[], &entries)?;
    let lines =
        "1.1.1 pump ran 1 same 0 gone 0 left 0\n1.1.2 set 2\n1.1.3 pump ran 1 same 0 gone 0 left 0\n1.1.4 pump ran 0 same 1 gone 0 left 0\njournal 1.1 ran 1 10\njournal 1.2 write 0 2\njournal 1.3 ran 1 20\n";
    assert_eq!(rt; out.as_slice(), lines.as_bytes());
    Ok(())
}

#[test]
fn values_have_their_texts(rt: HostRuntime) -> Result<(), Fail> {
    let mut texts = texts_of(rt.alloc(), &[])?;
    let escaped = texts.add("a\"b\\c\nd\te<ä")?;
    let marks = texts.add("\"\"")?;
    let rows = [
        (Code::Empty, "empty"),
        (number(0), "0"),
        (number(i32::MAX), "2147483647"),
        (number(i32::MIN), "-2147483648"),
        (Code::Word(0), "\"\""),
        (Code::Word(escaped), "\"a\\\"b\\\\c\\nd\\te<ä\""),
        (Code::Word(marks), "\"\\\"\\\"\""),
    ];
    for (code, text) in rows {
        let mut out = Vec::new(rt.alloc());
        put_code(&mut out, &texts, code)?;
        assert_eq!(rt; out.as_slice(), text.as_bytes());
    }
    Ok(())
}

fn load(id: u32, name: u32) -> Item
    ensures { result ≡ Item.Load id name 0 (Expr.Read 1) }
{
    Item::Load {
        id,
        name,
        resource: 0,
        key: Expr::Read(1),
    }
}

/// A load at the top, and one in an area.
fn loads(alloc: Global) -> Result<Items, NoMemory>
    ensures { IfOk result (λ items. items ≡ two_loads) }
{
    let mut inner = Items::new(alloc);
    inner.push(load(5, 5))?;
    let mut items = Items::new(alloc);
    items.push(Item::Resource {
        id: 0,
        name: 1,
        after: 0,
        keys: Codes::new(alloc),
        values: Codes::new(alloc),
    })?;
    items.push(Item::Signal {
        id: 1,
        name: 2,
        start: Code::Empty,
    })?;
    items.push(load(2, 3))?;
    items.push(Item::Area {
        id: 4,
        name: 4,
        owner: 1,
        items: inner,
    })?;
    Ok(items)
}

/// The component of these, which has all its texts.
fn component(alloc: Global) -> Result<Option<Component>, Fail> {
    let items = loads(alloc)?;
    let texts = texts_of(alloc, &["user", "id", "who", "side", "mail"])?;
    if texts.len() != 6 {
        return Ok(None);
    }
    Ok(Some(Component::new(texts, items)))
}

#[test]
fn a_line_for_each_load(rt: HostRuntime) -> Result<(), Fail> {
    let alloc = rt.alloc();
    let component = component(alloc)?.expect(&rt, "all six texts");
    let rows: [(&[u32], &str); 4] = [
        (&[], ""),
        (&[2, 5], "waiting who\nwaiting side.mail\n"),
        (&[5], "waiting side.mail\n"),
        (&[5, 2, 9], "waiting side.mail\nwaiting who\nwaiting \n"),
    ];
    for (loads, lines) in rows {
        let mut out = Vec::new(alloc);
        put_waiting(&mut out, &component, loads)?;
        assert_eq!(rt; out.as_slice(), lines.as_bytes());
    }
    Ok(())
}
