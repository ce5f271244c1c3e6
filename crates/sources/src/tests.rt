//! Worked rows, and each call once.

use crate::{BitRow, Body, Cause, Colour, Opened, Opening, Read};
use std::test::Fail;
use values::Code;

const READ: Read = Read {
    row: 2,
    version: 4,
    code: 21,
};

const LATER: Read = Read {
    row: 0,
    version: 9,
    code: 0,
};

#[test]
fn a_body_records_run_after_run(rt: HostRuntime) -> Result<(), Fail> {
    let mut body = Body::new(rt.alloc(), 2)?;
    assert_eq!(rt; body.cause, None);
    assert!(rt; body.reads.is_empty());
    assert!(rt; body.reads.spare() >= 2);
    body.begin(Cause::First);
    body.push(READ);
    body.push(LATER);
    assert_eq!(rt; body.reads.as_slice(), [READ, LATER].as_slice());
    assert_eq!(rt; body.cause, Some(Cause::First));
    let changed = Cause::Changed {
        source: 2,
        old: 4,
        new: 9,
    };
    body.begin(changed);
    assert_eq!(rt; body.reads.len(), 0);
    assert!(rt; body.reads.spare() >= 2);
    body.replace(changed, &[LATER]);
    assert_eq!(rt; body.reads.at(0), Some(&LATER));
    assert_eq!(rt; body.cause, Some(changed));
    assert_eq!(rt; body.room, 2);
    Ok(())
}

#[test]
fn an_opening_keeps_rows_owners_and_its_base(rt: HostRuntime) -> Result<(), Fail> {
    let mut opening = Opening::new(rt.alloc());
    assert_eq!(rt; opening.base(), 0);
    opening.push(Opened {
        code: Code::Number(5).pack(),
        version: 0,
        colour: Colour::Dirty,
        body: Body::new(rt.alloc(), 0)?,
    })?;
    opening.push_dead(3)?;
    opening.set_base(7);
    assert_eq!(rt; opening.base(), 7);
    assert_eq!(rt; opening.dead.as_slice(), [3].as_slice());
    assert_eq!(rt; opening.rows.len(), 1);
    let row = opening.rows.at(0).expect(&rt, "a row");
    assert_eq!(rt; Code::unpack(row.code), Some(Code::Number(5)));
    assert!(rt; !row.colour.is_clean());
    Ok(())
}

/// The members of the set, in order, by way of `next_after`.
fn has_members(rt: &impl std::process::Abort, set: &BitRow, members: &[u32]) {
    let mut last = None;
    for member in members {
        assert!(rt; set.has(*member));
        let next = set.next_after(last);
        assert_eq!(rt; next, Some(*member));
        last = next;
    }
    assert_eq!(rt; set.next_after(last), None);
}

#[test]
fn a_bit_row_is_a_set(rt: HostRuntime) -> Result<(), Fail> {
    let mut set = BitRow::new(rt.alloc(), 200)?;
    assert_eq!(rt; set.bits(), 200);
    assert_eq!(rt; set.words(), 4);
    has_members(&rt, &set, &[]);
    for (bit, is_new) in [
        (199, true),
        (0, true),
        (64, true),
        (63, true),
        (128, true),
        (64, false),
    ] {
        if bit < set.bits() {
            assert_eq!(rt; set.insert(bit), is_new);
        }
    }
    has_members(&rt, &set, &[0, 63, 64, 128, 199]);
    for bit in [1, 62, 65, 127, 198, 200, 4294967295] {
        assert!(rt; !set.has(bit));
    }
    assert_eq!(rt; set.next_after(Some(64)), Some(128));
    assert_eq!(rt; set.next_after(Some(100)), Some(128));
    assert_eq!(rt; set.next_after(Some(199)), None);
    assert_eq!(rt; set.next_after(Some(4294967295)), None);
    assert_eq!(rt; set.word(0), 0x8000_0000_0000_0001);
    assert_eq!(rt; set.word(3), 128);
    assert_eq!(rt; set.word(4), 0);
    set.clear();
    has_members(&rt, &set, &[]);
    Ok(())
}

#[test]
fn a_word_of_members_is_added_at_once(rt: HostRuntime) -> Result<(), Fail> {
    let mut set = BitRow::new(rt.alloc(), 128)?;
    assert!(rt; set.insert(64));
    set.add_word(1, 0x8000_0000_0000_0002);
    set.add_word(0, 0);
    has_members(&rt, &set, &[64, 65, 127]);
    let none = BitRow::new(rt.alloc(), 0)?;
    assert_eq!(rt; none.words(), 0);
    assert_eq!(rt; none.next_after(None), None);
    Ok(())
}
