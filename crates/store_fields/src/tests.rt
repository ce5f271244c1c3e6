//! Worked stores, and each call once.
ghost use Rattle.std.specs.Prelude.{◌≡◌, IfOk, length};

use crate::{Edit, EditOp, Row, Rows, Verdict};
use std::alloc::Global;
use std::process::Abort;
use std::test::Fail;
use values::{Code, Codes, NoMemory};

/// The end of a store's rows.
const END: u32 = u32::MAX;

/// An edit of a store of one field, whose keys and fields are numbers.
#[derive(Clone, Copy)]
enum Worked {
    /// An insert of this key and field at the end.
    Insert(i32, i32),
    /// A row of this key, without a field.
    InsertBare(i32),
    Remove(i32),
    /// A move of this key to this place.
    Move(i32, u32),
}

fn row_of(alloc: Global, key: i32, field: i32) -> Result<Row, NoMemory>
    ensures { IfOk result (λ row. length row.fields ≡ 1) }
{
    let mut fields = Codes::new(alloc);
    fields.push(Code::Number(field))?;
    Ok(Row {
        key: Code::Number(key),
        fields,
    })
}

fn insert_of(alloc: Global, key: i32, field: i32) -> Result<EditOp, NoMemory> {
    let Row { key, fields } = row_of(alloc, key, field)?;
    Ok(EditOp::Insert {
        key,
        fields,
        place: END,
    })
}

fn op_of(alloc: Global, worked: &Worked) -> Result<EditOp, NoMemory> {
    match worked {
        Worked::Insert(key, field) => insert_of(alloc, *key, *field),
        Worked::InsertBare(key) => Ok(EditOp::Insert {
            key: Code::Number(*key),
            fields: Codes::new(alloc),
            place: 0,
        }),
        Worked::Remove(key) => Ok(EditOp::Remove {
            key: Code::Number(*key),
        }),
        Worked::Move(key, place) => Ok(EditOp::Move {
            key: Code::Number(*key),
            place: *place,
        }),
    }
}

fn ops_of(alloc: Global, worked: &[Worked]) -> Result<Vec<EditOp>, NoMemory> {
    let mut ops = Vec::new(alloc);
    for one in worked {
        ops.push(op_of(alloc, one)?)?;
    }
    Ok(ops)
}

/// Whether the row has this key and field, and is found at this place.
fn stands(rows: &Rows, place: u32, key: i32, field: i32) -> bool {
    let fields = [Code::Number(field)];
    match rows.row(place) {
        Some(row) => {
            row.key == Code::Number(key)
                && row.fields.as_slice() == fields.as_slice()
                && rows.find(row.key) == Some(place)
        }
        None => false,
    }
}

/// Whether these are the rows' keys and fields, in order.
fn holds(rows: &Rows, wanted: &[(i32, i32)]) -> bool {
    let mut place = 0u32;
    for (key, field) in wanted {
        if !stands(rows, place, *key, *field) {
            return false;
        }
        place = place.saturating_add(1);
    }
    rows.count() == place && rows.row(place).is_none()
}

#[test]
fn edits_are_made_in_order_and_each_has_its_verdict(rt: HostRuntime) -> Result<(), Fail> {
    use Verdict::{Absent, AtMax, Done, Present};
    use Worked::{Insert, InsertBare, Move, Remove};
    let turned = [
        Insert(1, 10),
        Insert(2, 20),
        Insert(3, 30),
        Move(3, 0),
        Remove(1),
    ];
    let refused = [
        Insert(1, 5),
        Insert(1, 6),
        Insert(2, 7),
        InsertBare(2),
        Move(2, 0),
        Remove(1),
        Insert(2, 7),
    ];
    let table: [(u32, &[Worked], &[Verdict], &[(i32, i32)]); 2] = [
        (
            4,
            &turned,
            &[Done, Done, Done, Done, Done],
            &[(3, 30), (2, 20)],
        ),
        (
            1,
            &refused,
            &[Done, Present, AtMax, Absent, Absent, Done, Done],
            &[(2, 7)],
        ),
    ];
    for (max, worked, verdicts, wanted) in table {
        let mut rows = Rows::new(rt.alloc(), max, 1)?;
        let ops = ops_of(rt.alloc(), worked)?;
        let told = rows.fold(rt.alloc(), ops.as_slice())?;
        assert_eq!(rt; told.as_slice(), verdicts);
        assert!(rt; holds(&rows, wanted));
    }
    Ok(())
}

/// Rows 1 and 2 of at most 3, with the fields 10 and 20.
fn small_store(alloc: Global) -> Result<Rows, NoMemory>
    ensures { IfOk result (λ rows. rows.width ≡ 1) }
{
    let mut rows = Rows::new(alloc, 3, 1)?;
    rows.insert(row_of(alloc, 2, 20)?, 0)?;
    rows.insert(row_of(alloc, 1, 10)?, 0)?;
    Ok(rows)
}

#[test]
fn rows_change_one_by_one(rt: HostRuntime) -> Result<(), Fail> {
    let mut rows = small_store(rt.alloc())?;
    let there = Code::Number(1);
    let absent = Code::Number(3);
    assert_eq!(rt; rows.set_field(there, 0, absent), Verdict::Done);
    assert_eq!(rt; rows.set_field(absent, 0, there), Verdict::Absent);
    assert_eq!(rt; rows.place(there, END), Verdict::Done);
    assert_eq!(rt; rows.place(absent, 0), Verdict::Absent);
    assert!(rt; holds(&rows, &[(2, 20), (1, 3)]));
    assert_eq!(rt; rows.remove(absent), Verdict::Absent);
    assert_eq!(rt; rows.remove(there), Verdict::Done);
    assert!(rt; holds(&rows, &[(2, 20)]));
    Ok(())
}

#[test]
fn copies_stay_as_they_are(rt: HostRuntime) -> Result<(), Fail> {
    let mut rows = small_store(rt.alloc())?;
    let copied = rows.copy(rt.alloc())?;
    let edit = Edit {
        store: 0,
        op: insert_of(rt.alloc(), 3, 30)?,
    };
    assert_eq!(rt; rows.edit(edit.copy(rt.alloc())?.op)?, Verdict::Done);
    assert!(rt; holds(&rows, &[(1, 10), (2, 20), (3, 30)]));
    assert!(rt; holds(&copied, &[(1, 10), (2, 20)]));
    Ok(())
}

/// A full store, as large as a store may be.
fn full_store(alloc: Global) -> Result<Rows, NoMemory> {
    let mut rows = Rows::new(alloc, 4096, 1)?;
    for key in 0..4096 {
        rows.edit(insert_of(alloc, key, key)?)?;
    }
    Ok(rows)
}

/// Moves each row, in order of key, to a place.
fn move_all(rt: &impl Abort, rows: &mut Rows, place: u32) {
    for key in 0..4096 {
        assert_eq!(rt; rows.place(Code::Number(key), place), Verdict::Done);
    }
}

#[test]
fn a_full_store_is_turned_by_moves_over_its_whole_range(rt: HostRuntime) -> Result<(), Fail> {
    let mut rows = full_store(rt.alloc())?;
    assert_eq!(rt; rows.edit(insert_of(rt.alloc(), 4096, 0)?)?, Verdict::AtMax);
    move_all(&rt, &mut rows, 0);
    assert!(rt; stands(&rows, 4095, 0, 0) && stands(&rows, 0, 4095, 4095));
    move_all(&rt, &mut rows, END);
    assert!(rt; stands(&rows, 0, 0, 0) && stands(&rows, 4095, 4095, 4095));
    assert_eq!(rt; rows.count(), 4096);
    Ok(())
}
