//! Worked rows: calls one after another, and what each tells.
ghost use Rattle.std.specs.Prelude.{◌≡◌, ◌<◌, ◌^◌, IfOk};
ghost use Rattle.still_rows.specs.Clock.{IsClock};
ghost use Rattle.still_rows.specs.Works.{IsStill, IsWorkOf};

use crate::{Clock, Full, PHASE_ROOM, Work, fresh_rows, get, is_lawful, set, settle_memos};
use sources::Opened;
use sqlite_items::Boxed;
use std::alloc::{AllocError, Global};
use std::test::Fail;
use still_readers::Readers;
use values::{Code, Expr, Kind, NoMemory, Op, PlanNode, Reserved};

#[derive(Clone, Copy)]
enum Step {
    Set(u32, Code),
    Get(u32),
    Settle,
}

#[derive(Clone, Copy, Debug, PartialEq, Eq)]
enum Told {
    Written(u32),
    Value(Code, u32),
    Settled,
    Full,
    NoRow,
}

fn write(
    nodes: &[PlanNode],
    rows: &mut [Opened],
    readers: &Readers,
    clock: &mut Clock,
    work: &mut Work,
    signal: u32,
    code: Code,
) -> Told
    requires still { IsStill nodes.now rows.old readers.now clock.old }
    requires work { IsWorkOf nodes.now work.old }
    ensures still { IsStill nodes.now rows.new readers.now clock.new }
    ensures work { IsWorkOf nodes.now work.new }
{
    let Some(node) = nodes.get(signal as usize) else {
        return Told::NoRow;
    };
    if node.kind.is_derived() {
        return Told::NoRow;
    }
    match set(nodes, rows, readers, clock, work, signal, code) {
        Ok(number) => Told::Written(number),
        Err(Full) => Told::Full,
    }
}

fn ask(
    nodes: &[PlanNode],
    rows: &mut [Opened],
    readers: &mut Readers,
    clock: &mut Clock,
    work: &mut Work,
    row: u32,
) -> Told
    requires still { IsStill nodes.now rows.old readers.old clock.old }
    requires work { IsWorkOf nodes.now work.old }
    ensures still { IsStill nodes.now rows.new readers.new clock.new }
    ensures work { IsWorkOf nodes.now work.new }
{
    let Some(node) = nodes.get(row as usize) else {
        return Told::NoRow;
    };
    if node.kind == Kind::Effect {
        return Told::NoRow;
    }
    match get(nodes, rows, readers, clock, work, row) {
        Ok((code, number)) => Told::Value(code, number),
        Err(Full) => Told::Full,
    }
}

fn tell(
    nodes: &[PlanNode],
    rows: &mut [Opened],
    readers: &mut Readers,
    clock: &mut Clock,
    work: &mut Work,
    step: Step,
) -> Told
    requires still { IsStill nodes.now rows.old readers.old clock.old }
    requires work { IsWorkOf nodes.now work.old }
    ensures still { IsStill nodes.now rows.new readers.new clock.new }
    ensures work { IsWorkOf nodes.now work.new }
{
    match step {
        Step::Set(signal, code) => write(nodes, rows, readers, clock, work, signal, code),
        Step::Get(row) => ask(nodes, rows, readers, clock, work, row),
        Step::Settle => match settle_memos(nodes, rows, readers, clock, work) {
            Ok(()) => Told::Settled,
            Err(Full) => Told::Full,
        },
    }
}

/// The place of the first step that tells otherwise, or how many there are.
fn play(
    nodes: &[PlanNode],
    rows: &mut [Opened],
    readers: &mut Readers,
    clock: &mut Clock,
    work: &mut Work,
    steps: &[(Step, Told)],
) -> usize
    requires still { IsStill nodes.now rows.old readers.old clock.old }
    requires work { IsWorkOf nodes.now work.old }
{
    for (at, (step, told)) in steps.iter().enumerate() {
        if tell(nodes, rows, readers, clock, work, *step) != *told {
            return at;
        }
    }
    steps.len()
}

/// A phase where no number was drawn, or between phases so many.
fn clock_at(alloc: Global, drawn: u32) -> Result<Clock, NoMemory>
    requires { drawn < 2 ^ 31 }
    ensures { IfOk result (λ clock. IsClock clock) }
{
    let entries = Reserved::with_room(alloc, PHASE_ROOM)?;
    Ok(Clock {
        base: 7,
        drawn,
        in_phase: drawn == 0,
        entries,
    })
}

fn played(
    alloc: Global,
    nodes: &[PlanNode],
    drawn: u32,
    steps: &[(Step, Told)],
) -> Result<usize, NoMemory>
    requires { drawn < 2 ^ 31 }
{
    if !is_lawful(nodes) {
        return Err(NoMemory);
    }
    let mut rows = fresh_rows(alloc, nodes)?;
    let mut readers = Readers::new(alloc, nodes)?;
    let mut clock = clock_at(alloc, drawn)?;
    let mut work = Work::new(alloc, nodes)?;
    Ok(play(nodes, &mut rows, &mut readers, &mut clock, &mut work, steps))
}

fn node(kind: Kind, expr: Expr) -> PlanNode {
    PlanNode {
        kind,
        expr,
        owner: 0,
    }
}

fn signal() -> PlanNode {
    node(Kind::Signal, Expr::Lit(Code::Empty))
}

fn read(alloc: Global, row: u32) -> Result<Boxed<Expr>, AllocError> {
    Boxed::new(alloc, Expr::Read(row))
}

fn number(alloc: Global, number: i32) -> Result<Boxed<Expr>, AllocError> {
    Boxed::new(alloc, Expr::Lit(Code::Number(number)))
}

/// The memo that is a row and a number more.
fn more(alloc: Global, row: u32, by: i32) -> Result<PlanNode, AllocError> {
    let left = read(alloc, row)?;
    let right = number(alloc, by)?;
    Ok(node(Kind::Memo, Expr::Binary(Op::Add, left, right)))
}

/// The memo that is the sum of two rows.
fn sum(alloc: Global, left: u32, right: u32) -> Result<PlanNode, AllocError> {
    let left = read(alloc, left)?;
    let right = read(alloc, right)?;
    Ok(node(Kind::Memo, Expr::Binary(Op::Add, left, right)))
}

/// The memo that is row 1 where row 0 is true, and row 2 where it is not.
fn choice(alloc: Global) -> Result<PlanNode, AllocError> {
    let test = read(alloc, 0)?;
    let first = read(alloc, 1)?;
    let second = read(alloc, 2)?;
    Ok(node(Kind::Memo, Expr::If(test, first, second)))
}

/// A signal, a memo that is 1 more, one that is 2 more, and the sum of the two.
fn diamond(alloc: Global) -> Result<[PlanNode; 4], AllocError> {
    let one = more(alloc, 0, 1)?;
    let two = more(alloc, 0, 2)?;
    let both = sum(alloc, 1, 2)?;
    Ok([signal(), one, two, both])
}

fn value(value: i32, number: u32) -> Told {
    Told::Value(Code::Number(value), number)
}

/// A write of the same value makes memos run again, but they draw no number, and what reads them is kept.
#[test]
fn each_memo_of_a_diamond_changes_once(rt: HostRuntime) -> Result<(), Fail> {
    let nodes = diamond(rt.alloc())?;
    let ten = Code::Number(10);
    let steps = [
        (Step::Get(3), Told::Value(Code::Empty, 0)),
        (Step::Set(0, ten), Told::Written(1)),
        (Step::Get(3), value(23, 4)),
        (Step::Get(1), value(11, 2)),
        (Step::Set(0, ten), Told::Written(5)),
        (Step::Get(3), value(23, 4)),
        (Step::Set(0, Code::Number(20)), Told::Written(6)),
        (Step::Settle, Told::Settled),
        (Step::Get(2), value(22, 8)),
        (Step::Get(3), value(43, 9)),
        (Step::Get(4), Told::NoRow),
        (Step::Set(3, ten), Told::NoRow),
    ];
    assert_eq!(rt; played(rt.alloc(), &nodes, 0, &steps)?, 12);
    Ok(())
}

#[test]
fn a_branch_that_was_not_taken_is_not_read(rt: HostRuntime) -> Result<(), Fail> {
    let nodes = [signal(), signal(), signal(), choice(rt.alloc())?];
    let steps = [
        (Step::Set(0, Code::Number(1)), Told::Written(1)),
        (Step::Set(1, Code::Number(5)), Told::Written(2)),
        (Step::Set(2, Code::Number(6)), Told::Written(3)),
        (Step::Get(3), value(5, 4)),
        (Step::Set(2, Code::Number(7)), Told::Written(5)),
        (Step::Get(3), value(5, 4)),
        (Step::Set(0, Code::Empty), Told::Written(6)),
        (Step::Get(3), value(7, 7)),
        (Step::Set(1, Code::Number(9)), Told::Written(8)),
        (Step::Get(3), value(7, 7)),
        (Step::Set(2, Code::Number(8)), Told::Written(9)),
        (Step::Get(3), value(8, 10)),
    ];
    assert_eq!(rt; played(rt.alloc(), &nodes, 0, &steps)?, 12);
    Ok(())
}

#[test]
fn a_chain_is_brought_up_to_date_from_its_end(rt: HostRuntime) -> Result<(), Fail> {
    let mut nodes = Vec::new(rt.alloc());
    nodes.push(signal())?;
    for row in 0..64 {
        nodes.push(more(rt.alloc(), row, 1)?)?;
    }
    let steps = [
        (Step::Set(0, Code::Number(0)), Told::Written(1)),
        (Step::Get(64), value(64, 65)),
        (Step::Set(0, Code::Number(1)), Told::Written(66)),
        (Step::Get(64), value(65, 130)),
        (Step::Get(1), value(2, 67)),
    ];
    assert_eq!(rt; played(rt.alloc(), &nodes, 0, &steps)?, 5);
    Ok(())
}

#[test]
fn past_the_last_number_rows_stay(rt: HostRuntime) -> Result<(), Fail> {
    let nodes = diamond(rt.alloc())?;
    let steps = [
        (Step::Set(0, Code::Number(10)), Told::Written(65_535)),
        (Step::Get(1), value(11, 65_536)),
        (Step::Get(3), Told::Full),
        (Step::Get(2), Told::Full),
        (Step::Get(0), value(10, 65_535)),
        (Step::Set(0, Code::Number(11)), Told::Full),
        (Step::Get(1), value(11, 65_536)),
        (Step::Settle, Told::Full),
    ];
    assert_eq!(rt; played(rt.alloc(), &nodes, 65_534, &steps)?, 8);
    Ok(())
}
