//! Worked rows: writes, and the call on each effect after them.
ghost use Rattle.std.specs.Prelude.{◌≡◌, true, IfOk, OnOk};
ghost use Rattle.still_rows.specs.Clock.{IsClock};
ghost use Rattle.still_rows.specs.Works.{IsStill, IsWorkOf};

use crate::{Effect, run_effect};
use sources::Opened;
use sqlite_items::Boxed;
use std::alloc::{AllocError, Global};
use std::test::Fail;
use still_readers::Readers;
use still_rows::{Clock, Full, PHASE_ROOM, Work, fresh_rows, is_lawful, set};
use values::{Code, Expr, Fact, Kind, NoMemory, Noted, Op, PlanNode, Reserved};

#[derive(Clone, Copy)]
enum Step {
    Set(u32, Code),
    Update(u32),
}

#[derive(Clone, Copy, Debug, PartialEq, Eq)]
enum Told {
    Written(u32),
    Ended(Effect),
    Full,
    NoRow,
}

fn write(
    nodes: &[PlanNode],
    rows: &mut [Opened],
    readers: &Readers,
    clock: &mut Clock,
    work: &mut Work,
    signal: u32,
    code: Code,
) -> Told
    requires still { IsStill nodes.now rows.old readers.now clock.old }
    requires work { IsWorkOf nodes.now work.old }
    requires phase { clock.old.in_phase ≡ true }
    ensures still { IsStill nodes.now rows.new readers.now clock.new }
    ensures work { IsWorkOf nodes.now work.new }
    ensures phase { clock.new.in_phase ≡ true }
{
    let Some(node) = nodes.get(signal as usize) else {
        return Told::NoRow;
    };
    if node.kind.is_derived() {
        return Told::NoRow;
    }
    match set(nodes, rows, readers, clock, work, signal, code) {
        Ok(number) => Told::Written(number),
        Err(Full) => Told::Full,
    }
}

fn update(
    nodes: &[PlanNode],
    rows: &mut [Opened],
    readers: &mut Readers,
    clock: &mut Clock,
    work: &mut Work,
    row: u32,
) -> Told
    requires still { IsStill nodes.now rows.old readers.old clock.old }
    requires work { IsWorkOf nodes.now work.old }
    requires phase { clock.old.in_phase ≡ true }
    ensures still { IsStill nodes.now rows.new readers.new clock.new }
    ensures work { IsWorkOf nodes.now work.new }
    ensures phase { clock.new.in_phase ≡ true }
{
    let Some(node) = nodes.get(row as usize) else {
        return Told::NoRow;
    };
    let Kind::Effect = node.kind else {
        return Told::NoRow;
    };
    match run_effect(nodes, rows, readers, clock, work, row) {
        Ok(effect) => Told::Ended(effect),
        Err(Full) => Told::Full,
    }
}

fn tell(
    nodes: &[PlanNode],
    rows: &mut [Opened],
    readers: &mut Readers,
    clock: &mut Clock,
    work: &mut Work,
    step: Step,
) -> Told
    requires still { IsStill nodes.now rows.old readers.old clock.old }
    requires work { IsWorkOf nodes.now work.old }
    requires phase { clock.old.in_phase ≡ true }
    ensures still { IsStill nodes.now rows.new readers.new clock.new }
    ensures work { IsWorkOf nodes.now work.new }
    ensures phase { clock.new.in_phase ≡ true }
{
    match step {
        Step::Set(signal, code) => write(nodes, rows, readers, clock, work, signal, code),
        Step::Update(row) => update(nodes, rows, readers, clock, work, row),
    }
}

/// The place of the first step that tells otherwise, or how many there are.
fn play(
    nodes: &[PlanNode],
    rows: &mut [Opened],
    readers: &mut Readers,
    clock: &mut Clock,
    work: &mut Work,
    steps: &[(Step, Told)],
) -> usize
    requires still { IsStill nodes.now rows.old readers.old clock.old }
    requires work { IsWorkOf nodes.now work.old }
    requires phase { clock.old.in_phase ≡ true }
{
    for (at, (step, told)) in steps.iter().enumerate() {
        if tell(nodes, rows, readers, clock, work, *step) != *told {
            return at;
        }
    }
    steps.len()
}

fn draw(clock: &mut Clock) -> Result<(), NoMemory>
    requires clock { IsClock clock.old }
    requires phase { clock.old.in_phase ≡ true }
    ensures clock { IsClock clock.new }
    ensures phase { OnOk result (clock.new.in_phase ≡ true) }
{
    match clock.tick(Fact::Void { row: 0 }) {
        Ok(_) => Ok(()),
        Err(Full) => Err(NoMemory),
    }
}

/// A phase where so many numbers came to nothing.
fn clock_at(alloc: Global, drawn: u32) -> Result<Clock, NoMemory>
    ensures clock { IfOk result (λ clock. IsClock clock) }
    ensures phase { IfOk result (λ clock. clock.in_phase ≡ true) }
{
    let mut clock = Clock {
        base: 7,
        drawn: 0,
        in_phase: true,
        entries: Reserved::with_room(alloc, PHASE_ROOM)?,
    };
    for _ in 0..drawn {
        draw(&mut clock)?;
    }
    Ok(clock)
}

/// How many steps told what they should, and whether the last entries are these.
fn played(
    alloc: Global,
    nodes: &[PlanNode],
    drawn: u32,
    steps: &[(Step, Told)],
    last: &[Noted],
) -> Result<(usize, bool), NoMemory> {
    if !is_lawful(nodes) {
        return Err(NoMemory);
    }
    let mut rows = fresh_rows(alloc, nodes)?;
    let mut readers = Readers::new(alloc, nodes)?;
    let mut clock = clock_at(alloc, drawn)?;
    let mut work = Work::new(alloc, nodes)?;
    let told = play(nodes, &mut rows, &mut readers, &mut clock, &mut work, steps);
    Ok((told, clock.entries.as_slice().ends_with(last)))
}

fn read(alloc: Global, row: u32) -> Result<Boxed<Expr>, AllocError> {
    Boxed::new(alloc, Expr::Read(row))
}

fn number(alloc: Global, number: i32) -> Result<Boxed<Expr>, AllocError> {
    Boxed::new(alloc, Expr::Lit(Code::Number(number)))
}

/// A signal, a memo that is 1 more, and an effect of the memo.
fn nodes(alloc: Global) -> Result<[PlanNode; 3], AllocError> {
    let left = read(alloc, 0)?;
    let right = number(alloc, 1)?;
    let memo = PlanNode {
        kind: Kind::Memo,
        expr: Expr::Binary(Op::Add, left, right),
        owner: 0,
    };
    let signal = PlanNode {
        kind: Kind::Signal,
        expr: Expr::Lit(Code::Empty),
        owner: 0,
    };
    let effect = PlanNode {
        kind: Kind::Effect,
        expr: Expr::Read(1),
        owner: 0,
    };
    Ok([signal, memo, effect])
}

fn ran(number: i32) -> Told {
    Told::Ended(Effect::Ran(Code::Number(number)))
}

/// The first run draws its number before the memo's, a later one after it. A write of the same value
/// makes no run.
#[test]
fn an_effect_runs_where_its_source_differs(rt: HostRuntime) -> Result<(), Fail> {
    let nodes = nodes(rt.alloc())?;
    let ten = Code::Number(10);
    let steps = [
        (Step::Set(0, ten), Told::Written(1)),
        (Step::Update(2), ran(11)),
        (Step::Update(2), Told::Ended(Effect::Same)),
        (Step::Set(0, ten), Told::Written(4)),
        (Step::Update(2), Told::Ended(Effect::Same)),
        (Step::Set(0, Code::Number(20)), Told::Written(5)),
        (Step::Update(2), ran(21)),
        (Step::Update(1), Told::NoRow),
        (Step::Set(3, ten), Told::NoRow),
    ];
    let last = [
        noted(
            2,
            Fact::Ran {
                row: 2,
                code: Code::Number(11),
            },
        ),
        noted(
            3,
            Fact::Change {
                row: 1,
                code: Code::Number(11),
            },
        ),
        noted(4, Fact::Write { row: 0, code: ten }),
        noted(
            5,
            Fact::Write {
                row: 0,
                code: Code::Number(20),
            },
        ),
        noted(
            6,
            Fact::Change {
                row: 1,
                code: Code::Number(21),
            },
        ),
        noted(
            7,
            Fact::Ran {
                row: 2,
                code: Code::Number(21),
            },
        ),
    ];
    assert_eq!(rt; played(rt.alloc(), &nodes, 0, &steps, &last)?, (9, true));
    Ok(())
}

fn noted(number: u32, fact: Fact) -> Noted {
    Noted { number, fact }
}

/// The last number comes to nothing, since the memo finds none.
#[test]
fn a_run_that_is_cut_off_leaves_its_number(rt: HostRuntime) -> Result<(), Fail> {
    let nodes = nodes(rt.alloc())?;
    let steps = [
        (Step::Set(0, Code::Number(10)), Told::Written(65_535)),
        (Step::Update(2), Told::Full),
        (Step::Update(2), Told::Full),
    ];
    let last = [
        noted(
            65_535,
            Fact::Write {
                row: 0,
                code: Code::Number(10),
            },
        ),
        noted(65_536, Fact::Void { row: 2 }),
    ];
    assert_eq!(rt;
        played(rt.alloc(), &nodes, 65_534, &steps, &last)?,
        (3, true)
    );
    Ok(())
}
