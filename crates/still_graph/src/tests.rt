//! A worked run of two phases, with ample memory.
ghost use Rattle.std.specs.Prelude.{◌≡◌, ◌≢◌, ◌⊎◌, IfOk, IsSomeAnd, IsTrue, slice_get};
ghost use Rattle.values.specs.declared.plan.Kind.TheVariants as kind;
ghost use Rattle.still_graph.specs.Worked.{doubled};

use crate::{Journal, Settled, Stage, Still, Target};
use component_items::{Component, Item, Items};
use outside::Delays;
use std::alloc::Global;
use std::process::Abort;
use std::test::Fail;
use values::{Code, Expr, Kind, NoMemory, Plan, Stop, Texts};

/// A table with three texts, the empty one among them.
fn texts(alloc: Global) -> Result<Texts, Fail> {
    let mut texts = Texts::new(alloc)?;
    for text in ["n", "m"] {
        texts.add(text)?;
    }
    Ok(texts)
}

/// A signal with the id 0, and a memo of it with the id 1.
fn items(alloc: Global) -> Result<Items, NoMemory>
    ensures { IfOk result (λ items. items ≡ doubled) }
{
    let mut items = Items::new(alloc);
    items.push(Item::Signal {
        id: 0,
        name: 1,
        start: Code::Number(1),
    })?;
    items.push(Item::Memo {
        id: 1,
        name: 2,
        expr: Expr::Read(0),
    })?;
    Ok(items)
}

/// The component of these, which has all its texts.
fn component(alloc: Global) -> Result<Option<Component>, Fail> {
    let items = items(alloc)?;
    let texts = texts(alloc)?;
    if texts.len() != 3 {
        return Ok(None);
    }
    Ok(Some(Component::new(texts, items)))
}

/// Whether the row is that of a signal.
fn is_signal(plan: &Plan, row: u32) -> bool
    ensures { IsTrue result → IsSomeAnd (slice_get plan.now.nodes row) (λ node. (node.kind ≡ kind.Signal) ⊎ (node.kind ≡ kind.Field)) }
{
    let Some(node) = plan.nodes.at(row as usize) else {
        return false;
    };
    matches!(node.kind, Kind::Signal)
}

/// Whether the row is that of a memo.
fn is_memo(plan: &Plan, row: u32) -> bool
    ensures { IsTrue result → IsSomeAnd (slice_get plan.now.nodes row) (λ node. node.kind ≢ kind.Effect) }
{
    let Some(node) = plan.nodes.at(row as usize) else {
        return false;
    };
    matches!(node.kind, Kind::Memo)
}

/// Settles the graph, which waits for no load.
fn settle(rt: &impl Abort, alloc: Global, still: &mut Still) -> Result<(), Fail> {
    assert!(rt; still.stage() != Stage::Open);
    assert!(rt; still.ticks() < 1000);
    let settled = still.settle(alloc, &mut Delays::new())?;
    assert!(rt; matches!(settled, Settled::Whole));
    Ok(())
}

/// What the ids stand for while a phase may open.
fn targets(rt: &impl Abort, still: &Still) {
    assert!(rt; still.stage() == Stage::Settled);
    assert_eq!(rt; still.target(0, None), Target::Row(0));
    assert_eq!(rt; still.target(1, None), Target::Row(1));
    assert_eq!(rt; still.target(1, Some(Code::Empty)), Target::NoRow);
}

/// Opens a phase of one pass.
fn open(rt: &impl Abort, alloc: Global, still: &mut Still) -> Result<(), Fail> {
    assert!(rt; still.stage() == Stage::Settled);
    assert!(rt; still.ticks() < 1000);
    still.begin(alloc, 1, 0)?;
    Ok(())
}

/// Sets the signal.
fn set(rt: &impl Abort, still: &mut Still, code: Code) -> Result<u32, Stop> {
    assert!(rt; still.stage() == Stage::Open);
    assert!(rt; is_signal(still.plan(), 0));
    still.set(0, code)
}

/// Asks for the memo.
fn get(rt: &impl Abort, still: &mut Still) -> Result<(Code, u32), Stop> {
    assert!(rt; still.stage() == Stage::Open);
    assert!(rt; is_memo(still.plan(), 1));
    still.get(1)
}

/// Sets the signal, and asks for the memo, which has this number then.
fn calls(rt: &impl Abort, still: &mut Still, number: u32) {
    let code = Code::Number(5);
    assert_eq!(rt; set(rt, still, code), Ok(1));
    assert_eq!(rt; get(rt, still), Ok((code, number)));
}

/// Ends the phase.
fn end(rt: &impl Abort, still: &mut Still) {
    assert!(rt; still.stage() == Stage::Open);
    still.end();
}

/// A phase with these calls.
fn phase(rt: &impl Abort, alloc: Global, still: &mut Still, number: u32) -> Result<(), Fail> {
    targets(rt, still);
    open(rt, alloc, still)?;
    calls(rt, still, number);
    end(rt, still);
    settle(rt, alloc, still)
}

/// How many entries the phase has.
fn count(journal: &Journal, phase: u32) -> usize {
    match journal.entries(phase) {
        Some(noted) => noted.len(),
        None => 0,
    }
}

/// What the journal has of the two phases: the first changes the memo, and the second writes what there was.
fn noted(rt: &impl Abort, journal: &Journal) {
    assert_eq!(rt; journal.phases(), 2);
    assert_eq!(rt; journal.base(1), Some(1));
    assert_eq!(rt; journal.base(2), Some(3));
    assert_eq!(rt; journal.meets(1, 1), Some(0));
    assert_eq!(rt; journal.remarks(1, 2), None);
    assert_eq!(rt; count(journal, 1), 2);
    assert_eq!(rt; count(journal, 2), 1);
}

/// The graph of that component.
fn made(rt: &impl Abort, alloc: Global) -> Result<Still, Fail> {
    let component = component(alloc)?.expect(rt, "all three texts");
    match Still::new(alloc, component) {
        Ok(still) => Ok(still),
        Err((_, no_memory)) => Err(no_memory.into()),
    }
}

/// The first settling, and two phases.
fn run(rt: &impl Abort, alloc: Global, still: &mut Still) -> Result<(), Fail> {
    settle(rt, alloc, still)?;
    phase(rt, alloc, still, 2)?;
    assert_eq!(rt; still.held().value(0), Some(Code::Number(5)));
    phase(rt, alloc, still, 0)?;
    assert_eq!(rt; still.version(0), Some(4));
    assert_eq!(rt; still.version(1), Some(3));
    Ok(())
}

#[test]
fn two_phases_are_settled_and_noted(rt: HostRuntime) -> Result<(), Fail> {
    let alloc = rt.alloc();
    let mut still = made(&rt, alloc)?;
    run(&rt, alloc, &mut still)?;
    noted(&rt, still.journal());
    Ok(())
}
