//! The calls of one caller.
ghost use Rattle.std.specs.Prelude.{◌≡◌, ◌≢◌, ◌<◌, ◌≤◌, ◌+◌, ◌-◌, length, slice_get, slice_set, Some, IfOk, OnOk, OnErr, true, ◌↔◌, IsTrue, ℕ, false, ◌^◌};
ghost use Rattle.values.specs.declared.plan.PlanNode.{PlanNode as NodeValue};
ghost use Rattle.values.specs.PlanValues.{plan_value};
ghost use Rattle.sources.specs.declared.opening.Opened.{Opened as OpenedValue};
ghost use Rattle.sources.specs.Colours.{is_clean};
ghost use Rattle.sources.specs.Rows.{value_in};
ghost use Rattle.values.specs.Packing.{packed, unpacked};
ghost use Rattle.still_readers.specs.Readers.{HasRead};
ghost use Rattle.still_readers.specs.Marking.{IsDarkened, Reached, written_row, IsSource};
ghost use Rattle.still_rows.specs.Clock.{IsTicked, now_of};
ghost use Rattle.still_rows.specs.Works.{IsStill, IsStepped, IsWorkOf, StayPast, unclean_count, HasUncleanMemo};

use crate::bring::bring_up;
use crate::clock::{Clock, Full};
use crate::evaluating::value_of;
use crate::moves::{node_at, row_at};
use crate::stack::Stack;
use sources::{Colour, Opened, Reads};
use still_readers::{Marking, Readers, write_row};
use values::{Code, Fact, Kind, PlanNode};
use work_order::Frame;

/// What the calls work with, in memory that was taken before.
#[derive(Debug, Drop)]
pub struct Work {
    pub(crate) frames: Stack<Frame>,
    /// What the run that is being made has read.
    pub reads: Reads,
    pub(crate) marking: Marking,
}

/// Brings a row up to date where it is not clean. Effects run by other calls.
pub fn refresh(
    nodes: &[PlanNode],
    rows: &mut [Opened],
    readers: &mut Readers,
    clock: &mut Clock,
    work: &mut Work,
    node: u32,
) -> Result<(), Full>
    requires still { IsStill nodes.now rows.old readers.old clock.old }
    requires work { IsWorkOf nodes.now work.old }
    requires within { node < length nodes.now }
    requires kind { (n : NodeValue) → slice_get nodes.now node ≡ Some n → n.kind ≢ Kind.Effect }
    ensures work { IsWorkOf nodes.now work.new }
    ensures stepped { IsStepped nodes.now rows.old rows.new readers.old readers.new clock.old clock.new }
    ensures past { StayPast node rows.old rows.new }
    ensures clean { OnOk result ((row : OpenedValue) → slice_get rows.new node ≡ Some row → is_clean row.colour ≡ true) }
    ensures full { OnErr result (65536 ≤ clock.new.drawn) }
    ensures left { OnErr result (0 < unclean_count rows.new) }
    ensures memo_left { OnErr result (HasUncleanMemo nodes.now rows.new) }
{
    if row_at(rows, node).colour.is_clean() {
        return Ok(());
    }
    bring_up(
        nodes,
        rows,
        readers,
        clock,
        &mut work.frames,
        &mut work.reads,
        node,
    )
}

/// The value of a row, and the number under which it came in this phase: 0 for the opening value. The
/// row is no effect.
pub fn get(
    nodes: &[PlanNode],
    rows: &mut [Opened],
    readers: &mut Readers,
    clock: &mut Clock,
    work: &mut Work,
    node: u32,
) -> Result<(Code, u32), Full>
    requires still { IsStill nodes.now rows.old readers.old clock.old }
    requires work { IsWorkOf nodes.now work.old }
    requires within { node < length nodes.now }
    requires kind { (n : NodeValue) → slice_get nodes.now node ≡ Some n → n.kind ≢ Kind.Effect }
    ensures work { IsWorkOf nodes.now work.new }
    ensures stepped { IsStepped nodes.now rows.old rows.new readers.old readers.new clock.old clock.new }
    ensures value { IfOk result (λ answer. answer.0 ≡ plan_value nodes.now (value_in rows.old) node) }
    ensures number { IfOk result (λ answer. (row : OpenedValue) → slice_get rows.new node ≡ Some row →
        (answer.0 ≡ unpacked row.code) × (answer.1 ≡ row.version - clock.new.base)) }
    ensures full { OnErr result (65536 ≤ clock.new.drawn) }
    ensures left { OnErr result (0 < unclean_count rows.new) }
    ensures memo_left { OnErr result (HasUncleanMemo nodes.now rows.new) }
{
    refresh(nodes, rows, readers, clock, work, node)?;
    let row = row_at(rows, node);
    Ok((value_of(row.code), number_of(row.version, clock.base)))
}

/// The number of a version in the phase that began with this count of ticks.
fn number_of(version: u64, base: u64) -> u32
    requires { version < base + 2 ^ 32 }
    ensures { result ≡ version - base }
{
    version.saturating_sub(base) as u32
}

fn refresh_memo(
    nodes: &[PlanNode],
    rows: &mut [Opened],
    readers: &mut Readers,
    clock: &mut Clock,
    work: &mut Work,
    at: u32,
) -> Result<(), Full>
    requires still { IsStill nodes.now rows.old readers.old clock.old }
    requires work { IsWorkOf nodes.now work.old }
    requires within { at < length nodes.now }
    ensures work { IsWorkOf nodes.now work.new }
    ensures stepped { IsStepped nodes.now rows.old rows.new readers.old readers.new clock.old clock.new }
    ensures past { StayPast at rows.old rows.new }
    ensures clean { OnOk result ((node : NodeValue) (row : OpenedValue) → slice_get nodes.now at ≡ Some node → slice_get rows.new at ≡ Some row → node.kind ≡ Kind.Memo → is_clean row.colour ≡ true) }
    ensures full { OnErr result (65536 ≤ clock.new.drawn) }
    ensures left { OnErr result (0 < unclean_count rows.new) }
    ensures memo_left { OnErr result (HasUncleanMemo nodes.now rows.new) }
{
    if node_at(nodes, at).kind == Kind::Memo {
        return refresh(nodes, rows, readers, clock, work, at);
    }
    Ok(())
}

/// Brings the memos of the rows from one up to another up to date, in order of row, where all before
/// them are. Only these rows are touched.
pub fn settle_span(
    nodes: &[PlanNode],
    rows: &mut [Opened],
    readers: &mut Readers,
    clock: &mut Clock,
    work: &mut Work,
    from: u32,
    to: u32,
) -> Result<(), Full>
    requires still { IsStill nodes.now rows.old readers.old clock.old }
    requires work { IsWorkOf nodes.now work.old }
    requires span { from ≤ to }
    requires within { to ≤ length nodes.now }
    requires behind { (i : ℕ) (node : NodeValue) (row : OpenedValue) → i < from → slice_get nodes.now i ≡ Some node →
        slice_get rows.old i ≡ Some row → node.kind ≡ Kind.Memo → is_clean row.colour ≡ true }
    ensures work { IsWorkOf nodes.now work.new }
    ensures stepped { IsStepped nodes.now rows.old rows.new readers.old readers.new clock.old clock.new }
    ensures below { (i : ℕ) → i < from → slice_get rows.new i ≡ slice_get rows.old i }
    ensures past { (i : ℕ) → to ≤ i → slice_get rows.new i ≡ slice_get rows.old i }
    ensures drawn { clock.new.drawn ≤ clock.old.drawn + (to - from) }
    ensures settled { OnOk result ((i : ℕ) (node : NodeValue) (row : OpenedValue) → i < to → slice_get nodes.now i ≡ Some node →
        slice_get rows.new i ≡ Some row → node.kind ≡ Kind.Memo →
        (is_clean row.colour ≡ true) × (unpacked row.code ≡ plan_value nodes.now (value_in rows.old) i)) }
    ensures full { OnErr result (65536 ≤ clock.new.drawn) }
    ensures left { OnErr result (0 < unclean_count rows.new) }
    ensures memo_left { OnErr result (HasUncleanMemo nodes.now rows.new) }
{
    for at in from..to {
        refresh_memo(nodes, rows, readers, clock, work, at)?;
    }
    Ok(())
}

/// Brings every memo up to date, in order of row.
pub fn settle_memos(
    nodes: &[PlanNode],
    rows: &mut [Opened],
    readers: &mut Readers,
    clock: &mut Clock,
    work: &mut Work,
) -> Result<(), Full>
    requires still { IsStill nodes.now rows.old readers.old clock.old }
    requires work { IsWorkOf nodes.now work.old }
    ensures work { IsWorkOf nodes.now work.new }
    ensures stepped { IsStepped nodes.now rows.old rows.new readers.old readers.new clock.old clock.new }
    ensures settled { OnOk result ((i : ℕ) (node : NodeValue) (row : OpenedValue) → slice_get nodes.now i ≡ Some node →
        slice_get rows.new i ≡ Some row → node.kind ≡ Kind.Memo →
        (is_clean row.colour ≡ true) × (unpacked row.code ≡ plan_value nodes.now (value_in rows.old) i)) }
    ensures full { OnErr result (65536 ≤ clock.new.drawn) }
    ensures left { OnErr result (0 < unclean_count rows.new) }
    ensures memo_left { OnErr result (HasUncleanMemo nodes.now rows.new) }
{
    settle_span(nodes, rows, readers, clock, work, 0, nodes.len() as u32)
}

/// Writes a row that is not derived, and marks what reads it. The answer is the write's number. After
/// `Full` nothing is written.
pub fn set(
    nodes: &[PlanNode],
    rows: &mut [Opened],
    readers: &Readers,
    clock: &mut Clock,
    work: &mut Work,
    signal: u32,
    code: Code,
) -> Result<u32, Full>
    requires still { IsStill nodes.now rows.old readers.now clock.old }
    requires work { IsWorkOf nodes.now work.old }
    requires signal { IsSource nodes.now signal }
    ensures work { IsWorkOf nodes.now work.new }
    ensures still { IsStill nodes.now rows.new readers.now clock.new }
    ensures ticked { OnOk result (IsTicked clock.old clock.new (Fact.Write signal code)) }
    ensures number { IfOk result (λ number. number ≡ clock.new.drawn) }
    ensures written { OnOk result ((row : OpenedValue) → slice_get rows.old signal ≡ Some row →
        IsDarkened (slice_set rows.old signal (written_row row (packed code) (now_of clock.new))) rows.new) }
    ensures direct { OnOk result ((m : ℕ) (row : OpenedValue) → HasRead readers.now m signal → slice_get rows.new m ≡ Some row → row.colour ≡ Colour.Dirty) }
    ensures further { OnOk result ((m : ℕ) (row : OpenedValue) → Reached readers.now signal m → slice_get rows.new m ≡ Some row → is_clean row.colour ≡ false) }
    ensures others { OnOk result ((m : ℕ) → m ≢ signal → ¬ Reached readers.now signal m → slice_get rows.new m ≡ slice_get rows.old m) }
    ensures full { OnErr result (65536 ≤ clock.old.drawn) }
    ensures rows { OnErr result (rows.new ≡ rows.old) }
    ensures unchanged { OnErr result (clock.new ≡ clock.old) }
{
    let version = clock.tick(Fact::Write { row: signal, code })?;
    write_row(
        nodes,
        rows,
        readers,
        &mut work.marking,
        signal,
        code,
        version,
    );
    Ok(clock.drawn)
}
