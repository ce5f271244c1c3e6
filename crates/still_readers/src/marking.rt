//! The marking of what reads a row that is written.
ghost use Rattle.std.specs.Prelude.{◌≡◌, ◌≢◌, ◌<◌, ◌≤◌, ◌+◌, false, true, ◌==◌, ℕ, [], ◌∷◌, replicate, length, slice_get, slice_set, Option, Some, None, IfOk};
ghost use Rattle.values.specs.declared.plan.PlanNode.{PlanNode as NodeValue};
ghost use Rattle.values.specs.Packing.{packed};
ghost use Rattle.sources.specs.declared.opening.Opened.{Opened as OpenedValue};
ghost use Rattle.values.specs.Reserved.{room_of};
ghost use Rattle.sources.specs.Bits.{IsIn};
ghost use Rattle.sources.specs.Colours.{is_clean};
ghost use Rattle.sources.specs.Rows.{IsGood};
ghost use Rattle.still_readers.specs.declared.readers.Reader.{Reader as ReaderValue};
ghost use Rattle.still_readers.specs.Readers.{HasRead, IsReadersOf, IsEnrolled, IsLast, bound_of};
ghost use Rattle.still_readers.specs.Marking.{darkened, IsDarkened, Reached, IsMet, LeavesOthers, written_row, IsSource, IsMarkingOf, In, AreMet, out_count, marking_left, IsReaching, IsSpreading, IsSpread};

use crate::readers::{Reader, Readers};
use sources::{BitRow, Colour, Opened};
use std::alloc::Global;
use values::{Code, NoMemory, PlanNode, Reserved};

/// What a marking works with, in memory that was taken before: the rows that are still to be gone
/// through, and those that were reached.
#[derive(Debug, Drop)]
pub struct Marking {
    pub(crate) todo: Reserved<u32>,
    pub(crate) seen: BitRow,
}

impl Marking {
    /// For a plan of so many rows.
    pub fn new(alloc: Global, rows: u32) -> Result<Marking, NoMemory>
        ensures { IfOk result (λ marking. IsMarkingOf rows marking) }
    {
        Ok(Marking {
            todo: Reserved::with_room(alloc, rows as usize + 1)?,
            seen: BitRow::new(alloc, rows)?,
        })
    }

    /// Only this row is to be gone through, and none was reached.
    fn begin(&mut self, row: u32)
        requires { 1 ≤ room_of self.old.todo }
        ensures todo { self.new.todo.list ≡ row ∷ [] }
        ensures room { room_of self.new.todo ≡ room_of self.old.todo }
        ensures seen { self.new.seen ≡ replicate (length self.old.seen) false }
    {
        self.seen.clear();
        self.todo.clear();
        self.todo.push(row);
    }

    /// The row is reached. The first time it is put among those that are still to be gone through.
    #[inline]
    fn reach(&mut self, row: u32)
        requires within { row < length self.old.seen }
        requires room { out_count self.old.seen + length self.old.todo.list ≤ room_of self.old.todo }
        ensures { IsReaching row self.old self.new }
    {
        if !self.seen.insert(row) {
            return;
        }
        self.todo.push(row);
    }
}

/// Writes a row that is not derived, and marks what reads it: who has read the row itself is dirty, and
/// who has read what is so reached is to be checked at least. It takes no memory, and one step for each
/// reader of a row that is reached.
pub fn write_row(
    nodes: &[PlanNode],
    rows: &mut [Opened],
    readers: &Readers,
    marking: &mut Marking,
    signal: u32,
    code: Code,
    version: u64,
)
    requires good { IsGood nodes.now rows.old }
    requires of_plan { IsReadersOf nodes.now readers.now }
    requires enrolled { IsEnrolled nodes.now rows.old readers.now }
    requires marking { IsMarkingOf (length nodes.now) marking.old }
    requires signal { IsSource nodes.now signal }
    requires newer { (row : OpenedValue) → slice_get rows.old signal ≡ Some row → row.version < version }
    ensures good { IsGood nodes.now rows.new }
    ensures enrolled { IsEnrolled nodes.now rows.new readers.now }
    ensures marking { IsMarkingOf (length nodes.now) marking.new }
    ensures written { (row : OpenedValue) → slice_get rows.old signal ≡ Some row →
        IsDarkened (slice_set rows.old signal (written_row row (packed code) version)) rows.new }
    ensures direct { (m : ℕ) (row : OpenedValue) → HasRead readers.now m signal → slice_get rows.new m ≡ Some row → row.colour ≡ Colour.Dirty }
    ensures further { (m : ℕ) (row : OpenedValue) → Reached readers.now signal m → slice_get rows.new m ≡ Some row → is_clean row.colour ≡ false }
    ensures others { (m : ℕ) → m ≢ signal → ¬ Reached readers.now signal m → slice_get rows.new m ≡ slice_get rows.old m }
{
    write(rows, signal, code.pack(), version);
    marking.begin(signal);
    spread(nodes, rows, readers, marking, signal);
}

fn write(rows: &mut [Opened], at: u32, code: u64, version: u64)
    requires { at < length rows.old }
    ensures { (row : OpenedValue) → slice_get rows.old at ≡ Some row → rows.new ≡ slice_set rows.old at (written_row row code version) }
{
    let row = &mut rows[at as usize];
    row.code = code;
    row.version = version;
}

/// Marks out a write, from the rows that wait.
fn spread(
    nodes: &[PlanNode],
    rows: &mut [Opened],
    readers: &Readers,
    marking: &mut Marking,
    signal: u32,
)
    requires spreading { IsSpreading nodes.now rows.old readers.now marking.old signal 0 0 }
    requires met { AreMet readers.now signal marking.old.todo.list }
    ensures spreading { IsSpread nodes.now rows.new readers.now marking.new signal }
    ensures darkened { IsDarkened rows.old rows.new }
    ensures others { LeavesOthers readers.now signal rows.old rows.new }
{
    while let Some(now) = marking.todo.pop() {
        mark_readers(nodes, rows, readers, marking, signal, now);
    }
}

/// Marks the readers of one row.
fn mark_readers(
    nodes: &[PlanNode],
    rows: &mut [Opened],
    readers: &Readers,
    marking: &mut Marking,
    signal: u32,
    now: u32,
)
    requires within { now < length nodes.now }
    requires spreading { IsSpreading nodes.now rows.old readers.now marking.old signal now (length readers.now.list) }
    requires now { IsMet readers.now signal now }
    requires met { AreMet readers.now signal marking.old.todo.list }
    ensures spreading { IsSpreading nodes.now rows.new readers.now marking.new signal now 0 }
    ensures met { AreMet readers.now signal marking.new.todo.list }
    ensures darkened { IsDarkened rows.old rows.new }
    ensures others { LeavesOthers readers.now signal rows.old rows.new }
    ensures less { marking_left marking.new ≤ marking_left marking.old }
{
    let mut at = readers.last.as_slice()[now as usize];
    while let Some(place) = at {
        at = mark(nodes, rows, readers, marking, signal, now, place);
    }
}

/// Marks one reader, where it has read the row. The answer is the place of the one before it.
fn mark(
    nodes: &[PlanNode],
    rows: &mut [Opened],
    readers: &Readers,
    marking: &mut Marking,
    signal: u32,
    now: u32,
    place: usize,
) -> Option<usize>
    requires place { IsLast readers.now.list now (place + 1) (Some place) }
    requires within { place < length readers.now.list }
    requires spreading { IsSpreading nodes.now rows.old readers.now marking.old signal now (place + 1) }
    requires now { IsMet readers.now signal now }
    requires met { AreMet readers.now signal marking.old.todo.list }
    ensures last { IsLast readers.now.list now place result }
    ensures spreading { IsSpreading nodes.now rows.new readers.now marking.new signal now place }
    ensures met { AreMet readers.now signal marking.new.todo.list }
    ensures darkened { IsDarkened rows.old rows.new }
    ensures others { LeavesOthers readers.now signal rows.old rows.new }
    ensures less { marking_left marking.new ≤ marking_left marking.old }
{
    let reader = readers.list.as_slice()[place];
    if !reader.enrolled {
        return reader.before;
    }
    darken(nodes, rows, readers, marking, signal, now, place, reader);
    reader.before
}

fn darken(
    _nodes: &[PlanNode],
    rows: &mut [Opened],
    _readers: &Readers,
    marking: &mut Marking,
    signal: u32,
    now: u32,
    _place: usize,
    reader: Reader,
)
    requires reader { slice_get _readers.now.list _place ≡ Some reader }
    requires of_row { reader.row ≡ now }
    requires enrolled { reader.enrolled ≡ true }
    requires spreading { IsSpreading _nodes.now rows.old _readers.now marking.old signal now (_place + 1) }
    requires now { IsMet _readers.now signal now }
    requires met { AreMet _readers.now signal marking.old.todo.list }
    ensures spreading { IsSpreading _nodes.now rows.new _readers.now marking.new signal now _place }
    ensures met { AreMet _readers.now signal marking.new.todo.list }
    ensures darkened { IsDarkened rows.old rows.new }
    ensures others { LeavesOthers _readers.now signal rows.old rows.new }
    ensures less { marking_left marking.new ≤ marking_left marking.old }
{
    marking.reach(reader.node);
    recolour(rows, reader.node, now == signal);
}

fn recolour(rows: &mut [Opened], at: u32, direct: bool)
    requires { at < length rows.old }
    ensures { (row : OpenedValue) → slice_get rows.old at ≡ Some row → rows.new ≡ slice_set rows.old at (record row { colour = darkened direct row.colour }) }
{
    let row = &mut rows[at as usize];
    row.colour = shade(direct, row.colour);
}

/// What a mark makes of a colour.
fn shade(direct: bool, colour: Colour) -> Colour
    ensures { result ≡ darkened direct colour }
{
    match (direct, colour) {
        (true, _) | (false, Colour::Dirty) => Colour::Dirty,
        (false, Colour::Clean | Colour::Check) => Colour::Check,
    }
}
