//! Who reads each row, and who has read it.
ghost use Rattle.std.specs.Prelude.{◌≡◌, ◌<◌, ◌≤◌, true, false, ℕ, List, length, slice_get, slice_set, Some, None, IfSome, IfNone};
ghost use Rattle.values.specs.declared.plan.PlanNode.{PlanNode as NodeValue};
ghost use Rattle.sources.specs.Bodies.{rows_read};
ghost use Rattle.sources.specs.Rows.{IsGood};
ghost use Rattle.still_readers.specs.declared.readers.Reader.{Reader as ReaderValue};
ghost use Rattle.still_readers.specs.Readers.{stands_in, has_recorded, IsReadersOf, IsEnrolled, HasRead, IsEnrolledAt, IsReflagged, IsPlaceIn, IsNoneIn, IsOwnReader, IsReadIn, IsExact};

use sources::{Opened, Read};
use values::Sequence;

/// A derived node whose expression names a row.
#[derive(Clone, Copy, Debug)]
pub struct Reader {
    /// The node.
    pub node: u32,
    /// The row that it names.
    pub row: u32,
    /// The place of the reader of the same row before this one.
    pub before: Option<usize>,
    /// Whether the node has read the row in this phase, or had recorded it when the phase began.
    pub enrolled: bool,
}

/// The readers of one node stand from one place up to another.
#[derive(Clone, Copy, Debug)]
pub struct Span {
    pub from: usize,
    pub to: usize,
}

/// The readers of all rows of a plan, in order of node. Each node stands once for each row that its
/// expression names. Those of one row are linked, the last one first.
#[derive(Debug, Drop)]
pub struct Readers {
    pub(crate) list: Sequence<Reader>,
    pub(crate) last: Sequence<Option<usize>>,
    pub(crate) spans: Sequence<Span>,
}

impl Readers {
    /// The node has read this row: from now on it is marked where the row is written. A row that the
    /// node's expression does not name changes nothing. It takes a search among the names of that one
    /// expression.
    pub fn enrol(&mut self, node: u32, row: u32)
        ensures at { IsEnrolledAt node row self.old self.new }
        ensures of_plan { (nodes : List NodeValue) → IsReadersOf nodes self.old → IsReadersOf nodes self.new }
    {
        match self.place_of(node, row) {
            Some(place) => self.flag(place, true),
            None => {}
        }
    }

    /// The same, where the row is likely the one of the node's reader at this place, counted from its
    /// first one. There it takes one look.
    pub fn enrol_read(&mut self, node: u32, row: u32, place: usize)
        ensures at { IsEnrolledAt node row self.old self.new }
        ensures of_plan { (nodes : List NodeValue) → IsReadersOf nodes self.old → IsReadersOf nodes self.new }
    {
        if self.has_read_at(node, row, place) {
            return;
        }
        self.enrol(node, row);
    }

    /// Whether the node's reader at this place, counted from its first one, has read the row.
    fn has_read_at(&self, node: u32, row: u32, place: usize) -> bool
        ensures { result ≡ true → IsReadIn self.now node row }
    {
        match self.reader_at(node, place) {
            Some(reader) => has_read(reader, row),
            None => false,
        }
    }

    /// The node's reader at this place, counted from its first one.
    fn reader_at(&self, node: u32, place: usize) -> Option<Reader>
        ensures { IfSome result (λ reader. IsOwnReader self.now node reader) }
    {
        let span = self.spans.at(node as usize)?;
        let at = span.from.checked_add(place)?;
        if at >= span.to {
            return None;
        }
        match self.list.at(at) {
            Some(reader) => Some(*reader),
            None => None,
        }
    }

    /// Makes the flags say which rows the bodies record, and nothing else.
    pub fn renew(&mut self, rows: &[Opened])
        ensures same { IsReflagged self.old self.new }
        ensures exact { IsExact rows.now (length self.new.list) self.new }
        ensures of_plan { (nodes : List NodeValue) → IsReadersOf nodes self.old → IsReadersOf nodes self.new }
        ensures enrolled { (nodes : List NodeValue) → IsReadersOf nodes self.old → IsGood nodes rows.now → IsEnrolled nodes rows.now self.new }
    {
        for place in 0..self.list.len() {
            let enrolled = self.records(rows, place);
            self.flag(place, enrolled);
        }
    }

    /// Whether the body of the reader's node records its row.
    fn records(&self, rows: &[Opened], place: usize) -> bool
        requires { place < length self.now.list }
        ensures { (reader : ReaderValue) → slice_get self.now.list place ≡ Some reader → result ≡ has_recorded rows.now reader.node reader.row }
    {
        let reader = self.list.as_slice()[place];
        match rows.get(reader.node as usize) {
            Some(row) => is_recorded(row.body.reads.as_slice(), reader.row),
            None => false,
        }
    }

    fn flag(&mut self, place: usize, enrolled: bool)
        requires { place < length self.old.list }
        ensures { (reader : ReaderValue) → slice_get self.old.list place ≡ Some reader →
            self.new ≡ record self.old { list = slice_set self.old.list place (record reader { enrolled = enrolled }) } }
    {
        let reader = self.list.as_slice()[place];
        self.list.set(place, Reader { enrolled, ..reader });
    }

    /// The place of a node as a reader of this row.
    fn place_of(&self, node: u32, row: u32) -> Option<usize>
        ensures some { IfSome result (λ place. IsPlaceIn self.now node row place) }
        ensures none { IfNone result (IsNoneIn self.now node row) }
    {
        let span = self.spans.at(node as usize)?;
        self.place_from(span.from, span.to, row)
    }

    /// The first place from `from` on and below `to` of a reader of this row.
    pub(crate) fn place_from(&self, from: usize, to: usize, row: u32) -> Option<usize>
        ensures some { IfSome result (λ place. (from ≤ place) × (place < to) × (place < length self.now.list)
            × ((reader : ReaderValue) → slice_get self.now.list place ≡ Some reader → reader.row ≡ row)) }
        ensures none { IfNone result ((place : ℕ) (reader : ReaderValue) → from ≤ place → place < to →
            slice_get self.now.list place ≡ Some reader → ¬ (reader.row ≡ row)) }
    {
        for place in from..to {
            if self.is_of_row(place, row) {
                return Some(place);
            }
        }
        None
    }

    fn is_of_row(&self, place: usize, row: u32) -> bool
        ensures of_row { result ≡ true → (place < length self.now.list) × ((reader : ReaderValue) → slice_get self.now.list place ≡ Some reader → reader.row ≡ row) }
        ensures other { result ≡ false → (reader : ReaderValue) → slice_get self.now.list place ≡ Some reader → ¬ (reader.row ≡ row) }
    {
        match self.list.at(place) {
            Some(reader) => reader.row == row,
            None => false,
        }
    }
}

/// Whether the reader is of this row, and has read it.
fn has_read(reader: Reader, row: u32) -> bool
    ensures { result ≡ true → (reader.row ≡ row) × (reader.enrolled ≡ true) }
{
    reader.row == row && reader.enrolled
}

/// Whether a row stands among the reads.
#[tactic(auto, unfolding(crate::specs::Readers::stands_in))]
pub fn is_recorded(reads: &[Read], row: u32) -> bool
    ensures { result ≡ stands_in row (rows_read reads.now) }
{
    for read in reads {
        if read.row == row {
            return true;
        }
    }
    false
}
