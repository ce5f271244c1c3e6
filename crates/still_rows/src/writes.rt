//! What ends the work on a node.
ghost use Rattle.std.specs.Prelude.{◌≡◌, ◌≢◌, ◌<◌, ◌≤◌, ◌+◌, length, slice_get, slice_set, Some, true, ℕ, IfOk, OnErr, OnOk, MatchResult};
ghost use Rattle.values.specs.Packing.{IsPacked};
ghost use Rattle.values.specs.Reserved.{room_of};
ghost use Rattle.sources.specs.declared.opening.Opened.{Opened as OpenedValue};
ghost use Rattle.sources.specs.declared.body.Read.{Read as ReadValue};
ghost use Rattle.work_order.specs.Order.{is_due};
ghost use Rattle.still_rows.specs.Frames.{IsGoing};
ghost use Rattle.still_rows.specs.Clock.{IsClock, IsVersioned};
ghost use Rattle.still_rows.specs.Since.{kept_row};
ghost use Rattle.still_rows.specs.Ends.{IsCauseOf, IsPut, IsEnrolledFor, IsRunRecorded, IsFinished, IsRunnable};

use crate::clock::{Clock, Full};
use crate::moves::{read_at, row_at};
use sources::{Cause, Colour, Opened, Read, Reads};
use still_readers::Readers;
use values::{Code, Fact};
use work_order::{Due, Frame, needs_number};

/// The version of a memo that ends with this value: a new one exactly where the value differs.
fn version_for(clock: &mut Clock, node: u32, row: &Opened, code: Code) -> Result<u64, Full>
    requires clock { IsClock clock.old }
    requires is_packed { IsPacked row.now.code }
    ensures versioned { IfOk result (λ version. IsVersioned clock.old clock.new node row.now code version) }
    ensures clock { IsClock clock.new }
    ensures full { OnErr result (65536 ≤ clock.old.drawn) }
    ensures unchanged { OnErr result (clock.new ≡ clock.old) }
{
    if !needs_number(row.code, code) {
        return Ok(row.version);
    }
    clock.tick(Fact::Change { row: node, code })
}

/// A check found nothing changed.
pub fn keep(rows: &mut [Opened], node: u32)
    requires { node < length rows.old }
    ensures { (row : OpenedValue) → slice_get rows.old node ≡ Some row → rows.new ≡ slice_set rows.old node (kept_row row) }
{
    let row = &mut rows[node as usize];
    row.colour = Colour::Clean;
}

/// Why the node runs.
fn cause_of(rows: &[Opened], row: &Opened, frame: Frame) -> Cause
    requires going { IsGoing rows.now row.now frame.cleared frame.at frame.due }
    requires due { is_due frame.due ≡ true }
    requires within { (read : ReadValue) → slice_get row.now.body.reads.list frame.at ≡ Some read → read.row < length rows.now }
    ensures { IsCauseOf rows.now row.now frame.at result }
{
    match frame.due {
        Due::Not | Due::First => Cause::First,
        Due::Differs => changed(rows, row.body.reads.as_slice(), frame.at),
    }
}

/// The recorded source at a place has another version.
fn changed(rows: &[Opened], recorded: &[Read], at: usize) -> Cause
    requires place { at < length recorded.now }
    requires within { (read : ReadValue) → slice_get recorded.now at ≡ Some read → read.row < length rows.now }
    ensures { (read : ReadValue) (source : OpenedValue) → slice_get recorded.now at ≡ Some read → slice_get rows.now read.row ≡ Some source →
        result ≡ Cause.Changed read.row read.version source.version }
{
    let read = read_at(recorded, at);
    let source = row_at(rows, read.row);
    Cause::Changed {
        source: read.row,
        old: read.version,
        new: source.version,
    }
}

/// The node has read these rows.
fn enrol_all(readers: &mut Readers, node: u32, reads: &[Read])
    ensures { IsEnrolledFor node reads.now (length reads.now) readers.old readers.new }
{
    for place in 0..reads.len() {
        let read = read_at(reads, place);
        readers.enrol_read(node, read.row, place);
    }
}

fn put(rows: &mut [Opened], node: u32, cause: Cause, code: u64, version: u64, reads: &[Read])
    requires node { node < length rows.old }
    requires room { (row : OpenedValue) → slice_get rows.old node ≡ Some row → length reads.now ≤ room_of row.body.reads }
    ensures { (row : OpenedValue) → slice_get rows.old node ≡ Some row → IsPut rows.old rows.new node row cause code version reads.now }
{
    let row = &mut rows[node as usize];
    row.body.replace(cause, reads);
    row.code = code;
    row.version = version;
    row.colour = Colour::Clean;
}

/// A run is whole, with these reads and this version: its row has them, with its cause, and its node
/// has read the rows. It is compiled into its callers, as `go_on` is.
#[inline(always)]
pub fn record_run(
    rows: &mut [Opened],
    readers: &mut Readers,
    reads: &Reads,
    frame: Frame,
    code: Code,
    version: u64,
)
    requires node { frame.node < length rows.old }
    requires due { is_due frame.due ≡ true }
    requires row { (row : OpenedValue) → slice_get rows.old frame.node ≡ Some row → IsRunnable rows.old row frame reads.now.list }
    ensures { (row : OpenedValue) → slice_get rows.old frame.node ≡ Some row →
        IsRunRecorded rows.old rows.new readers.old readers.new frame code version reads.now.list row }
{
    let cause = cause_of(rows, row_at(rows, frame.node), frame);
    enrol_all(readers, frame.node, reads.as_slice());
    put(
        rows,
        frame.node,
        cause,
        code.pack(),
        version,
        reads.as_slice(),
    );
}

/// A run is whole, with these reads. Its number is drawn first; where there is none left, nothing is
/// written.
pub(crate) fn finish(
    rows: &mut [Opened],
    readers: &mut Readers,
    clock: &mut Clock,
    reads: &Reads,
    frame: Frame,
    code: Code,
) -> Result<(), Full>
    requires clock { IsClock clock.old }
    requires node { frame.node < length rows.old }
    requires due { is_due frame.due ≡ true }
    requires row { (row : OpenedValue) → slice_get rows.old frame.node ≡ Some row → IsRunnable rows.old row frame reads.now.list }
    ensures finished { OnOk result ((row : OpenedValue) → slice_get rows.old frame.node ≡ Some row →
        IsFinished rows.old rows.new readers.old readers.new clock.old clock.new frame code reads.now.list row) }
    ensures clock { IsClock clock.new }
    ensures full { OnErr result (65536 ≤ clock.old.drawn) }
    ensures rows { OnErr result (rows.new ≡ rows.old) }
    ensures readers { OnErr result (readers.new ≡ readers.old) }
    ensures unchanged { OnErr result (clock.new ≡ clock.old) }
{
    let row = row_at(rows, frame.node);
    let version = version_for(clock, frame.node, row, code)?;
    record_run(rows, readers, reads, frame, code, version);
    Ok(())
}
