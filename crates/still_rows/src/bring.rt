//! Bringing a memo up to date.
ghost use Rattle.std.specs.Prelude.{◌≡◌, ◌<◌, ◌≤◌, ◌+◌, ◌∷◌, [], length, slice_get, Some, None, IfOk, OnOk, OnErr, false, true};
ghost use Rattle.values.specs.declared.plan.PlanNode.{PlanNode as NodeValue};
ghost use Rattle.values.specs.Reserved.{room_of};
ghost use Rattle.sources.specs.declared.opening.Opened.{Opened as OpenedValue};
ghost use Rattle.sources.specs.Colours.{is_clean};
ghost use Rattle.sources.specs.Rows.{IsGood};
ghost use Rattle.work_order.specs.Order.{first_frame};
ghost use Rattle.still_rows.specs.Frames.{AreLawful, IsFrame, IsMemo};
ghost use Rattle.still_rows.specs.Moves.{LeadsTo, IsStopped};
ghost use Rattle.still_rows.specs.Shown.{HasRoom};
ghost use Rattle.still_rows.specs.Works.{IsStack, IsStill, IsStepped, IsOnward, StayPast, unclean_count, HasUncleanMemo, work_of, EndsAs, with_top};

use crate::clock::{Clock, Full};
use crate::moves::{lead, next_of_frame, node_at, row_at};
use crate::stack::Stack;
use crate::writes::{finish, keep};
use sources::{Opened, Reads};
use still_readers::Readers;
use values::{Code, PlanNode};
use work_order::{Frame, Next};

/// How the work on one frame ends for now.
#[derive(Clone, Copy, Debug)]
pub enum Ended {
    /// This source comes first.
    Below(u32),
    /// No recorded source differs.
    Keep,
    /// The run is whole, with this value.
    Finish(Code),
}

/// A frame that went on, and how its work ends for now.
#[derive(Clone, Copy, Debug)]
pub struct Gone {
    pub frame: Frame,
    pub ended: Ended,
}

/// How the work on a frame ends for now, where the order of work leads no further without a write.
fn end(
    nodes: &[PlanNode],
    rows: &[Opened],
    reads: &mut Reads,
    node: &PlanNode,
    row: &Opened,
    frame: Frame,
) -> Ended
    requires lawful { AreLawful nodes.now }
    requires good { IsGood nodes.now rows.now }
    requires frame { IsFrame nodes.now rows.now frame }
    requires node { slice_get nodes.now frame.node ≡ Some node.now }
    requires row { slice_get rows.now frame.node ≡ Some row.now }
    requires cleared { frame.cleared ≡ true }
    requires stopped { IsStopped rows.now row.now frame }
    requires room { HasRoom nodes.now reads.old }
    ensures room { room_of reads.new ≡ room_of reads.old }
    ensures ended { EndsAs nodes.now rows.now node.now row.now frame reads.new.list result }
{
    match next_of_frame(nodes, rows, reads, node, row, frame) {
        Next::Answer => Ended::Keep,
        Next::Compare(_) => Ended::Keep,
        Next::Clear => Ended::Keep,
        Next::Check(from) => Ended::Below(from),
        Next::Read(from) => Ended::Below(from),
        Next::Keep => Ended::Keep,
        Next::Finish(code) => Ended::Finish(code),
    }
}

/// The work on one frame by the order of work, until a source comes first or the node is done. It is
/// compiled into the loops that call it, so that the frame stays out of memory.
#[inline(always)]
pub fn go_on(nodes: &[PlanNode], rows: &[Opened], reads: &mut Reads, frame: Frame) -> Gone
    requires lawful { AreLawful nodes.now }
    requires good { IsGood nodes.now rows.now }
    requires frame { IsFrame nodes.now rows.now frame }
    requires room { HasRoom nodes.now reads.old }
    ensures room { room_of reads.new ≡ room_of reads.old }
    ensures node { result.frame.node ≡ frame.node }
    ensures frame { IsFrame nodes.now rows.now result.frame }
    ensures steps { (row : OpenedValue) → slice_get rows.now frame.node ≡ Some row → LeadsTo rows.now row frame result.frame }
    ensures less { work_of (slice_get rows.now frame.node) result.frame ≤ work_of (slice_get rows.now frame.node) frame }
    ensures ended { (node : NodeValue) (row : OpenedValue) → slice_get nodes.now result.frame.node ≡ Some node →
        slice_get rows.now result.frame.node ≡ Some row → EndsAs nodes.now rows.now node row result.frame reads.new.list result.ended }
{
    let node = node_at(nodes, frame.node);
    let row = row_at(rows, frame.node);
    let led = lead(nodes, rows, node, row, frame);
    let ended = end(nodes, rows, reads, node, row, led);
    Gone { frame: led, ended }
}

/// One turn of the top frame: it goes on until a source comes first, or until its row is written. The
/// answer is the frame that is on top then, if there is one; the others lie on the stack.
#[inline(always)]
fn turn(
    nodes: &[PlanNode],
    rows: &mut [Opened],
    readers: &mut Readers,
    clock: &mut Clock,
    frames: &mut Stack<Frame>,
    reads: &mut Reads,
    frame: Frame,
    _root: u32,
) -> Result<Option<Frame>, Full>
    requires still { IsStill nodes.now rows.old readers.old clock.old }
    requires within { _root < length nodes.now }
    requires stack { IsStack nodes.now rows.old _root (frame ∷ frames.old) }
    requires room { HasRoom nodes.now reads.old }
    ensures room { room_of reads.new ≡ room_of reads.old }
    ensures stepped { IsStepped nodes.now rows.old rows.new readers.old readers.new clock.old clock.new }
    ensures past { StayPast _root rows.old rows.new }
    ensures onward { IfOk result (λ top. IsOnward nodes.now rows.old rows.new _root (frame ∷ frames.old) (with_top top frames.new)) }
    ensures ended { IfOk result (λ top. top ≡ None → frames.new ≡ []) }
    ensures full { OnErr result (65536 ≤ clock.new.drawn) }
    ensures left { OnErr result (0 < unclean_count rows.new) }
    ensures memo_left { OnErr result (HasUncleanMemo nodes.now rows.new) }
{
    let gone = go_on(nodes, rows, reads, frame);
    match gone.ended {
        Ended::Below(source) => {
            let first = Frame::new(source, row_at(rows, source).body.cause);
            frames.push(gone.frame);
            Ok(Some(first))
        }
        Ended::Keep => {
            keep(rows, gone.frame.node);
            Ok(frames.pop())
        }
        Ended::Finish(code) => {
            finish(rows, readers, clock, reads, gone.frame, code)?;
            Ok(frames.pop())
        }
    }
}

/// Brings a memo that is not clean up to date, by the order of work. It takes no memory. After `Full`
/// all rows are good: a run whose number is above the last has written nothing, and its row is not clean.
pub fn bring_up(
    nodes: &[PlanNode],
    rows: &mut [Opened],
    readers: &mut Readers,
    clock: &mut Clock,
    frames: &mut Stack<Frame>,
    reads: &mut Reads,
    root: u32,
) -> Result<(), Full>
    requires still { IsStill nodes.now rows.old readers.old clock.old }
    requires within { root < length nodes.now }
    requires memo { IsMemo nodes.now root }
    requires unclean { (row : OpenedValue) → slice_get rows.old root ≡ Some row → is_clean row.colour ≡ false }
    requires room { HasRoom nodes.now reads.old }
    ensures room { room_of reads.new ≡ room_of reads.old }
    ensures stepped { IsStepped nodes.now rows.old rows.new readers.old readers.new clock.old clock.new }
    ensures past { StayPast root rows.old rows.new }
    ensures clean { OnOk result ((row : OpenedValue) → slice_get rows.new root ≡ Some row → is_clean row.colour ≡ true) }
    ensures full { OnErr result (65536 ≤ clock.new.drawn) }
    ensures left { OnErr result (0 < unclean_count rows.new) }
    ensures memo_left { OnErr result (HasUncleanMemo nodes.now rows.new) }
{
    frames.clear();
    let mut top = Some(Frame::new(root, row_at(rows, root).body.cause));
    while let Some(frame) = top {
        top = turn(nodes, rows, readers, clock, frames, reads, frame, root)?;
    }
    Ok(())
}
