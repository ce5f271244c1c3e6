//! The moves on one frame.
ghost use Rattle.std.specs.Prelude.{◌≡◌, ◌<◌, ◌≤◌, ℕ, length, slice_get, Some, IfSome, IfNone, false, true, ◌++◌, ◌∷◌, []};
ghost use Rattle.values.specs.declared.code.Code.{Code as CodeValue};
ghost use Rattle.values.specs.declared.plan.PlanNode.{PlanNode as NodeValue};
ghost use Rattle.values.specs.Attempt.{tried_of};
ghost use Rattle.values.specs.Evaluation.{reads_of, value_of};
ghost use Rattle.values.specs.PlanValues.{plan_value};
ghost use Rattle.values.specs.Reserved.{room_of};
ghost use Rattle.sources.specs.declared.opening.Opened.{Opened as OpenedValue};
ghost use Rattle.sources.specs.Bodies.{rows_read};
ghost use Rattle.sources.specs.Rows.{IsGood, value_in};
ghost use Rattle.sources.specs.declared.body.Read.{Read as ReadValue};
ghost use Rattle.work_order.specs.Order.{compared_frame, is_run};
ghost use Rattle.work_order.specs.declared.order.Next.TheVariants as next;
ghost use Rattle.still_rows.specs.Frames.{AreLawful, IsFrame};
ghost use Rattle.still_rows.specs.Shown.{shown, HasRoom, IsFresh};
ghost use Rattle.still_rows.specs.Moves.{Says, MovesTo, IsLook, IsLed, IsStopped};

use crate::evaluating::evaluate;
use sources::{Colour, Opened, Read, Reads};
use values::{Code, PlanNode, Tried};
use work_order::{Due, Frame, Next, next_on};

/// What a move on a frame came to.
#[derive(Clone, Copy, Debug)]
pub enum Moved {
    /// The frame goes on.
    On(Frame),
    /// This source comes first.
    Below(u32),
    /// No recorded source differs.
    Keep,
    /// The run is whole, with this value.
    Finish(Code),
}

pub(crate) fn node_at(nodes: &[PlanNode], at: u32) -> &PlanNode
    requires { at < length nodes.now }
    ensures { slice_get nodes.now at ≡ Some result.now }
{
    &nodes[at as usize]
}

/// The row at a number.
pub fn row_at(rows: &[Opened], at: u32) -> &Opened
    requires { at < length rows.now }
    ensures { slice_get rows.now at ≡ Some result.now }
{
    &rows[at as usize]
}

pub(crate) fn read_at(reads: &[Read], at: usize) -> Read
    requires { at < length reads.now }
    ensures { slice_get reads.now at ≡ Some result }
{
    reads[at]
}

/// How far a run comes over the rows. Where the frame is not of a run nothing is evaluated, and the
/// answer doesn't count.
fn try_run(
    nodes: &[PlanNode],
    rows: &[Opened],
    reads: &mut Reads,
    node: &PlanNode,
    frame: Frame,
) -> Tried
    requires lawful { AreLawful nodes.now }
    requires good { IsGood nodes.now rows.now }
    requires node { slice_get nodes.now frame.node ≡ Some node.now }
    requires room { HasRoom nodes.now reads.old }
    ensures room { room_of reads.new ≡ room_of reads.old }
    ensures tried { is_run frame ≡ true → result ≡ tried_of node.now.expr (shown rows.now) (plan_value nodes.now (value_in rows.now)) }
    ensures reads { is_run frame ≡ true → (code : CodeValue) → result ≡ Tried.Done code →
        rows_read reads.new.list ≡ reads_of node.now.expr (plan_value nodes.now (value_in rows.now)) }
    ensures fresh { is_run frame ≡ true → (code : CodeValue) → result ≡ Tried.Done code → IsFresh rows.now reads.new.list }
{
    if !frame.is_run() {
        return Tried::Needs(frame.node);
    }
    reads.clear();
    match evaluate(&node.expr, rows, reads) {
        Ok(code) => Tried::Done(code),
        Err(missing) => Tried::Needs(missing.row),
    }
}

/// What is next on a frame.
pub(crate) fn next_of_frame(
    nodes: &[PlanNode],
    rows: &[Opened],
    reads: &mut Reads,
    node: &PlanNode,
    row: &Opened,
    frame: Frame,
) -> Next
    requires lawful { AreLawful nodes.now }
    requires good { IsGood nodes.now rows.now }
    requires frame { IsFrame nodes.now rows.now frame }
    requires node { slice_get nodes.now frame.node ≡ Some node.now }
    requires row { slice_get rows.now frame.node ≡ Some row.now }
    requires room { HasRoom nodes.now reads.old }
    ensures room { room_of reads.new ≡ room_of reads.old }
    ensures says { Says nodes.now rows.now node.now row.now frame reads.new.list result }
{
    let tried = try_run(nodes, rows, reads, node, frame);
    next_on(row.colour, row.body.reads.as_slice(), frame, tried)
}

/// The frame once the recorded source at its place is compared.
fn looked(row: &Opened, frame: Frame, source: &Opened) -> Frame
    requires { frame.at < length row.now.body.reads.list }
    ensures { (read : ReadValue) → slice_get row.now.body.reads.list frame.at ≡ Some read →
        result ≡ compared_frame frame read.version source.now.version }
{
    let read = read_at(row.body.reads.as_slice(), frame.at);
    frame.compared(read.version, source.version)
}

/// The recorded source at the frame's place is compared.
fn look(
    _nodes: &[PlanNode],
    _rows: &[Opened],
    _node: &PlanNode,
    row: &Opened,
    _reads: &Reads,
    frame: Frame,
    source: &Opened,
) -> Frame
    requires good { IsGood _nodes.now _rows.now }
    requires frame { IsFrame _nodes.now _rows.now frame }
    requires node { slice_get _nodes.now frame.node ≡ Some _node.now }
    requires row { slice_get _rows.now frame.node ≡ Some row.now }
    requires look { IsLook _rows.now row.now frame source.now }
    ensures { MovesTo _nodes.now _rows.now _node.now row.now frame _reads.now.list (Moved.On result) }
{
    looked(row, frame, source)
}

/// A recorded source is compared as it is.
fn compare(
    nodes: &[PlanNode],
    rows: &[Opened],
    node: &PlanNode,
    row: &Opened,
    reads: &Reads,
    frame: Frame,
    at: usize,
) -> Frame
    requires good { IsGood nodes.now rows.now }
    requires frame { IsFrame nodes.now rows.now frame }
    requires node { slice_get nodes.now frame.node ≡ Some node.now }
    requires row { slice_get rows.now frame.node ≡ Some row.now }
    requires says { Says nodes.now rows.now node.now row.now frame reads.now.list (next.Compare at) }
    ensures { MovesTo nodes.now rows.now node.now row.now frame reads.now.list (Moved.On result) }
{
    let read = read_at(row.body.reads.as_slice(), at);
    let source = row_at(rows, read.row);
    look(nodes, rows, node, row, reads, frame, source)
}

fn clear(
    _nodes: &[PlanNode],
    _rows: &[Opened],
    _node: &PlanNode,
    _row: &Opened,
    _reads: &Reads,
    frame: Frame,
) -> Frame
    requires frame { IsFrame _nodes.now _rows.now frame }
    requires node { slice_get _nodes.now frame.node ≡ Some _node.now }
    requires row { slice_get _rows.now frame.node ≡ Some _row.now }
    requires says { frame.cleared ≡ false }
    ensures { MovesTo _nodes.now _rows.now _node.now _row.now frame _reads.now.list (Moved.On result) }
{
    frame.cleared()
}

/// A source is checked, or is to be brought up to date first.
fn check(
    nodes: &[PlanNode],
    rows: &[Opened],
    node: &PlanNode,
    row: &Opened,
    reads: &Reads,
    frame: Frame,
    from: u32,
) -> Moved
    requires lawful { AreLawful nodes.now }
    requires good { IsGood nodes.now rows.now }
    requires frame { IsFrame nodes.now rows.now frame }
    requires node { slice_get nodes.now frame.node ≡ Some node.now }
    requires row { slice_get rows.now frame.node ≡ Some row.now }
    requires says { Says nodes.now rows.now node.now row.now frame reads.now.list (next.Check from) }
    ensures { MovesTo nodes.now rows.now node.now row.now frame reads.now.list result }
{
    let source = row_at(rows, from);
    if !source.colour.is_clean() {
        return Moved::Below(from);
    }
    Moved::On(look(nodes, rows, node, row, reads, frame, source))
}

/// The next step on a frame, by the order of work, made where it writes no row.
pub fn advance(nodes: &[PlanNode], rows: &[Opened], reads: &mut Reads, frame: Frame) -> Moved
    requires lawful { AreLawful nodes.now }
    requires good { IsGood nodes.now rows.now }
    requires frame { IsFrame nodes.now rows.now frame }
    requires room { HasRoom nodes.now reads.old }
    ensures room { room_of reads.new ≡ room_of reads.old }
    ensures moved { (node : NodeValue) (row : OpenedValue) → slice_get nodes.now frame.node ≡ Some node →
        slice_get rows.now frame.node ≡ Some row → MovesTo nodes.now rows.now node row frame reads.new.list result }
{
    let node = node_at(nodes, frame.node);
    let row = row_at(rows, frame.node);
    match next_of_frame(nodes, rows, reads, node, row, frame) {
        Next::Answer => Moved::Keep,
        Next::Compare(at) => Moved::On(compare(nodes, rows, node, row, reads, frame, at)),
        Next::Clear => Moved::On(clear(nodes, rows, node, row, reads, frame)),
        Next::Check(from) => check(nodes, rows, node, row, reads, frame, from),
        Next::Read(from) => Moved::Below(from),
        Next::Keep => Moved::Keep,
        Next::Finish(code) => Moved::Finish(code),
    }
}

/// The recorded source at the frame's place, as long as no run is due.
fn recorded_next(row: &Opened, frame: Frame) -> Option<Read>
    ensures some { IfSome result (λ read. (frame.due ≡ Due.Not) × (slice_get row.now.body.reads.list frame.at ≡ Some read)) }
    ensures none { IfNone result (frame.due ≡ Due.Not → length row.now.body.reads.list ≤ frame.at) }
{
    match frame.due {
        Due::Not => row.body.reads.as_slice().get(frame.at).copied(),
        Due::First | Due::Differs => None,
    }
}

/// The recorded sources of a dirty node are compared as they are, in order, up to the first that
/// differs.
fn compare_all(
    _nodes: &[PlanNode],
    rows: &[Opened],
    _node: &PlanNode,
    row: &Opened,
    mut frame: Frame,
) -> Frame
    requires good { IsGood _nodes.now rows.now }
    requires frame { IsFrame _nodes.now rows.now frame }
    requires node { slice_get _nodes.now frame.node ≡ Some _node.now }
    requires row { slice_get rows.now frame.node ≡ Some row.now }
    requires dirty { row.now.colour ≡ Colour.Dirty }
    requires begun { frame.cleared ≡ false }
    ensures led { IsLed _nodes.now rows.now row.now frame result }
    ensures begun { result.cleared ≡ false }
    ensures all { result.due ≡ Due.Not → length row.now.body.reads.list ≤ result.at }
{
    while let Some(read) = recorded_next(row, frame) {
        let source = row_at(rows, read.row);
        frame = looked(row, frame, source);
    }
    frame
}

/// The work on a node up to where it is cleared.
fn clear_first(
    _nodes: &[PlanNode],
    rows: &[Opened],
    _node: &PlanNode,
    row: &Opened,
    frame: Frame,
) -> Frame
    requires good { IsGood _nodes.now rows.now }
    requires frame { IsFrame _nodes.now rows.now frame }
    requires node { slice_get _nodes.now frame.node ≡ Some _node.now }
    requires row { slice_get rows.now frame.node ≡ Some row.now }
    requires begun { frame.cleared ≡ false }
    ensures led { IsLed _nodes.now rows.now row.now frame result }
    ensures cleared { result.cleared ≡ true }
{
    match row.colour {
        Colour::Dirty => compare_all(_nodes, rows, _node, row, frame).cleared(),
        Colour::Check => frame.cleared(),
        Colour::Clean => frame.cleared(),
    }
}

/// The node is cleared, where it isn't yet.
#[tactic(auto, using(crate::proofs::LedLemmas::led_start))]
fn begin(
    _nodes: &[PlanNode],
    rows: &[Opened],
    _node: &PlanNode,
    row: &Opened,
    frame: Frame,
) -> Frame
    requires good { IsGood _nodes.now rows.now }
    requires frame { IsFrame _nodes.now rows.now frame }
    requires node { slice_get _nodes.now frame.node ≡ Some _node.now }
    requires row { slice_get rows.now frame.node ≡ Some row.now }
    ensures led { IsLed _nodes.now rows.now row.now frame result }
    ensures cleared { result.cleared ≡ true }
{
    if frame.cleared {
        return frame;
    }
    clear_first(_nodes, rows, _node, row, frame)
}

/// A check over the recorded sources that are clean, in order, up to the first that differs or is not
/// clean.
fn check_all(
    _nodes: &[PlanNode],
    rows: &[Opened],
    _node: &PlanNode,
    row: &Opened,
    mut frame: Frame,
) -> Frame
    requires good { IsGood _nodes.now rows.now }
    requires frame { IsFrame _nodes.now rows.now frame }
    requires node { slice_get _nodes.now frame.node ≡ Some _node.now }
    requires row { slice_get rows.now frame.node ≡ Some row.now }
    requires cleared { frame.cleared ≡ true }
    ensures led { IsLed _nodes.now rows.now row.now frame result }
    ensures cleared { result.cleared ≡ true }
    ensures stopped { IsStopped rows.now row.now result }
{
    while let Some(read) = recorded_next(row, frame) {
        let source = row_at(rows, read.row);
        if !source.colour.is_clean() {
            return frame;
        }
        frame = looked(row, frame, source);
    }
    frame
}

/// The steps on a frame that write no row, by the order of work: where the node is not cleared yet it
/// is cleared, and then the sources that are clean are checked, up to the first that differs or is not
/// clean. It is compiled into `go_on`, so that the frame stays out of memory.
#[inline(always)]
pub(crate) fn lead(
    _nodes: &[PlanNode],
    rows: &[Opened],
    _node: &PlanNode,
    row: &Opened,
    frame: Frame,
) -> Frame
    requires good { IsGood _nodes.now rows.now }
    requires frame { IsFrame _nodes.now rows.now frame }
    requires node { slice_get _nodes.now frame.node ≡ Some _node.now }
    requires row { slice_get rows.now frame.node ≡ Some row.now }
    ensures led { IsLed _nodes.now rows.now row.now frame result }
    ensures cleared { result.cleared ≡ true }
    ensures stopped { IsStopped rows.now row.now result }
{
    let begun = begin(_nodes, rows, _node, row, frame);
    check_all(_nodes, rows, _node, row, begun)
}
