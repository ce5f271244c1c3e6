//! Whether an effect needs a run.
ghost use Rattle.std.specs.Prelude.{◌≡◌, ◌<◌, ◌≤◌, slice_get, Some, IfOk, OnErr, false};
ghost use Rattle.sources.specs.declared.opening.Opened.{Opened as OpenedValue};
ghost use Rattle.sources.specs.Colours.{is_clean};
ghost use Rattle.still_rows.specs.Frames.{IsFrame};
ghost use Rattle.still_rows.specs.Works.{IsStill, IsStepped, IsWorkOf};
ghost use Rattle.still_effects.specs.Effects.{IsEffect, FoundAs, SearchedAs};

use sources::Opened;
use still_readers::Readers;
use still_rows::{Clock, Full, Moved, Work, advance, keep, refresh, row_at};
use values::PlanNode;
use work_order::{Due, Frame};

/// What was found of an effect.
#[derive(Clone, Copy, Debug)]
pub enum Found {
    /// No run is needed: it is clean.
    Same,
    /// A run is due, on this frame.
    Due(Frame),
}

/// One step on an effect of which no run is due as far as the work has come. The answer is the frame
/// that goes on, or none where the effect is kept.
fn step(
    nodes: &[PlanNode],
    rows: &mut [Opened],
    readers: &mut Readers,
    clock: &mut Clock,
    work: &mut Work,
    frame: Frame,
) -> Result<Option<Frame>, Full>
    requires still { IsStill nodes.now rows.old readers.old clock.old }
    requires work { IsWorkOf nodes.now work.old }
    requires effect { IsEffect nodes.now frame.node }
    requires frame { IsFrame nodes.now rows.old frame }
    requires not_due { frame.due ≡ Due.Not }
    ensures work { IsWorkOf nodes.now work.new }
    ensures searched { IfOk result (λ next. SearchedAs nodes.now rows.old rows.new readers.old readers.new clock.old clock.new frame next) }
    ensures stepped { OnErr result (IsStepped nodes.now rows.old rows.new readers.old readers.new clock.old clock.new) }
    ensures full { OnErr result (65536 ≤ clock.new.drawn) }
{
    match advance(nodes, rows, &mut work.reads, frame) {
        Moved::On(next) => Ok(Some(next)),
        Moved::Below(source) => {
            refresh(nodes, rows, readers, clock, work, source)?;
            Ok(Some(frame))
        }
        Moved::Keep => {
            keep(rows, frame.node);
            Ok(None)
        }
        Moved::Finish(_) => Ok(None),
    }
}

/// Finds whether an effect needs a run. A clean one needs none. Of one that ran the recorded sources
/// are brought up to date in their order, until one has another version: then a run is due. Where none
/// has, the effect is clean.
pub fn find_out(
    nodes: &[PlanNode],
    rows: &mut [Opened],
    readers: &mut Readers,
    clock: &mut Clock,
    work: &mut Work,
    node: u32,
) -> Result<Found, Full>
    requires still { IsStill nodes.now rows.old readers.old clock.old }
    requires work { IsWorkOf nodes.now work.old }
    requires effect { IsEffect nodes.now node }
    ensures work { IsWorkOf nodes.now work.new }
    ensures found { IfOk result (λ found. FoundAs nodes.now rows.old rows.new readers.old readers.new clock.old clock.new node found) }
    ensures stepped { OnErr result (IsStepped nodes.now rows.old rows.new readers.old readers.new clock.old clock.new) }
    ensures full { OnErr result (65536 ≤ clock.new.drawn) }
    ensures unclean { OnErr result ((row : OpenedValue) → slice_get rows.new node ≡ Some row → is_clean row.colour ≡ false) }
{
    let row = row_at(rows, node);
    if row.colour.is_clean() {
        return Ok(Found::Same);
    }
    let mut frame = Frame::new(node, row.body.cause);
    while frame.due == Due::Not {
        match step(nodes, rows, readers, clock, work, frame)? {
            Some(next) => frame = next,
            None => return Ok(Found::Same),
        }
    }
    Ok(Found::Due(frame))
}
