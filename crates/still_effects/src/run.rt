//! The run of an effect, under a number that it has already.
ghost use Rattle.std.specs.Prelude.{◌≡◌, ◌<◌, ◌≤◌, slice_get, Some, IfOk, OnErr, true};
ghost use Rattle.sources.specs.declared.opening.Opened.{Opened as OpenedValue};
ghost use Rattle.work_order.specs.Order.{is_due};
ghost use Rattle.still_rows.specs.Clock.{now_of};
ghost use Rattle.still_rows.specs.Frames.{IsFrame};
ghost use Rattle.still_rows.specs.Works.{IsStill, IsStepped, IsWorkOf, HasUncleanMemo};
ghost use Rattle.still_effects.specs.Effects.{IsEffect, IsDue, IsRunUnder, TurnedAs};

use sources::Opened;
use still_readers::Readers;
use still_rows::{Clock, Ended, Full, Work, go_on, record_run, refresh};
use values::{Code, PlanNode};
use work_order::Frame;

/// One turn of a run: a source is brought up to date, or the run is whole. The answer is its value then.
fn turn(
    nodes: &[PlanNode],
    rows: &mut [Opened],
    readers: &mut Readers,
    clock: &mut Clock,
    work: &mut Work,
    frame: Frame,
    version: u64,
) -> Result<Option<Code>, Full>
    requires still { IsStill nodes.now rows.old readers.old clock.old }
    requires work { IsWorkOf nodes.now work.old }
    requires effect { IsEffect nodes.now frame.node }
    requires due { IsDue nodes.now rows.old frame.node frame }
    requires drawn { version ≤ now_of clock.old }
    requires newer { (row : OpenedValue) → slice_get rows.old frame.node ≡ Some row → row.version < version }
    ensures work { IsWorkOf nodes.now work.new }
    ensures turned { IfOk result (λ code. TurnedAs nodes.now rows.old rows.new readers.old readers.new clock.old clock.new frame.node version code) }
    ensures stepped { OnErr result (IsStepped nodes.now rows.old rows.new readers.old readers.new clock.old clock.new) }
    ensures full { OnErr result (65536 ≤ clock.new.drawn) }
    ensures left { OnErr result (HasUncleanMemo nodes.now rows.new) }
{
    let gone = go_on(nodes, rows, &mut work.reads, frame);
    match gone.ended {
        Ended::Below(source) => {
            refresh(nodes, rows, readers, clock, work, source)?;
            Ok(None)
        }
        Ended::Keep => Ok(None),
        Ended::Finish(code) => {
            record_run(rows, readers, &work.reads, gone.frame, code, version);
            Ok(Some(code))
        }
    }
}

/// Runs an effect under a version that was drawn for it. What it reads is brought up to date first. The
/// answer is its value. After `Full` its row is as it was.
pub fn run_under(
    nodes: &[PlanNode],
    rows: &mut [Opened],
    readers: &mut Readers,
    clock: &mut Clock,
    work: &mut Work,
    frame: Frame,
    version: u64,
) -> Result<Code, Full>
    requires still { IsStill nodes.now rows.old readers.old clock.old }
    requires work { IsWorkOf nodes.now work.old }
    requires effect { IsEffect nodes.now frame.node }
    requires due { IsDue nodes.now rows.old frame.node frame }
    requires drawn { version ≤ now_of clock.old }
    requires newer { (row : OpenedValue) → slice_get rows.old frame.node ≡ Some row → row.version < version }
    ensures work { IsWorkOf nodes.now work.new }
    ensures run { IfOk result (λ code. IsRunUnder nodes.now rows.old rows.new readers.old readers.new clock.old clock.new frame.node code version) }
    ensures stepped { OnErr result (IsStepped nodes.now rows.old rows.new readers.old readers.new clock.old clock.new) }
    ensures full { OnErr result (65536 ≤ clock.new.drawn) }
    ensures left { OnErr result (HasUncleanMemo nodes.now rows.new) }
{
    loop {
        match turn(nodes, rows, readers, clock, work, frame, version)? {
            Some(code) => return Ok(code),
            None => {}
        }
    }
}
