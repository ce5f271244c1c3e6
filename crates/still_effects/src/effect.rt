//! The whole call on one effect.
ghost use Rattle.std.specs.Prelude.{◌≡◌, ◌≢◌, ◌+◌, ◌≤◌, ℕ, slice_get, Some, IfOk, OnOk, OnErr, true, false};
ghost use Rattle.values.specs.declared.plan.Kind.{Kind as KindValue};
ghost use Rattle.values.specs.declared.plan.PlanNode.{PlanNode as NodeValue};
ghost use Rattle.values.specs.Packing.{unpacked};
ghost use Rattle.values.specs.PlanValues.{plan_value};
ghost use Rattle.sources.specs.declared.opening.Opened.{Opened as OpenedValue};
ghost use Rattle.sources.specs.Colours.{is_clean};
ghost use Rattle.sources.specs.Rows.{value_in};
ghost use Rattle.still_readers.specs.Readers.{HasRead};
ghost use Rattle.still_rows.specs.Works.{IsStill, IsStepped, IsWorkOf, unclean_count};
ghost use Rattle.still_effects.specs.Effects.{IsEffect, IsDue, EndedAs, FullAs};

use crate::find::{Found, find_out};
use crate::run::run_under;
use sources::Opened;
use still_readers::Readers;
use still_rows::{Clock, Full, Work};
use values::{Code, Fact, Kind, PlanNode};
use work_order::Frame;

/// What the call on an effect came to.
#[derive(Clone, Copy, Debug, PartialEq, Eq)]
pub enum Effect {
    /// No run was needed.
    Same,
    /// It ran, with this value.
    Ran(Code),
}

/// The run of an effect of which a run is due. Its number is drawn first, and noted with Void. Once the
/// run is whole the entry says that it ran.
fn run_due(
    nodes: &[PlanNode],
    rows: &mut [Opened],
    readers: &mut Readers,
    clock: &mut Clock,
    work: &mut Work,
    frame: Frame,
) -> Result<Effect, Full>
    requires still { IsStill nodes.now rows.old readers.old clock.old }
    requires work { IsWorkOf nodes.now work.old }
    requires effect { IsEffect nodes.now frame.node }
    requires due { IsDue nodes.now rows.old frame.node frame }
    requires phase { clock.old.in_phase ≡ true }
    ensures work { IsWorkOf nodes.now work.new }
    ensures ended { IfOk result (λ effect. EndedAs nodes.now rows.old rows.new readers.old readers.new clock.old clock.new frame.node effect) }
    ensures stopped { OnErr result (FullAs nodes.now rows.old rows.new readers.old readers.new clock.old clock.new frame.node) }
    ensures full { OnErr result (65536 ≤ clock.new.drawn) }
{
    let row = frame.node;
    let place = clock.drawn;
    let version = clock.tick(Fact::Void { row })?;
    let code = run_under(nodes, rows, readers, clock, work, frame, version)?;
    clock.fill(place, Fact::Ran { row, code });
    Ok(Effect::Ran(code))
}

/// Brings one effect up to date in a phase. Where a run is due it draws its own number before the run.
/// After `Full` the effect is as it was, and not clean: there was no number for a source, or for itself.
pub fn run_effect(
    nodes: &[PlanNode],
    rows: &mut [Opened],
    readers: &mut Readers,
    clock: &mut Clock,
    work: &mut Work,
    node: u32,
) -> Result<Effect, Full>
    requires still { IsStill nodes.now rows.old readers.old clock.old }
    requires work { IsWorkOf nodes.now work.old }
    requires effect { IsEffect nodes.now node }
    requires phase { clock.old.in_phase ≡ true }
    ensures work { IsWorkOf nodes.now work.new }
    ensures still { IsStill nodes.now rows.new readers.new clock.new }
    ensures ended { IfOk result (λ effect. EndedAs nodes.now rows.old rows.new readers.old readers.new clock.old clock.new node effect) }
    ensures stopped { OnErr result (FullAs nodes.now rows.old rows.new readers.old readers.new clock.old clock.new node) }
    ensures clean { OnOk result ((row : OpenedValue) → slice_get rows.new node ≡ Some row →
        (is_clean row.colour ≡ true) × (unpacked row.code ≡ plan_value nodes.now (value_in rows.old) node)) }
    ensures unclean { OnErr result ((row : OpenedValue) → slice_get rows.new node ≡ Some row → is_clean row.colour ≡ false) }
    ensures unrun { OnErr result (slice_get rows.new node ≡ slice_get rows.old node) }
    ensures values { plan_value nodes.now (value_in rows.new) ≡ plan_value nodes.now (value_in rows.old) }
    ensures effects { (i : ℕ) (other : NodeValue) → slice_get nodes.now i ≡ Some other → other.kind ≡ Kind.Effect → i ≢ node →
        slice_get rows.new i ≡ slice_get rows.old i }
    ensures have_read { (m row : ℕ) → HasRead readers.old m row → HasRead readers.new m row }
    ensures base { clock.new.base ≡ clock.old.base }
    ensures phase { clock.new.in_phase ≡ true }
    ensures spent { OnOk result (clock.new.drawn + unclean_count rows.new ≤ clock.old.drawn + unclean_count rows.old) }
    ensures short { OnErr result (clock.new.drawn + unclean_count rows.new ≤ clock.old.drawn + unclean_count rows.old + 1) }
    ensures full { OnErr result (65536 ≤ clock.new.drawn) }
{
    match find_out(nodes, rows, readers, clock, work, node)? {
        Found::Same => Ok(Effect::Same),
        Found::Due(frame) => run_due(nodes, rows, readers, clock, work, frame),
    }
}
