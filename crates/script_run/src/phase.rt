//! One phase of a run.
ghost use Rattle.std.specs.Prelude.{◌≡◌, ◌≤◌, ◌<◌, ◌+◌, ◌^◌, [], ℕ, length, take, OnOk};
ghost use Rattle.std.specs.Bool.{OnTrue};
ghost use Rattle.script_items.specs.KeptFor.{AllOps, NamesMembers};
ghost use Rattle.script_items.specs.Members.{members_of};
ghost use Rattle.component_items.specs.Kept.{IsKept};
ghost use Rattle.load_meaning.specs.Polls.{enough_rounds};
ghost use Rattle.phase_graph.specs.Graph.{ticks_of};
ghost use Rattle.script_run.specs.Ran.{GoesOn, LoaderCounts};
ghost use Rattle.script_run.specs.Today.{RunsToday};

use crate::run::Ran;
use outside::{Gate, Loader};
use phase_run::{answers_behind, make_phase, put_lines, tell_edits};
use script_items::Script;
use settling_rounds::settle_rounds;
use std::alloc::Global;
use still_graph::Still;
use values::NoMemory;

/// Runs the phase behind as many as were run before: opens it, makes its operations, ends and settles it, tells its edits
/// what came of them, and adds its lines where they are asked for.
pub(crate) fn run_phase<L: Loader, G: Gate>(
    ran: &mut Ran,
    alloc: Global,
    script: &Script,
    before: u32,
    asked: bool,
    rounds: u32,
    loader: &mut L,
    gate: &G,
) -> Result<(), NoMemory>
    requires within { before < length script.now }
    requires few { length script.now ≤ 64 }
    requires named { AllOps (NamesMembers (members_of ran.old.still.component.items)) script.now }
    requires today { RunsToday script.now }
    requires kept { IsKept ran.old.still.component }
    requires rounds { 1 ≤ rounds }
    requires ticks { ticks_of ran.old.still.graph < 2 ^ 60 }
    requires so_far { (counts : LoaderCounts) × GoesOn ran.old.still.component (take before script.now) asked rounds counts ran.old }
    ensures component { OnOk result (ran.new.still.component ≡ ran.old.still.component) }
    ensures ticks { OnOk result (ticks_of ran.new.still.graph ≤ ticks_of ran.old.still.graph + 2 ^ 47) }
    ensures goes_on { OnOk result ((faults not_yets : ℕ) → GoesOn ran.old.still.component (take before script.now) asked rounds (record { faults = faults; faults_after = L.faults loader.old; not_yets = not_yets; not_yets_after = L.not_yets loader.old }) ran.old
        → GoesOn ran.old.still.component (take (before + 1) script.now) asked rounds (record { faults = faults; faults_after = L.faults loader.new; not_yets = not_yets; not_yets_after = L.not_yets loader.new }) ran.new) }
    ensures prompt { OnTrue L.is_prompt (enough_rounds ran.old.still.component ≤ rounds → OnOk result (ran.new.pending ≡ [])) }
{
    let phase = before + 1;
    let first = ran.answers.len();
    make_phase(&mut ran.still, alloc, script, phase, gate, &mut ran.answers)?;
    ran.pending = settle_rounds(&mut ran.still, alloc, loader, rounds)?;
    tell_edits(&ran.still, &mut ran.answers, first);
    let answers = answers_behind(&ran.answers, first);
    put_lines(&mut ran.report, asked, &ran.still, phase, answers)?;
    Ok(())
}
