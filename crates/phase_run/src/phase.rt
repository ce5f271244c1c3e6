//! One phase: its operations, its answers and its lines.
ghost use Rattle.std.specs.Prelude.{◌≡◌, ◌≤◌, ◌<◌, ◌+◌, ◌^◌, ◌∷◌, ◌++◌, [], suc, All, List, length, drop, OnOk, if◌then◌else◌};
ghost use Rattle.script_items.specs.KeptFor.{NamesMembers};
ghost use Rattle.script_items.specs.Members.{members_of};
ghost use Rattle.component_items.specs.Kept.{IsKept};
ghost use Rattle.plain_evaluation.specs.Fits.{Fits};
ghost use Rattle.plan_meaning.specs.Owners.{plan_owners};
ghost use Rattle.run_history.specs.History.{PastFits};
ghost use Rattle.run_meaning.specs.Phase.{Phase};
ghost use Rattle.run_meaning.specs.Report.{answer_lines, journal_lines};
ghost use Rattle.run_meaning.specs.Run.{answers_of_lanes};
ghost use Rattle.phase_graph.specs.Graph.{ticks_of};
ghost use Rattle.lane_run.specs.Lanes.{lanes_at};
ghost use Rattle.lane_run.specs.Today.{LanesRun};
ghost use Rattle.phase_run.specs.Phases.{IsMade};
ghost use Rattle.still_graph.specs.Still.{opened_in, IsSettledAfter};

use lane_run::{edit_room, run_lanes};
use outside::Gate;
use report_text::put_phase;
use run_items::{Answer, Answers};
use run_weave::laws::{calls_make_phases, targets_of_components_fit};
use script_items::Script;
use std::alloc::Global;
use still_graph::Still;
use values::NoMemory;

/// Opens the phase, makes its operations and ends it. Edits are not told yet what comes of them. After want of memory some
/// of the operations may be made.
pub fn make_phase<G: Gate>(
    still: &mut Still,
    alloc: Global,
    script: &Script,
    phase: u32,
    gate: &G,
    answers: &mut Answers,
) -> Result<(), NoMemory>
    requires settled { (past : List Phase) × IsSettledAfter past still.old }
    requires kept { IsKept still.old.component }
    requires fits { Fits still.old.component still.old.state.held }
    requires owners { length still.old.state.held.live ≡ length (plan_owners still.old.component) }
    requires ticks { ticks_of still.old.graph < 2 ^ 61 }
    requires named { All (All (NamesMembers (members_of still.old.component.items))) (lanes_at script.now phase) }
    requires today { LanesRun (lanes_at script.now phase) }
    ensures component { OnOk result (still.new.component ≡ still.old.component) }
    ensures ticks { OnOk result (ticks_of still.new.graph ≤ ticks_of still.old.graph + 2 ^ 31) }
    ensures made { OnOk result ((past : List Phase) → IsSettledAfter past still.old → PastFits past (opened_in still.old) → (p : Phase) × IsMade past still.old (lanes_at script.now phase) p still.new
        × (answers.new ≡ answers.old ++ answers_of_lanes phase 1 p.lanes)) }
{
    calls_make_phases();
    targets_of_components_fit();
    still.begin(alloc, 1, edit_room(script, phase))?;
    run_lanes(still, alloc, script, phase, gate, answers)?;
    still.end();
    Ok(())
}

/// The answers behind the first so many.
pub fn answers_behind(answers: &Answers, first: usize) -> &[Answer]
    requires { first ≤ length answers.now }
    ensures { result.now ≡ drop first answers.now }
{
    &answers.as_slice()[first..]
}

/// Adds the lines of the phase that was settled last, where they are asked for. Phases count from 1.
pub fn put_lines(
    out: &mut Vec<u8>,
    asked: bool,
    still: &Still,
    phase: u32,
    answers: &[Answer],
) -> Result<(), NoMemory>
    ensures { OnOk result ((past : List Phase) (p : Phase) → IsSettledAfter (past ++ p ∷ []) still.now → p.opened.plan.owners ≡ plan_owners still.now.component → phase ≡ suc (length past) → answers.now ≡ answers_of_lanes phase 1 p.lanes →
        out.new.items ≡ out.old.items ++ (if asked then answer_lines still.now.component.texts phase 1 p.lanes ++ journal_lines still.now.component.texts p.opened.plan.owners phase p.entries else [])) }
{
    if !asked {
        return Ok(());
    }
    let Some(entries) = still.journal().entries(phase) else {
        return Ok(());
    };
    let texts = still.component().texts();
    let owners = still.plan().owners.as_slice();
    put_phase(out, texts, phase, answers, owners, entries)
}
