//! The lanes of a phase.
ghost use Rattle.std.specs.Prelude.{◌≡◌, ◌≤◌, All, length, OnOk};
ghost use Rattle.script_items.specs.KeptFor.{NamesMembers};
ghost use Rattle.script_items.specs.Members.{members_of};
ghost use Rattle.lane_run.specs.Lanes.{IsOpenOver, IsFresh, HaveDone, first_ops, lanes_at};
ghost use Rattle.lane_run.specs.Today.{LanesRun};

use crate::lane::run_lane;
use outside::Gate;
use run_items::Answers;
use run_weave::laws::lanes_make_all_calls;
use script_items::Script;
use std::alloc::Global;
use still_graph::Still;
use values::NoMemory;

/// Makes the operations of all lanes of the phase, of which there is one at the most, each behind a step through the gate,
/// and adds their answers. After want of memory some of them may be made.
pub fn run_lanes<G: Gate>(
    still: &mut Still,
    alloc: Global,
    script: &Script,
    phase: u32,
    gate: &G,
    answers: &mut Answers,
) -> Result<(), NoMemory>
    requires open { IsOpenOver still.old }
    requires fresh { IsFresh still.old (first_ops script.now phase) }
    requires named { All (All (NamesMembers (members_of still.old.component.items))) (lanes_at script.now phase) }
    requires today { LanesRun (lanes_at script.now phase) }
    ensures { OnOk result (HaveDone phase (lanes_at script.now phase) still.old still.new answers.old answers.new) }
{
    lanes_make_all_calls();
    let lanes = script.lanes(phase).unwrap_or(0);
    if lanes == 0 {
        return Ok(());
    }
    run_lane(still, alloc, script, phase, gate, answers)
}
