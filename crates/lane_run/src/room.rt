//! Room for the edits of a lane.
ghost use Rattle.std.specs.Prelude.{◌≡◌, ◌+◌, min, if◌then◌else◌};
ghost use Rattle.run_items.specs.declared.limits.TheConstants.{LAST_NUMBER};
ghost use Rattle.run_meaning.specs.Merge.{is_edit};
ghost use Rattle.lane_run.specs.Lanes.{first_ops, lanes_at, room_for};
ghost use Rattle.lane_run.specs.Today.{LanesRun};

use run_items::LAST_NUMBER as LAST;
use script_items::{Script, ScriptOp};

/// The room, with that for one more edit where the operation is one, but for no more than can be noted and one.
fn room_with(room: u32, op: &ScriptOp) -> u32
    ensures { result ≡ (if is_edit op.now then min (room + 1) (LAST_NUMBER + 1) else room) }
{
    match op {
        ScriptOp::Change(_) => room.min(LAST) + 1,
        ScriptOp::Set { .. } | ScriptOp::Get { .. } | ScriptOp::Pump | ScriptOp::Dispose { .. } => {
            room
        }
    }
}

/// For how many edits of the first lane of the phase there has to be room: for as many as it has, but for no more than
/// can be noted, and one that is refused.
pub fn edit_room(script: &Script, phase: u32) -> u32
    requires { LanesRun (lanes_at script.now phase) }
    ensures { result ≡ room_for (first_ops script.now phase) }
{
    let mut room = 0;
    for before in 0..u32::MAX {
        match script.op(phase, 1, before + 1) {
            None => return room,
            Some(op) => room = room_with(room, op),
        }
    }
    room
}
