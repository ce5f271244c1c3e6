//! The last phase of a script, and its last lane.

ghost use Rattle.std.specs.Prelude.{◌≡◌, ◌<◌, length, OnOk};
ghost use Rattle.values.specs.declared.limits.TheConstants.{MOST_LANES};
ghost use Rattle.script_items.specs.Script.{with_lane, with_op};
ghost use Rattle.script_meaning.specs.Checks.{last_lanes};

use script_items::{Script, ScriptOp};
use values::NoMemory;

/// How many lanes the last phase has: none where there is no phase.
pub fn lanes(script: &Script) -> u32
    ensures { result ≡ length (last_lanes script.now) }
{
    script.lanes(script.phases()).unwrap_or(0)
}

/// Begins a lane at the end of the last phase, where there is one.
pub fn begin_lane(script: &mut Script) -> Result<(), NoMemory>
    requires { length (last_lanes script.old) < MOST_LANES }
    ensures { OnOk result (script.new ≡ with_lane script.old) }
{
    if script.phases() == 0 {
        return Ok(());
    }
    script.begin_lane()
}

/// Adds the operation at the end of the last lane, where there is one.
pub fn add_op(script: &mut Script, op: ScriptOp) -> Result<(), NoMemory>
    ensures { OnOk result (script.new ≡ with_op op script.old) }
{
    if lanes(script) == 0 {
        return Ok(());
    }
    script.add(op)
}
