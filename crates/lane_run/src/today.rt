//! Which lanes are run so far.
ghost use Rattle.std.specs.Prelude.{◌≡◌, ◌≤◌, ◌<◌, ◌↔◌, ℕ, All, IsTrue, length, unwrap_or};
ghost use Rattle.script_items.specs.Script.{numbered};
ghost use Rattle.lane_run.specs.Lanes.{first_ops, lanes_at};
ghost use Rattle.lane_run.specs.Today.{LanesRun, OpsRun, most_ops};

use script_items::Script;

/// Whether the first lane of the phase has not too many operations to be numbered. Where there is no such lane, it has
/// none.
fn ops_run(script: &Script, phase: u32) -> bool
    ensures { IsTrue result ↔ OpsRun (first_ops script.now phase) }
{
    for before in 0..u32::MAX {
        match script.op(phase, 1, before + 1) {
            None => return true,
            Some(_op) => {}
        }
    }
    false
}

/// Whether the lanes of the phase are run so far.
pub fn lanes_run(script: &Script, phase: u32) -> bool
    ensures { IsTrue result ↔ LanesRun (lanes_at script.now phase) }
{
    match script.lanes(phase) {
        None | Some(0) => true,
        Some(1) => ops_run(script, phase),
        Some(_) => false,
    }
}
