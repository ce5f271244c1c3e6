//! Which scripts are run so far.
ghost use Rattle.std.specs.Prelude.{◌≡◌, ◌≤◌, ◌↔◌, All, IsTrue, length};
ghost use Rattle.lane_run.specs.Lanes.{lanes_at};
ghost use Rattle.lane_run.specs.Today.{LanesRun};
ghost use Rattle.script_run.specs.Today.{RunsToday};

use lane_run::lanes_run;
use script_items::Script;

/// Whether the script has no form that is not run yet: a phase of more than one lane.
pub fn runs_today(script: &Script) -> bool
    ensures { IsTrue result ↔ RunsToday script.now }
{
    for before in 0..script.phases() {
        if !lanes_run(script, before + 1) {
            return false;
        }
    }
    true
}
