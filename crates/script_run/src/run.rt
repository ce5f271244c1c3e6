//! The run of a script.
ghost use Rattle.std.specs.Prelude.{◌≡◌, ◌≤◌, ◌^◌, ◌*◌, [], IfOk, length};
ghost use Rattle.std.specs.Bool.{OnTrue};
ghost use Rattle.component_items.specs.Kept.{IsKept};
ghost use Rattle.script_items.specs.KeptFor.{IsKeptFor};
ghost use Rattle.load_meaning.specs.Polls.{enough_rounds};
ghost use Rattle.phase_graph.specs.Graph.{ticks_of};
ghost use Rattle.script_run.specs.Ran.{IsRanTo, GoesOn, LoaderCounts};
ghost use Rattle.script_run.specs.Today.{RunsToday};

use crate::phase::run_phase;
use component_items::Component;
use outside::{Gate, Loader};
use run_items::Answers;
use script_items::Script;
use settling_rounds::settle_rounds;
use std::alloc::Global;
use still_graph::Still;
use values::{NoMemory, Numbers};

/// What a run came to.
#[derive(Drop)]
pub struct Ran {
    /// The graph behind the last settling.
    pub still: Still,
    /// What each operation was answered.
    pub answers: Answers,
    /// The lines of answers and journal, where they were asked for.
    pub report: Vec<u8>,
    /// The loads that the last settling named, in order of declaration.
    pub pending: Numbers,
}

/// Makes the graph of the component and settles it. No phase was run yet.
fn begun<L: Loader>(
    alloc: Global,
    component: Component,
    asked: bool,
    rounds: u32,
    loader: &mut L,
) -> Result<Ran, NoMemory>
    requires rounds { 1 ≤ rounds }
    ensures component { IfOk result (λ ran. ran.still.component ≡ component) }
    ensures kept { IfOk result (λ ran. IsKept ran.still.component) }
    ensures ticks { IfOk result (λ ran. ticks_of ran.still.graph ≤ 2 ^ 47) }
    ensures goes_on { let counts : LoaderCounts = record { faults = L.faults loader.old; faults_after = L.faults loader.new; not_yets = L.not_yets loader.old; not_yets_after = L.not_yets loader.new } in IfOk result (λ ran. GoesOn component [] asked rounds counts ran) }
    ensures prompt { OnTrue L.is_prompt (enough_rounds component ≤ rounds → IfOk result (λ ran. ran.pending ≡ [])) }
{
    // What each component keeps is known from here on.
    let _kept = component.items();
    let Ok(mut still) = Still::new(alloc, component) else {
        return Err(NoMemory);
    };
    let pending = settle_rounds(&mut still, alloc, loader, rounds)?;
    Ok(Ran {
        still,
        answers: Answers::new(alloc),
        report: Vec::new(alloc),
        pending,
    })
}

/// Makes the graph of the component and settles it; then, phase by phase, opens it, makes the operations of its lane,
/// ends it and settles it. "Settled" is up to `rounds` calls of `settle`, until one is whole. `gate` is stepped through
/// before each operation. Lines of answers and journal are made where they are `asked` for. Loads that are pending behind
/// a phase stay so while the next one runs. Want of memory anywhere ends the run, and the loader may have been asked before.
pub fn run_script<L: Loader, G: Gate>(
    alloc: Global,
    component: Component,
    script: &Script,
    asked: bool,
    rounds: u32,
    loader: &mut L,
    gate: &G,
) -> Result<Ran, NoMemory>
    requires kept { IsKeptFor component script.now component.texts }
    requires built { RunsToday script.now }
    requires rounds { 1 ≤ rounds }
    ensures run { let counts : LoaderCounts = record { faults = L.faults loader.old; faults_after = L.faults loader.new; not_yets = L.not_yets loader.old; not_yets_after = L.not_yets loader.new } in IfOk result (λ ran. IsRanTo component script.now asked rounds counts ran) }
    ensures prompt { OnTrue L.is_prompt (enough_rounds component ≤ rounds → IfOk result (λ ran. ran.pending ≡ [])) }
{
    let mut ran = begun(alloc, component, asked, rounds, loader)?;
    for before in 0..script.phases() {
        run_phase(&mut ran, alloc, script, before, asked, rounds, loader, gate)?;
    }
    Ok(ran)
}
