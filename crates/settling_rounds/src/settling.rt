//! Settling, as often as asked for.
ghost use Rattle.std.specs.Prelude.{◌≡◌, ◌≢◌, ◌≤◌, ◌<◌, ◌+◌, ◌*◌, ◌^◌, [], ℕ, length, map, IfOk, OnOk};
ghost use Rattle.std.specs.Bool.{OnTrue};
ghost use Rattle.outside.specs.Counts.{RoseByTogether};
ghost use Rattle.plain_evaluation.specs.Scratch.{pending};
ghost use Rattle.load_meaning.specs.Polls.{enough_rounds};
ghost use Rattle.run_meaning.specs.Run.{refusals_owed};
ghost use Rattle.phase_graph.specs.Graph.{ticks_of};
ghost use Rattle.still_graph.specs.Answers as answers;
ghost use Rattle.settling_rounds.specs.Settlings.{Settles, SettlesPromptly};
ghost use Rattle.still_graph.specs.declared.still.Stage.TheVariants as stage;

use load_rounds::laws::enough_rounds_bring_all;
use outside::Loader;
use std::alloc::Global;
use still_graph::{Pending, Settled, Still};
use values::{NoMemory, Numbers};

/// The loads that are named, in their order.
fn ids_of(alloc: Global, loads: &Pending) -> Result<Numbers, NoMemory>
    ensures { IfOk result (λ ids. ids ≡ map (λ load. load.0) loads.now) }
{
    let mut ids = Numbers::new(alloc);
    for load in loads.as_slice() {
        ids.push(load.0)?;
    }
    Ok(ids)
}

/// The loads that a settling says are pending, in their order.
fn named_in(alloc: Global, settled: &Settled) -> Result<Numbers, NoMemory>
    ensures { IfOk result (λ ids. ids ≡ answers.ids_of settled.now) }
{
    match settled {
        Settled::Whole => Ok(Numbers::new(alloc)),
        Settled::Waiting(loads) => ids_of(alloc, loads),
    }
}

/// Settles once, and names the loads that are pending then.
fn settle_once<L: Loader>(
    still: &mut Still,
    alloc: Global,
    loader: &mut L,
) -> Result<Numbers, NoMemory>
    requires closed { still.old.stage ≢ stage.Open }
    requires ticks { ticks_of still.old.graph < 2 ^ 62 }
    ensures settles { OnOk result (Settles still.old still.new) }
    ensures pending { IfOk result (λ ids. ids ≡ pending still.new.component still.new.state.held) }
    ensures counted { IfOk result (λ ids. RoseByTogether (length ids) (L.faults loader.old) (L.faults loader.new) (L.not_yets loader.old) (L.not_yets loader.new)) }
    ensures prompt { OnTrue L.is_prompt (OnOk result (SettlesPromptly 1 still.old still.new)) }
    ensures ticks { ticks_of still.new.graph ≤ ticks_of still.old.graph + 16384 }
{
    let settled = still.settle(alloc, loader)?;
    named_in(alloc, &settled)
}

/// Settles up to `rounds` times, until nothing is pending. The answer are the loads that are pending then, in order of
/// declaration. After want of memory it may be settled, and the loader may be asked.
pub fn settle_rounds<L: Loader>(
    still: &mut Still,
    alloc: Global,
    loader: &mut L,
    rounds: u32,
) -> Result<Numbers, NoMemory>
    requires closed { still.old.stage ≢ stage.Open }
    requires rounds { 1 ≤ rounds }
    requires ticks { ticks_of still.old.graph < 2 ^ 61 }
    ensures settles { OnOk result (Settles still.old still.new) }
    ensures pending { IfOk result (λ ids. ids ≡ pending still.new.component still.new.state.held) }
    ensures counted { IfOk result (λ ids. RoseByTogether (refusals_owed rounds ids) (L.faults loader.old) (L.faults loader.new) (L.not_yets loader.old) (L.not_yets loader.new)) }
    ensures prompt { OnTrue L.is_prompt (enough_rounds still.old.component ≤ rounds → IfOk result (λ ids. ids ≡ [])) }
    ensures ticks { ticks_of still.new.graph ≤ ticks_of still.old.graph + 16384 * rounds }
{
    enough_rounds_bring_all();
    // What the component keeps is known from here on.
    let _kept = still.component();
    let mut pending = settle_once(still, alloc, loader)?;
    for _round in 1..rounds {
        if pending.is_empty() {
            return Ok(pending);
        }
        pending = settle_once(still, alloc, loader)?;
    }
    Ok(pending)
}
