//! Settling.
ghost use Rattle.std.specs.Prelude.{◌≡◌, ◌≢◌, ◌≤◌, ◌<◌, ◌+◌, ◌^◌, ◌++◌, ◌∷◌, [], ℕ, List, Option as OptionOf, OnOk, OnErr, IfOk};
ghost use Rattle.values.specs.declared.code.Code.{Code as CodeValue};
ghost use Rattle.plain_evaluation.specs.Scratch.{pending};
ghost use Rattle.run_meaning.specs.Phase.{Phase};
ghost use Rattle.run_meaning.specs.Run.{held_arrived, after};
ghost use Rattle.phase_graph.specs.Graph.{ticks_of};
ghost use Rattle.phase_edits.specs.Told.{AreTold};
ghost use Rattle.still_graph.specs.Answers.{late_of, ids_of};
ghost use Rattle.settled_rows.specs.Finishing.{AreCounted};
ghost use Rattle.still_graph.specs.Settling.{IsSettling};
ghost use Rattle.still_graph.specs.Still.{IsSettledAfter, HasEnded};

use crate::still::{Stage, Still};
use load_polls::{Late, Pending};
use outside::Loader;
use std::alloc::Global;
use values::{NoMemory, Reserved};

/// How a settling ended.
#[derive(Debug, Drop)]
pub enum Settled {
    /// All is settled.
    Whole,
    /// These loads are pending. All else is settled.
    Waiting(Pending),
}

impl Still {
    /// Settles the graph. First held state takes what the last phase wrote, its edits are made in order of number, and
    /// what it disposed is taken out; where rows may come or go, the component is laid out again, and what stays goes
    /// over by its place. Then, in order of declaration, each live load is polled once with the value that its key has
    /// by then, and keeps it where it has arrived. At last each memo is brought up to date. No effect runs. After want
    /// of memory the graph is as it was, and the loader was not asked.
    pub fn settle<L: Loader>(&mut self, alloc: Global, loader: &mut L) -> Result<Settled, NoMemory>
        requires closed { self.old.stage ≢ Stage.Open }
        requires ticks { ticks_of self.old.graph < 2 ^ 62 }
        ensures component { self.new.component ≡ self.old.component }
        ensures stage { OnOk result (self.new.stage ≡ Stage.Settled) }
        ensures first { OnOk result (self.old.stage ≡ Stage.Made → (keys : ℕ → OptionOf CodeValue) × (self.new.state.held ≡ held_arrived keys self.old.state.held) × IsSettledAfter [] self.new) }
        ensures after { OnOk result ((past : List Phase) (p : Phase) → HasEnded past p self.old → (keys : ℕ → OptionOf CodeValue) × (self.new.state.held ≡ after self.old.component p keys) × IsSettledAfter (past ++ p ∷ []) self.new) }
        ensures told { OnOk result ((past : List Phase) (p : Phase) → HasEnded past p self.old → AreTold p self.new.verdicts) }
        ensures again { OnOk result (self.old.stage ≡ Stage.Settled → (keys : ℕ → OptionOf CodeValue) × (self.new.state.held ≡ held_arrived keys self.old.state.held) × ((past : List Phase) → IsSettledAfter past self.old → IsSettledAfter past self.new)) }
        ensures stay { OnOk result (self.old.stage ≡ Stage.Settled → self.new.verdicts ≡ self.old.verdicts) }
        ensures polled { IfOk result (λ settled. IsSettling L.answers L.is_prompt self.old self.new (late_of settled) loader.old loader.new) }
        ensures pending { IfOk result (λ settled. ids_of settled ≡ pending self.new.component self.new.state.held) }
        ensures whole { IfOk result (λ settled. ids_of settled ≡ [] → settled ≡ Settled.Whole) }
        ensures counted { IfOk result (λ settled. AreCounted (late_of settled) (L.not_yets loader.old) (L.not_yets loader.new) (L.faults loader.old) (L.faults loader.new)) }
        ensures ticks_raised { ticks_of self.new.graph ≤ ticks_of self.old.graph + 16384 }
        ensures unchanged { OnErr result (self.new ≡ self.old) }
        ensures unasked { OnErr result (loader.new ≡ loader.old) }
    {
        let mut late = Reserved::with_room(alloc, self.loads.len())?;
        if self.stage == Stage::Ended {
            self.settle_phase(alloc, &mut late, loader)?;
        } else {
            self.settle_again(&mut late, loader);
        }
        Ok(told(late))
    }
}

/// What is told of the loads that are late.
fn told(late: Reserved<(u32, Late)>) -> Settled
    ensures late { late_of result ≡ late.list }
    ensures whole { ids_of result ≡ [] → result ≡ Settled.Whole }
{
    if late.is_empty() {
        return Settled::Whole;
    }
    Settled::Waiting(late.into_sequence())
}
