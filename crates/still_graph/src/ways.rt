//! The ways in which a settling gets to the loads.
ghost use Rattle.std.specs.Prelude.{◌≡◌, ◌≢◌, ◌≤◌, ◌<◌, ◌+◌, ◌^◌, ◌++◌, ◌∷◌, [], List, true, length, OnOk, OnErr, IfOk};
ghost use Rattle.load_table.specs.Loads.{loads_in};
ghost use Rattle.run_items.specs.Journal.{JournalPhase};
ghost use Rattle.phase_graph.specs.Graph.{ticks_of};
ghost use Rattle.next_layout.specs.Next.{IsFolded, IsNext};
ghost use Rattle.still_graph.specs.Finishing.{Settles};
ghost use Rattle.settled_rows.specs.Finishing.{AreCounted};
ghost use Rattle.still_graph.specs.Settling as spec;

use crate::still::{Stage, Still};
use load_polls::Late;
use next_layout::{Next, fold_in_place};
use outside::Loader;
use settled_rows::finish;
use std::alloc::Global;
use values::{Fact, NoMemory, Noted, Reserved};

impl Still {
    /// Settles a graph of which no phase has ended since it was settled.
    pub(crate) fn settle_again<L: Loader>(
        &mut self,
        late: &mut Reserved<(u32, Late)>,
        loader: &mut L,
    )
        requires open { self.old.stage ≢ Stage.Open }
        requires ended { self.old.stage ≢ Stage.Ended }
        requires ticks { ticks_of self.old.graph < 2 ^ 62 }
        requires empty { late.old.list ≡ [] }
        requires room { length (loads_in self.old.component) ≤ late.old.spare }
        ensures settles { Settles L.answers L.is_prompt self.old self.new late.new.list loader.old loader.new }
        ensures counted { AreCounted late.new.list (L.not_yets loader.old) (L.not_yets loader.new) (L.faults loader.old) (L.faults loader.new) }
    {
        let _plan = self.graph.plan();
        self.graph.rebase();
        finish(
            &self.component,
            &self.owners,
            &mut self.held,
            &self.names,
            &mut self.graph,
            &mut self.loads,
            late,
            loader,
        );
        self.stage = Stage::Settled;
    }

    /// Settles the phase that has ended.
    pub(crate) fn settle_phase<L: Loader>(
        &mut self,
        alloc: Global,
        late: &mut Reserved<(u32, Late)>,
        loader: &mut L,
    ) -> Result<(), NoMemory>
        requires ended { self.old.stage ≡ Stage.Ended }
        requires ticks { ticks_of self.old.graph < 2 ^ 62 }
        requires empty { late.old.list ≡ [] }
        requires room { length (loads_in self.old.component) ≤ late.old.spare }
        ensures settles { OnOk result (Settles L.answers L.is_prompt self.old self.new late.new.list loader.old loader.new) }
        ensures counted { OnOk result (AreCounted late.new.list (L.not_yets loader.old) (L.not_yets loader.new) (L.faults loader.old) (L.faults loader.new)) }
        ensures unchanged { OnErr result (self.new ≡ self.old) }
        ensures unasked { OnErr result (loader.new ≡ loader.old) }
    {
        if self.rows_stay() {
            self.settle_in_place(late, loader);
            return Ok(());
        }
        let next = self.next(alloc)?;
        self.go_over(next, late, loader);
        Ok(())
    }

    /// Whether the last phase leaves the rows that there are.
    fn rows_stay(&self) -> bool
        ensures { (earlier : List JournalPhase) (phase : JournalPhase) → self.now.journal ≡ earlier ++ phase ∷ [] → result ≡ spec.all_keep_rows phase.entries }
    {
        all_keep(self.journal.last_entries())
    }

    /// What the graph goes over to behind the last phase.
    fn next(&self, alloc: Global) -> Result<Next, NoMemory>
        ensures folded { IfOk result (λ next. (earlier : List JournalPhase) (phase : JournalPhase) → self.now.journal ≡ earlier ++ phase ∷ [] → IsFolded self.now.component self.now.state self.now.places self.now.graph phase.entries next.state next.verdicts) }
        ensures is_next { IfOk result (λ next. IsNext self.now.component self.now.state self.now.places self.now.graph next) }
    {
        Next::new(
            alloc,
            &self.component,
            &self.held,
            &self.names,
            &self.graph,
            self.journal.last_entries(),
        )
    }

    /// Settles the phase that has ended, after which no row comes or goes.
    fn settle_in_place<L: Loader>(&mut self, late: &mut Reserved<(u32, Late)>, loader: &mut L)
        requires ended { self.old.stage ≡ Stage.Ended }
        requires ticks { ticks_of self.old.graph < 2 ^ 62 }
        requires stay { (earlier : List JournalPhase) (phase : JournalPhase) → self.old.journal ≡ earlier ++ phase ∷ [] → spec.all_keep_rows phase.entries ≡ true }
        requires empty { late.old.list ≡ [] }
        requires room { length (loads_in self.old.component) ≤ late.old.spare }
        ensures settles { Settles L.answers L.is_prompt self.old self.new late.new.list loader.old loader.new }
        ensures counted { AreCounted late.new.list (L.not_yets loader.old) (L.not_yets loader.new) (L.faults loader.old) (L.faults loader.new) }
    {
        let _plan = self.graph.plan();
        fold_in_place(&mut self.held, &self.component, &self.names, &self.graph);
        self.verdicts.clear();
        self.graph.rebase();
        finish(
            &self.component,
            &self.owners,
            &mut self.held,
            &self.names,
            &mut self.graph,
            &mut self.loads,
            late,
            loader,
        );
        self.stage = Stage::Settled;
    }

    /// Goes over to the layout behind the phase that has ended, and settles it.
    fn go_over<L: Loader>(&mut self, next: Next, late: &mut Reserved<(u32, Late)>, loader: &mut L)
        requires ended { self.old.stage ≡ Stage.Ended }
        requires ticks { ticks_of self.old.graph < 2 ^ 62 }
        requires folded { (earlier : List JournalPhase) (phase : JournalPhase) → self.old.journal ≡ earlier ++ phase ∷ [] → IsFolded self.old.component self.old.state self.old.places self.old.graph phase.entries next.state next.verdicts }
        requires is_next { IsNext self.old.component self.old.state self.old.places self.old.graph next }
        requires empty { late.old.list ≡ [] }
        requires room { length (loads_in self.old.component) ≤ late.old.spare }
        ensures settles { Settles L.answers L.is_prompt self.old self.new late.new.list loader.old loader.new }
        ensures counted { AreCounted late.new.list (L.not_yets loader.old) (L.not_yets loader.new) (L.faults loader.old) (L.faults loader.new) }
    {
        let _plan = self.graph.plan();
        next.take_over(
            &mut self.held,
            &mut self.names,
            &mut self.graph,
            &mut self.verdicts,
        );
        finish(
            &self.component,
            &self.owners,
            &mut self.held,
            &self.names,
            &mut self.graph,
            &mut self.loads,
            late,
            loader,
        );
        self.stage = Stage::Settled;
    }
}

/// Whether no row comes or goes by any of the entries.
fn all_keep(entries: &[Noted]) -> bool
    ensures { result ≡ spec.all_keep_rows entries.now }
{
    entries.iter().all(|entry| keeps_rows(entry.fact))
}

/// Whether no row comes or goes by what is noted.
fn keeps_rows(fact: Fact) -> bool
    ensures { result ≡ spec.keeps_rows fact }
{
    match fact {
        Fact::Write { .. } | Fact::Change { .. } | Fact::Ran { .. } | Fact::Void { .. } => true,
        Fact::Disposed { .. } | Fact::Edit { .. } => false,
    }
}
