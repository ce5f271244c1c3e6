//! The object.
ghost use Rattle.std.specs.Prelude.{◌≡◌, ℕ, Some, [], false, IfOk, IfErr, slice_get, slice_index_or};
ghost use Rattle.std.specs.Option.{option_map, option_copied, option_and_then};
ghost use Rattle.script_items.specs.Script.{numbered};
ghost use Rattle.plain_evaluation.specs.Changed.{store_of};
ghost use Rattle.values.specs.Packing.{unpacked, IsPacked};
ghost use Rattle.sources.specs.declared.opening.Opened.{Opened as OpenedValue};
ghost use Rattle.component_items.specs.Kept.{IsKept};
ghost use Rattle.held_state.specs.State.{IsOf, first_state};
ghost use Rattle.load_meaning.specs.Polls.{AreInStep, first_loadings};
ghost use Rattle.plain_evaluation.specs.Written.{state_of};
ghost use Rattle.plan_meaning.specs.Layout.{plan_of};
ghost use Rattle.phase_graph.specs.Graph.{ticks_of};
ghost use Rattle.still_graph.specs.Still.{progress_of, opened_in};
ghost use Rattle.still_graph.specs.Answers.{target_of};

use crate::begun::Begun;
use component_items::Component;
use held_state::Held;
use id_owners::IdOwners;
use load_polls::Loads;
use node_names::{Names, NodePlace};
use phase_graph::Graph;
use run_journal::Journal;
use sources::{Body, Colour, Opened};
use std::alloc::Global;
use std::marker::Model;
use store_fields::{Rows, Verdict, Verdicts};
use values::{Code, NoMemory, Plan};

/// How far a graph is.
#[derive(Clone, Copy, Debug, PartialEq, Eq)]
pub enum Stage {
    /// Nothing was settled yet.
    Made,
    /// All is settled: a phase may open.
    Settled,
    /// A phase is open.
    Open,
    /// A phase ended, and waits to be settled.
    Ended,
}

/// What an id, with the key of a store row or none, stands for in the phase that is open, or that may open.
#[derive(Clone, Copy, Debug, PartialEq, Eq)]
pub enum Target {
    /// This row of the plan.
    Row(u32),
    /// A store row that is not there, of a store that is live.
    NoRow,
    /// What this owner owned, which is dead.
    Dead(u32),
}

/// The graph of a component. Contracts see the component, its held state, the rows of its plan with their places, the
/// journal, how far it is, and how far its loads are.
#[derive(Drop)]
pub struct Still {
    pub(crate) component: Component,
    pub(crate) owners: IdOwners,
    pub(crate) held: Held,
    pub(crate) names: Names,
    pub(crate) graph: Graph,
    pub(crate) journal: Journal,
    pub(crate) stage: Stage,
    pub(crate) verdicts: Vec<Verdicts>,
    pub(crate) loads: Loads,
}

impl Model for Still {
    ghost use Rattle.std.specs.Prelude.{◌≡◌};
    ghost use Rattle.std.specs.Coded.{codes};
    ghost use Rattle.component_items.specs.contracts.component.Component as parts_model;
    ghost use Rattle.held_state.specs.contracts.held.Held as held_model;
    ghost use Rattle.phase_graph.specs.contracts.graph.Graph as graph_model;
    ghost use Rattle.id_owners.specs.Table.{owners_by_id};
    ghost use Rattle.load_table.specs.Loads.{loads_in};
    ghost use Rattle.still_graph.specs.Still.{StillState};
    ghost use Rattle.still_graph.specs.Stands.{still_of, IsStill};

    ghost Value = { StillState };

    ghost coded = { Prim.hlevel (codes, parts_model.the_row.coded, held_model.the_row.coded, graph_model.the_row.coded) };

    ghost view = { λ s. still_of s.component s.held s.names s.graph s.journal.phases s.stage s.verdicts.items s.loads.loadings };

    ghost invariant = { λ s. IsStill (still_of s.component s.held s.names s.graph s.journal.phases s.stage s.verdicts.items s.loads.loadings) s.journal.spare × (s.owners ≡ owners_by_id s.component) × (s.loads.loads ≡ loads_in s.component) };
}

impl Still {
    /// The graph of the component before anything ran. After want of memory the component is handed back.
    pub fn new(alloc: Global, component: Component) -> Result<Still, (Component, NoMemory)>
        ensures component { IfOk result (λ still. still.component ≡ component) }
        ensures state { IfOk result (λ still. still.state ≡ first_state component) }
        ensures journal { IfOk result (λ still. still.journal ≡ []) }
        ensures stage { IfOk result (λ still. still.stage ≡ Stage.Made) }
        ensures verdicts { IfOk result (λ still. still.verdicts ≡ []) }
        ensures loadings { IfOk result (λ still. still.loadings ≡ first_loadings component) }
        ensures ticks { IfOk result (λ still. ticks_of still.graph ≡ 0) }
        ensures back { IfErr result (λ back. back.0 ≡ component) }
    {
        match Begun::new(alloc, &component) {
            Ok(begun) => Ok(Still::of(component, begun)),
            Err(no_memory) => Err((component, no_memory)),
        }
    }

    /// The component.
    pub fn component(&self) -> &Component
        ensures component { result.now ≡ self.now.component }
        ensures kept { IsKept self.now.component }
    {
        &self.component
    }

    /// The held state behind the last settling, or the first one.
    pub fn held(&self) -> &Held
        ensures state { result.now ≡ self.now.state }
        ensures fits { IsOf self.now.component self.now.state }
        ensures in_step { AreInStep self.now.component (progress_of self.now) }
    {
        &self.held
    }

    /// The plan.
    pub fn plan(&self) -> &Plan
        ensures plan { result.now ≡ self.now.graph.plan }
        ensures laid_out { self.now.graph.plan ≡ plan_of self.now.component (state_of self.now.state.held) }
    {
        self.graph.plan()
    }

    /// The places of the rows, in order.
    pub fn names(&self) -> &Names
        ensures { result.now ≡ self.now.places }
    {
        &self.names
    }

    /// What is kept of each row, in order.
    pub fn kept_rows(&self) -> &[Opened]
        ensures rows { result.now ≡ self.now.graph.rows }
        ensures packed { (n : ℕ) (row : OpenedValue) → slice_get self.now.graph.rows n ≡ Some row → IsPacked row.code }
    {
        self.graph.rows()
    }

    /// The journal.
    pub fn journal(&self) -> &Journal
        ensures { result.now.phases ≡ self.now.journal }
    {
        &self.journal
    }

    /// The journal alone.
    pub fn into_journal(self) -> Journal
        ensures { result.phases ≡ self.journal }
    {
        let Still { journal, .. } = self;
        journal
    }

    /// How far the graph is.
    pub fn stage(&self) -> Stage
        ensures { result ≡ self.now.stage }
    {
        self.stage
    }

    /// The count of ticks: of new values that rows have taken.
    pub fn ticks(&self) -> u64
        ensures { result ≡ ticks_of self.now.graph }
    {
        self.graph.ticks()
    }

    /// The value of a row. `None` exactly where there is no such row.
    pub fn value(&self, row: u32) -> Option<Code>
        ensures { result ≡ option_map (λ kept. unpacked kept.code) (slice_get self.now.graph.rows row) }
    {
        self.graph.value(row)
    }

    /// The version of a row's value: the count of ticks when it came. `None` exactly where there is no such row.
    pub fn version(&self, row: u32) -> Option<u64>
        ensures { result ≡ option_map (λ kept. kept.version) (slice_get self.now.graph.rows row) }
    {
        Some(self.graph.row(row)?.version)
    }

    /// What is known of a row's value. `None` exactly where there is no such row.
    pub fn colour(&self, row: u32) -> Option<Colour>
        ensures { result ≡ option_map (λ kept. kept.colour) (slice_get self.now.graph.rows row) }
    {
        Some(self.graph.row(row)?.colour)
    }

    /// What the last run of a row read, and why it ran. `None` exactly where there is no such row.
    pub fn body(&self, row: u32) -> Option<&Body>
        ensures { option_copied result ≡ option_map (λ kept. kept.body) (slice_get self.now.graph.rows row) }
    {
        Some(&self.graph.row(row)?.body)
    }

    /// What the id stands for where a phase opens now, or where the one that is open opened: with the key of a store
    /// row or with none.
    pub fn target(&self, id: u32, key: Option<Code>) -> Target
        ensures { target_of result ≡ (opened_in self.now).target id key }
    {
        let owner = self.owners.owner(id);
        if !self.held.is_live(owner) {
            return Target::Dead(owner);
        }
        match self.names.row(NodePlace::new(id, key)) {
            Some(row) => Target::Row(row),
            None => Target::NoRow,
        }
    }

    /// The owner of the item with the id: that of the innermost area around it.
    pub fn owner_of(&self, id: u32) -> u32
        ensures { result ≡ (opened_in self.now).owner_of id }
    {
        self.owners.owner(id)
    }

    /// Whether the owner is live. An owner that the component has not is not.
    pub fn owner_live(&self, owner: u32) -> bool
        ensures { result ≡ slice_index_or self.now.graph.live owner false }
    {
        self.graph.is_live(owner)
    }

    /// The rows of the store with the id, as they were when the graph was settled last. `None` exactly where there is no
    /// such live store.
    pub fn rows(&self, store: u32) -> Option<&Rows>
        ensures { option_copied result ≡ store_of self.now.state.held store }
    {
        self.held.rows(store)
    }

    /// What came of the edit of this place in the list of this pass, in the last phase that was settled. Passes count
    /// from 1, places from 0. `None` exactly where there is no such edit.
    pub fn verdict(&self, pass: u32, index: u32) -> Option<Verdict>
        ensures { result ≡ option_and_then (λ told. slice_get told index) (numbered self.now.verdicts pass) }
    {
        let told = self.verdicts.get(pass.checked_sub(1)? as usize)?;
        told.at(index as usize).copied()
    }
}

impl Still {
    ghost use Rattle.id_owners.specs.Table.{owners_by_id};
    ghost use Rattle.load_table.specs.Loads.{loads_in};
    ghost use Rattle.still_graph.specs.Stands.{still_of, IsStill};
    ghost use Rattle.still_graph.specs.declared.still.Stage.TheVariants.{Made};

    /// The graph of these parts.
    fn of(component: Component, begun: Begun) -> Still
        requires stands { IsStill (still_of component begun.held begun.names begun.graph begun.journal.phases Made begun.verdicts.items begun.loads.loadings) begun.journal.spare }
        requires owners { begun.owners ≡ owners_by_id component }
        requires loads { begun.loads.loads ≡ loads_in component }
        ensures { result ≡ still_of component begun.held begun.names begun.graph begun.journal.phases Made begun.verdicts.items begun.loads.loadings }
    {
        let Begun {
            owners,
            held,
            names,
            graph,
            journal,
            verdicts,
            loads,
        } = begun;
        Still {
            component,
            owners,
            held,
            names,
            graph,
            journal,
            stage: Stage::Made,
            verdicts,
            loads,
        }
    }
}
