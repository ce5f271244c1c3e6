//! The loads of a component.
ghost use Rattle.std.specs.Prelude.{◌≡◌, ◌≤◌, ◌<◌, ◌+◌, ◌^◌, [], false, length, IfOk};
ghost use Rattle.std.specs.Bool.{OnTrue};
ghost use Rattle.values.specs.PlanValues.{value_at, HaveSameSources};
ghost use Rattle.sources.specs.Rows.{value_in};
ghost use Rattle.outside.specs.Counts.{RoseBy};
ghost use Rattle.plain_evaluation.specs.Written.{state_of, written};
ghost use Rattle.plan_meaning.specs.Layout.{places_of, plan_of};
ghost use Rattle.plan_meaning.specs.Values.{row_values};
ghost use Rattle.held_state.specs.State.{IsOf, with_held};
ghost use Rattle.id_owners.specs.Table.{owners_by_id};
ghost use Rattle.load_table.specs.Loads.{loads_in};
ghost use Rattle.load_meaning.specs.Polls.{first_loadings, AllPolled, AreInStep, all_promptly};
ghost use Rattle.load_polls.specs.Loads.{progress_of, not_yet_count, failed_count, HasMoved};
ghost use Rattle.load_polls.specs.Shown.{SourcesShow};

use crate::polling::{Sides, poll_all};
use async_derived::Loading;
use component_items::Component;
use held_state::Held;
use id_owners::IdOwners;
use load_meaning::Late;
use load_table::LoadTable;
use node_names::Names;
use outside::Loader;
use phase_graph::Graph;
use std::alloc::Global;
use std::marker::Model;
use values::{NoMemory, Reserved, Sequence};

/// The loads that are pending, by their ids, with why, in order of declaration.
pub type Pending = Sequence<(u32, Late)>;

/// The loads of a component, whether live or not, and how far each of them is. Contracts see both lists, in order of
/// declaration.
#[derive(Drop)]
pub struct Loads {
    table: LoadTable,
    loadings: Vec<Loading>,
}

impl Model for Loads {
    ghost use Rattle.std.specs.Prelude.{◌≡◌, length};
    ghost use Rattle.load_polls.specs.Loads.{LoadsState};

    ghost Value = { LoadsState };

    ghost view = { λ l. record { loads = l.table; loadings = l.loadings.items } };

    ghost invariant = { λ l. length l.loadings.items ≡ length l.table };
}

impl Loads {
    /// The loads of a component before anything was asked. It takes the time of its items and of the keys of its
    /// resources.
    pub fn new(alloc: Global, component: &Component) -> Result<Loads, NoMemory>
        ensures loads { IfOk result (λ made. made.loads ≡ loads_in component.now) }
        ensures loadings { IfOk result (λ made. made.loadings ≡ first_loadings component.now) }
    {
        let table = LoadTable::new(alloc, component)?;
        let loadings = vec![in alloc; Loading::new(); table.len()]?;
        Ok(Loads { table, loadings })
    }

    /// How many loads there are.
    pub fn len(&self) -> usize
        ensures { result ≡ length self.now.loads }
    {
        self.table.len()
    }

    /// In order of declaration brings the key of each live load up to date, and polls the load once. What has arrived is
    /// noted in held state, and the row of the load gets the value of its resource for it. The loads that have not arrived
    /// are added to `late`. Between phases. It takes the time of the rows and of the loads, and no memory.
    pub fn poll<L: Loader>(
        &mut self,
        component: &Component,
        owners: &IdOwners,
        held: &mut Held,
        names: &Names,
        graph: &mut Graph,
        late: &mut Reserved<(u32, Late)>,
        loader: &mut L,
    )
        requires loads { self.old.loads ≡ loads_in component.now }
        requires owners { owners.now ≡ owners_by_id component.now }
        requires fits { IsOf component.now held.old }
        requires names { names.now ≡ places_of (written component.now held.old.held) }
        requires plan { graph.old.plan ≡ plan_of component.now (state_of held.old.held) }
        requires closed { graph.old.is_open ≡ false }
        requires few { graph.old.drawn ≤ 8192 }
        requires ticks { graph.old.base < 2 ^ 62 }
        requires shown { SourcesShow component.now (state_of held.old.held) graph.old.rows }
        requires in_step { AreInStep component.now (progress_of held.old self.old.loadings) }
        requires empty { late.old.list ≡ [] }
        requires room { length self.old.loads ≤ late.old.spare }
        ensures loads { self.new.loads ≡ self.old.loads }
        ensures polled { AllPolled L.answers component.now (progress_of held.old self.old.loadings) (progress_of held.new self.new.loadings) late.new.list loader.old loader.new }
        ensures held { held.new ≡ with_held held.old held.new.held }
        ensures fits_still { IsOf component.now held.new }
        ensures in_step_still { AreInStep component.now (progress_of held.new self.new.loadings) }
        ensures names_still { names.now ≡ places_of (written component.now held.new.held) }
        ensures plan_still { graph.new.plan ≡ plan_of component.now (state_of held.new.held) }
        ensures moved { HasMoved graph.old graph.new 8192 }
        ensures shown_still { SourcesShow component.now (state_of held.new.held) graph.new.rows }
        ensures evaluated { HaveSameSources graph.new.plan.nodes (value_in graph.new.rows) (value_at (row_values component.now (state_of held.new.held))) }
        ensures not_yets { RoseBy (not_yet_count late.new.list) (L.not_yets loader.old) (L.not_yets loader.new) }
        ensures faults { RoseBy (failed_count late.new.list) (L.faults loader.old) (L.faults loader.new) }
        ensures prompt { OnTrue L.is_prompt (progress_of held.new self.new.loadings ≡ all_promptly component.now (progress_of held.old self.old.loadings)) }
    {
        let _items = component.items();
        let _plan = graph.plan();
        let sides = Sides {
            component,
            table: &self.table,
            owners,
            names,
        };
        poll_all(
            &sides,
            self.loadings.as_mut_slice(),
            held,
            graph,
            late,
            loader,
        );
    }
}
