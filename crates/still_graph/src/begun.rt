//! What a graph begins with.
ghost use Rattle.std.specs.Prelude.{◌≡◌, ℕ, [], IfOk};
ghost use Rattle.component_items.specs.Kept.{IsKept};
ghost use Rattle.plain_evaluation.specs.Held.{first_held};
ghost use Rattle.held_state.specs.State.{IsOf, first_state};
ghost use Rattle.phase_graph.specs.Graph.{ticks_of};
ghost use Rattle.id_owners.specs.Table.{owners_by_id};
ghost use Rattle.load_table.specs.Loads.{loads_in};
ghost use Rattle.load_meaning.specs.Polls.{first_loadings};
ghost use Rattle.still_graph.specs.Stands.{still_of, IsStill};
ghost use Rattle.still_graph.specs.declared.still.Stage.TheVariants.{Made};

use component_items::Component;
use held_state::Held;
use id_owners::IdOwners;
use load_polls::Loads;
use node_names::Names;
use phase_graph::Graph;
use run_journal::Journal;
use settled_rows::FirstRows;
use std::alloc::Global;
use store_fields::Verdicts;
use values::NoMemory;

/// All of a graph but its component.
#[derive(Drop)]
pub(crate) struct Begun {
    pub owners: IdOwners,
    pub held: Held,
    pub names: Names,
    pub graph: Graph,
    pub journal: Journal,
    pub verdicts: Vec<Verdicts>,
    pub loads: Loads,
}

impl Begun {
    /// What the component's graph has before anything ran.
    pub(crate) fn new(alloc: Global, component: &Component) -> Result<Begun, NoMemory>
        ensures state { IfOk result (λ begun. begun.held ≡ first_state component.now) }
        ensures journal { IfOk result (λ begun. begun.journal.phases ≡ []) }
        ensures ticks { IfOk result (λ begun. ticks_of begun.graph ≡ 0) }
        ensures owners { IfOk result (λ begun. begun.owners ≡ owners_by_id component.now) }
        ensures verdicts { IfOk result (λ begun. begun.verdicts.items ≡ []) }
        ensures stands { IfOk result (λ begun. IsStill (still_of component.now begun.held begun.names begun.graph begun.journal.phases Made begun.verdicts.items begun.loads.loadings) begun.journal.spare) }
        ensures loads { IfOk result (λ begun. begun.loads.loads ≡ loads_in component.now) }
        ensures loadings { IfOk result (λ begun. begun.loads.loadings ≡ first_loadings component.now) }
    {
        let owners = IdOwners::new(alloc, component)?;
        let loads = Loads::new(alloc, component)?;
        let held = first_held(alloc, component)?;
        let FirstRows { names, graph } = FirstRows::new(alloc, component, &held)?;
        Ok(Begun {
            owners,
            held,
            names,
            graph,
            journal: Journal::new(alloc),
            verdicts: Vec::new(alloc),
            loads,
        })
    }
}

/// The state at the start.
fn first_held(alloc: Global, component: &Component) -> Result<Held, NoMemory>
    ensures kept { IsKept component.now }
    ensures is { IfOk result (λ held. held ≡ first_state component.now) }
    ensures fits { IfOk result (λ held. IsOf component.now held) }
{
    let _items = component.items();
    Held::first(alloc, component)
}
