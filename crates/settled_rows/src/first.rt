//! The first rows, of which nothing ran yet.
ghost use Rattle.std.specs.Prelude.{◌≡◌, map, length, slice_get, Some, IfOk};
ghost use Rattle.values.specs.Plan.{IsLawful};
ghost use Rattle.component_items.specs.Kept.{IsKept};
ghost use Rattle.plain_evaluation.specs.Held.{value_held};
ghost use Rattle.plain_evaluation.specs.Place.{Place};
ghost use Rattle.held_state.specs.State.{IsOf, first_state};
ghost use Rattle.settled_rows.specs.Rows.{IsFirstGraph, IsFirst};

use component_items::Component;
use held_state::Held;
use node_names::Names;
use node_plan::{Laid, lay_out};
use phase_graph::Graph;
use std::alloc::Global;
use values::{Code, NoMemory, Plan};

/// The first rows, with their places.
#[derive(Drop)]
pub struct FirstRows {
    pub names: Names,
    pub graph: Graph,
}

impl FirstRows {
    /// The rows of the component in the state at the start.
    pub fn new(alloc: Global, component: &Component, held: &Held) -> Result<FirstRows, NoMemory>
        requires kept { IsKept component.now }
        requires state { held.now ≡ first_state component.now }
        requires fits { IsOf component.now held.now }
        ensures { IfOk result (λ first. IsFirst component.now first.names first.graph) }
    {
        let Laid { plan, names } = lay_out(alloc, component, held)?;
        let codes = codes_of(alloc, held, &names)?;
        let graph = first_graph(alloc, plan, codes.as_slice())?;
        Ok(FirstRows { names, graph })
    }
}

/// The graph of a plan of which nothing ran yet: each source has its value of `codes`, and all owners are live.
fn first_graph(alloc: Global, plan: Plan, codes: &[Code]) -> Result<Graph, NoMemory>
    requires lawful { IsLawful plan }
    requires paired { length codes.now ≡ length plan.nodes }
    ensures { IfOk result (IsFirstGraph plan codes.now) }
{
    let live = vec![in alloc; true; plan.owners.len()]?;
    Graph::new(alloc, plan, live, codes)
}

/// For each row the value that held state gives to the id of its place.
fn codes_of(alloc: Global, held: &Held, names: &Names) -> Result<Vec<Code>, NoMemory>
    ensures { IfOk result (λ codes. codes.items ≡ map (λ p. value_held held.now.held p.id) names.now) }
{
    let mut codes = Vec::with_capacity(alloc, names.len() as usize)?;
    for row in 0..names.len() {
        codes.push(code_at(held, names, row))?;
    }
    Ok(codes)
}

/// The value that held state gives to the id of the place of a row.
fn code_at(held: &Held, names: &Names, row: u32) -> Code
    ensures { (p : Place) → slice_get names.now row ≡ Some p → result ≡ value_held held.now.held p.id }
{
    let Some(place) = names.place(row) else {
        return Code::Empty;
    };
    held.value(place.id()).unwrap_or(Code::Empty)
}
