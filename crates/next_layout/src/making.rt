//! What a graph goes over to.
ghost use Rattle.std.specs.Prelude.{◌≡◌, ◌≤◌, length, IfOk};
ghost use Rattle.held_state.specs.State.{IsOf};
ghost use Rattle.next_layout.specs.Next.{IsFolded, IsNext};

use crate::codes::laid_with_codes;
use crate::folding::Folded;
use component_items::Component;
use held_state::Held;
use node_names::Names;
use node_plan::Laid;
use phase_graph::{Graph, Relaid};
use row_carrying::rows_to;
use std::alloc::Global;
use std::marker::Model;
use values::{Code, NoMemory, Noted};

/// All that a graph goes over to, in memory that was taken before.
#[derive(Drop)]
pub struct Next {
    pub(crate) folded: Folded,
    pub(crate) names: Names,
    pub(crate) relaid: Relaid,
    /// The value of each source, in order of row.
    pub(crate) codes: Vec<Code>,
}

impl Model for Next {
    ghost use Rattle.std.specs.Coded.{codes as coded_types};
    ghost use Rattle.held_state.specs.contracts.held.Held as held_model;
    ghost use Rattle.phase_graph.specs.contracts.relaying.Relaid as relaid_model;
    ghost use Rattle.next_layout.specs.Next.{NextState};

    ghost Value = { NextState };

    ghost coded = { Prim.hlevel (coded_types, held_model.the_row.coded, relaid_model.the_row.coded) };

    ghost view = { λ n. record { state = n.folded.held; verdicts = n.folded.verdicts.items; places = n.names; relaid = n.relaid; codes = n.codes.items } };
}

impl Next {
    /// What the graph of these goes over to behind a phase in which this was noted. It takes the time of what is held
    /// and of the two layouts.
    pub fn new(
        alloc: Global,
        component: &Component,
        held: &Held,
        names: &Names,
        graph: &Graph,
        entries: &[Noted],
    ) -> Result<Next, NoMemory>
        requires { IsOf component.now held.now }
        ensures folded { IfOk result (λ next. IsFolded component.now held.now names.now graph.now entries.now next.state next.verdicts) }
        ensures is_next { IfOk result (IsNext component.now held.now names.now graph.now) }
    {
        let _items = component.items();
        let folded = Folded::new(alloc, component, held, names, graph, entries)?;
        let (laid, codes) = laid_with_codes(alloc, component, &folded.held, names, graph)?;
        let Laid { plan, names: later } = laid;
        let to = rows_to(alloc, names, &later)?;
        let live = live_flags(alloc, &folded.held, plan.owners.len())?;
        let relaid = Relaid::new(alloc, plan, live, to)?;
        Ok(Next {
            folded,
            names: later,
            relaid,
            codes,
        })
    }
}

/// Of each owner whether it is live.
fn live_flags(alloc: Global, held: &Held, owners: usize) -> Result<Vec<bool>, NoMemory>
    requires all { length held.now.held.live ≡ owners }
    requires few { owners ≤ 1024 }
    ensures { IfOk result (λ live. live.items ≡ held.now.held.live) }
{
    let mut live = Vec::with_capacity(alloc, owners)?;
    for owner in 0..owners {
        live.push(held.is_live(owner as u32))?;
    }
    Ok(live)
}
