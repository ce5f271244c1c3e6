//! The folding of a phase.
ghost use Rattle.std.specs.Prelude.{◌≡◌, IfOk};
ghost use Rattle.held_state.specs.State.{IsOf};
ghost use Rattle.next_layout.specs.Next.{IsFolded};

use component_items::Component;
use held_rows::write_back;
use held_state::Held;
use node_names::Names;
use phase_edits::{fold_disposals, fold_edits};
use phase_graph::Graph;
use std::alloc::Global;
use store_fields::Verdicts;
use values::{NoMemory, Noted};

/// Held state behind a phase, and what came of its edits, by pass.
#[derive(Drop)]
pub(crate) struct Folded {
    pub held: Held,
    pub verdicts: Vec<Verdicts>,
}

impl Folded {
    /// First the writes, as the rows show them, then the edits, and then the disposals.
    pub(crate) fn new(
        alloc: Global,
        component: &Component,
        held: &Held,
        names: &Names,
        graph: &Graph,
        entries: &[Noted],
    ) -> Result<Folded, NoMemory>
        requires { IsOf component.now held.now }
        ensures { IfOk result (λ folded. IsFolded component.now held.now names.now graph.now entries.now folded.held folded.verdicts.items) }
    {
        let _items = component.items();
        let mut next = held.copy(alloc)?;
        write_back(&mut next, component, names, graph.rows());
        let verdicts = fold_edits(alloc, &mut next, graph.posts(), entries)?;
        fold_disposals(&mut next, entries);
        Ok(Folded {
            held: next,
            verdicts,
        })
    }
}
